// What `resume` refuses: inputs that are not one dossier which ended spent, problems above a limit, and paths that are no nodes.
use super::*;
use crate::resume_tests::{EIGHT, SEVEN, assert_refused, joined};
use std::test::Fail;

// Paths at which a search can't go on; the length is told first, and then a settled proper prefix.
#[test]
fn refuses_paths(rt: HostRuntime) -> Result<(), Fail> {
    for (source, end, wanted) in [
        (SEVEN, "3", "path refused length 3 above 2\n"),
        (SEVEN, "3 0 1", "path refused length 3 above 2\n"),
        (SEVEN, "2 0 1", "path refused settled before 1\n"),
        (SEVEN, "2 0", "path refused settled before 1\n"),
        (SEVEN, "2", "path refused under 0\n"),
        (EIGHT, "2 0 1", "path refused over 0\n"),
        (EIGHT, "3 0", "path refused under 3\n"),
        (
            "source 5\ngroup 13\nmult 12\nk 4\nlambda 1\nhole 1\n",
            "0",
            "path refused under 0\n",
        ),
    ] {
        for head in ["dossier 1\n", "dossier 2\n"] {
            let pieces = &[
                head,
                source,
                "from 0\nend spent designs 0 nodes 1 next ",
                end,
                "\n",
            ];
            assert_refused(&rt, pieces, wanted)?;
        }
    }
    Ok(())
}

// A problem above a limit, with a path that isn't judged any more; and with a fault after it, which is told in its place.
#[test]
fn refuses_problems_above_a_limit(rt: HostRuntime) -> Result<(), Fail> {
    let source = "dossier 2\nsource 3\ngroup 64\nk 6\nlambda 1\nfrom 0\n";
    assert_refused(
        &rt,
        &[source, "end spent designs 0 nodes 1 next 4000000000 3\n"],
        "limit subsets 6 of 64 above 2000000\n",
    )?;
    assert_refused(
        &rt,
        &[
            source,
            "end spent designs 0 nodes 1 next 0\nend finished designs 0 nodes 0\n",
        ],
        "dossier refused line 8 Trailing\n",
    )
}

// Inputs that are not one dossier which ended spent: the first line that breaks a rule.
#[test]
fn refuses_dossiers(rt: HostRuntime) -> Result<(), Fail> {
    for (pieces, wanted) in [
        (&[""][..], "0 BadHead"),
        (&["dossier 3\n"][..], "1 BadHead"),
        (&["# a\n\n dossier 02\nx"][..], "3 BadHead"),
        (&["dossier 2\nsource 0\n"][..], "2 BadHead"),
        (&["dossier 2\nsource 6\ngroup 7\n"][..], "0 BadHead"),
        (&["dossier 2\n", SEVEN, "from 1 1\n"][..], "9 BadHead"),
        (
            &["dossier 1\nsource 2\ngroup 7\nk 9\nx\n"][..],
            "4 BadSource SizeRange",
        ),
        (
            &["dossier 1\nsource 2\ngroup 7\nk 3\nfrom 0\n"][..],
            "2 BadSource Missing lambda",
        ),
        (
            &["dossier 1\n", SEVEN, "from 0\nresidue 0 2\n"][..],
            "10 BadEntry",
        ),
        (
            &["dossier 2\n", SEVEN, "from 0\nresidue 0 2\nover\n"][..],
            "11 BadEntry",
        ),
        (
            &["dossier 2\n", SEVEN, "from 0\ndesign 0 1 7\n"][..],
            "10 BadDesign",
        ),
        (
            &[
                "dossier 2\n",
                SEVEN,
                "from 0\nend spent designs 1 nodes 2\nx\n",
            ][..],
            "10 BadEnd",
        ),
        (
            &["dossier 2\n", SEVEN, "from 0\nbranch 0\n"][..],
            "0 BadEnd",
        ),
        (
            &[
                "dossier 2\n",
                SEVEN,
                "from 0\nbranch 0\nsettled\ndesign 0 1 3\nbranch 1\nsettled\ndesign 0 1 5\nunder 0\nend finished designs 2 nodes 4\n",
            ][..],
            "17 NotSpent",
        ),
        (
            &[
                "dossier 2\n",
                SEVEN,
                "from 0\nend spent designs 0 nodes 1 next 9\n# c\ndossier 2\n",
            ][..],
            "12 Trailing",
        ),
    ] {
        let text = joined(rt.alloc(), &["dossier refused line ", wanted, "\n"])?;
        assert_refused(&rt, pieces, text.as_str())?;
    }
    Ok(())
}
