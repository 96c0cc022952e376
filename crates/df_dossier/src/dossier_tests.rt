// Whole dossiers: what they say, worked out by hand, read as a slice and from sources that give them in pieces.
use super::*;
use crate::anyhow_tests::{Answer, anyhow};
use df_lang::{Needed, SourceFault};
use std::alloc::{AllocError, Global};
use std::test::Fail;

// The source of the plane of order 2, and a log that was given up before its second branch.
const HEAD: &[u8] = b"dossier 2\nsource 3\ngroup 7\nk 3\nlambda 1\n";

const PLANE: &[u8] =
    b"dossier 2\nsource 3\ngroup 7\nk 3\nlambda 1\nfrom 0\nbranch 0\nsettled\ndesign 0 1 3\nend spent designs 1 nodes 2 next 1\n";

// What the head and these lines say.
fn after_head(alloc: Global, lines: &[u8]) -> Result<Answer, AllocError> {
    let mut text = Vec::new(alloc);
    text.extend_from_slice(HEAD)?;
    text.extend_from_slice(lines)?;
    Ok(anyhow(alloc, &text))
}

#[test]
fn a_spent_dossier_is_read(rt: HostRuntime) -> Result<(), Fail> {
    let alloc = rt.alloc();
    match read_spent(alloc, PLANE) {
        Ok(spent) => {
            assert_eq!(rt; spent.rules, Rules::Divisor);
            assert_eq!(rt; spent.path.length(), 1);
            assert_eq!(rt; spent.path.chosen(), [].as_slice());
            assert_eq!(rt; spent.problem.lambda, 1);
            assert_eq!(rt; spent.problem.sizes.as_slice(), [3].as_slice());
        }
        Err(_) => assert!(rt; false),
    }
    let plain =
        b"# c\r\n\ndossier\t1 # x\nsource 005 \r\n# a line that counts\n\ngroup 7\r\n k 3 # size\nlambda 1\n\n# c\nfrom 2 0\n\nover 1\n # block 0 1 3\nend spent designs 007 nodes 0 next 4 1 3\n\n# c\n\t\r";
    match read_spent(alloc, plain) {
        Ok(spent) => {
            assert_eq!(rt; spent.rules, Rules::Plain);
            assert_eq!(rt; spent.path.length(), 4);
            assert_eq!(rt; spent.path.chosen(), [1, 3].as_slice());
        }
        Err(_) => assert!(rt; false),
    }
    spent_dossiers_are_read_back();
    Ok(())
}

#[test]
fn faults_of_heads(rt: HostRuntime) {
    let alloc = rt.alloc();
    let head = DossierFault::BadHead;
    for (text, line) in [
        (b"".as_slice(), 0),
        (b"\n# dossier 1\n\n", 0),
        (b"dossier 01\n", 1),
        (b"\n\ndossier 3\n", 3),
        (b"dossier 1 1\n", 1),
        (b"Dossier 1\n", 1),
        (b"dossier 1\n", 0),
        (b"dossier 1\nsource 0\n", 2),
        (b"dossier 1\nsource\n", 2),
        (b"dossier 1\n\nsource 1 1\n", 3),
        (b"dossier 1\nsource 18446744073709551616\n", 2),
        (b"dossier 1\nsource 3\ngroup 7\nk 3\n", 0),
        (b"dossier 1\nsource 3\ngroup 7\nk x\n", 0),
        (b"dossier 1\nsource 3\ngroup 7\nk 3\nlambda 1", 0),
        (
            b"dossier 1\nsource 3\ngroup 7\nk 3\nlambda 1\n\nbranch 0\n",
            7,
        ),
        (b"dossier 1\nsource 3\ngroup 7\nk 3\nlambda 1\nfrom\n", 6),
        (
            b"dossier 1\nsource 3\ngroup 7\nk 3\nlambda 1\nfrom 1 1\n",
            6,
        ),
        (
            b"dossier 1\nsource 3\ngroup 7\nk 3\nlambda 1\nend spent designs 0 nodes 0 next 0\n",
            6,
        ),
    ] {
        assert_eq!(rt; anyhow(alloc, text), Answer::Fault(line, head));
    }
}

#[test]
fn faults_of_sources(rt: HostRuntime) {
    let alloc = rt.alloc();
    for (text, line, fault) in [
        (
            b"dossier 1\nsource 3\ngroup 7\nk x\nlambda 1\n".as_slice(),
            4,
            SourceFault::BadNumber,
        ),
        (
            b"\ndossier 1\n#\nsource 4\n# counted\ngroup 1\nk 3\nlambda 1\nfrom 0\n",
            6,
            SourceFault::GroupRange,
        ),
        (
            b"dossier 1\n\nsource 2\ngroup 7\nk 3\nlambda 1\n",
            3,
            SourceFault::Missing(Needed::Lambda),
        ),
        (
            b"dossier 2\nsource 1\n# none\n",
            2,
            SourceFault::Missing(Needed::Group),
        ),
    ] {
        assert_eq!(rt;
            anyhow(alloc, text),
            Answer::Fault(line, DossierFault::BadSource(fault))
        );
    }
}

#[test]
fn faults_of_logs(rt: HostRuntime) -> Result<(), Fail> {
    let alloc = rt.alloc();
    for (lines, line, fault) in [
        (b"from 0\n".as_slice(), 0, DossierFault::BadEnd),
        (b"from 0\nbranch\n", 7, DossierFault::BadEntry),
        (
            b"from 0\n\n# x\nbranch 0\nunder 4294967296\n",
            10,
            DossierFault::BadEntry,
        ),
        (b"from 0\nresidue 1 1\n", 7, DossierFault::BadEntry),
        (b"from 0\nfrom 0\n", 7, DossierFault::BadEntry),
        (b"from 0\ndesign 0 3 1\n", 7, DossierFault::BadDesign),
        (
            b"from 0\nsettled\ndesign 0 1 3 ; 0 1\n",
            8,
            DossierFault::BadDesign,
        ),
        (b"from 0\ndesigns\n", 7, DossierFault::BadEntry),
        (b"from 0\nend\n", 7, DossierFault::BadEnd),
        (
            b"from 0\nend spent designs 0 nodes 0 next\n",
            7,
            DossierFault::BadEnd,
        ),
        (
            b"from 0\nend spent designs 0 nodes 0 next 2 2\n",
            7,
            DossierFault::BadEnd,
        ),
        (b"from 0\nend finished designs 0\n", 7, DossierFault::BadEnd),
        (
            b"from 0\nend finished designs 0 nodes 0\n",
            7,
            DossierFault::NotSpent,
        ),
        (
            b"from 0\nend finished designs 0 nodes 0\nx\n",
            7,
            DossierFault::NotSpent,
        ),
        (
            b"from 0\nend spent designs 0 nodes 0 next 0\n\n# x\ndossier 2\n",
            10,
            DossierFault::Trailing,
        ),
        (
            b"from 0\nend spent designs 0 nodes 0 next 0\nbranch 0\n",
            8,
            DossierFault::Trailing,
        ),
    ] {
        assert_eq!(rt; after_head(alloc, lines)?, Answer::Fault(line, fault));
    }
    assert_eq!(rt;
        after_head(
            alloc,
            b"from 0\nresidue 1 2\nend spent designs 0 nodes 0 next 2 1"
        )?,
        Answer::Path(2)
    );
    let plain = b"dossier 1\nsource 3\ngroup 7\nk 3\nlambda 1\nfrom 0\nresidue 1 2\n";
    assert_eq!(rt;
        anyhow(alloc, plain),
        Answer::Fault(7, DossierFault::BadEntry)
    );
    Ok(())
}
