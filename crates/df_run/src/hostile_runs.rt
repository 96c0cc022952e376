// Runs of each command over good and bad inputs, with the exit status and the whole text of each. Another program worked the texts out, and
// each was held against what the formats say.

// The words, the input, the exit status, and the text.
pub(crate) type Told<'t> = (&'t [&'t str], &'t str, u8, &'t str);

const SEVEN: &str = "group 7\nk 3\nlambda 1\n";

const PLANE: &str = "group 7\nk 3\nlambda 1\nbase 0 1 3\n";

const EIGHT: &str = "group 8\nfixed 1\nk 3\nlambda 1\n";

const PLANES: &str =
    "dossier 2\nsource 6\ngroup 7\nfixed 0\nshift all\nk 3\nlambda 1\nhole 1\nfrom 0\nbranch 0\nsettled\ndesign 0 1 3\nbranch 1\nsettled\ndesign 0 1 5\nunder 0\nend finished designs 2 nodes 4\n";

const SPENT: &str =
    "dossier 2\nsource 6\ngroup 7\nfixed 0\nshift all\nk 3\nlambda 1\nhole 1\nfrom 0\nbranch 0\nsettled\ndesign 0 1 3\nend spent designs 1 nodes 2 next 1\n";

// Commands that read a source and don't search.
pub(crate) const SOURCES: &[Told<'static>] = &[
    (
        &["show"],
        "group 2 6 # a\nsubgroup N 1,3 0,2\n\nmult 7 5\nk 3\nlambda 0002\n",
        0,
        "group 2 6\nfixed 0\nsubgroup N 0,2 1,1\nshift all\nmult 1 5\nk 3\nlambda 2\nhole 2\n",
    ),
    (
        &["show"],
        "version 2\ngroup 6\nk 3 2\nlambda 1\nrequire 4 0 2",
        0,
        "version 2\ngroup 6\nfixed 0\nshift all\nk 2 3\nlambda 1\nhole 1\nrequire 0 2 4\n",
    ),
    (
        &["show"],
        "group 7\nsubgroup all 1\nk 3\n",
        3,
        "source refused line 2 NameTaken\n",
    ),
    (
        &["table"],
        "group 8\nfixed 1\nk 3\nlambda 1\nshort inf1 0 4\nbase 0 1 3\n",
        0,
        "diff 1 found 1 stated 1\ndiff 2 found 1 stated 1\ndiff 3 found 1 stated 1\ndiff 4 found 1 stated 1\ndiff 5 found 1 stated 1\ndiff 6 found 1 stated 1\ndiff 7 found 1 stated 1\nfixed inf1 found 1 stated 1\n",
    ),
    (
        &["table"],
        "group 7\nlambda 1\n",
        3,
        "source refused line 0 Missing k\n",
    ),
    (
        &["verify"],
        PLANE,
        0,
        "accepted 7\nblock 0 1 3\nblock 1 2 4\nblock 2 3 5\nblock 3 4 6\nblock 0 4 5\nblock 1 5 6\nblock 0 2 6\n",
    ),
    (
        &["verify"],
        "group 7\nk 3\nlambda 1\nbase 0 1 2\n",
        1,
        "refused diff 1 found 2 stated 1\n",
    ),
    (
        &["verify"],
        "group 7\nk 3\nlambda 1\nbase 0 1 7\n",
        3,
        "source refused line 4 BadElement\n",
    ),
    (
        &["orbits"],
        "group 7\nmult 6\nk 3\nlambda 1\n",
        0,
        "pairs 3\npair 0 1 size 7\npair 0 2 size 7\npair 0 3 size 7\nblocks 4\nblock 0 1 2 size 7\nblock 0 1 3 size 14\nblock 0 1 4 size 7\nblock 0 2 4 size 7\n",
    ),
    (
        &["orbits"],
        "version 2\ngroup 128\nk 4\nlambda 1\n",
        3,
        "limit subsets of 128 above 8000000\n",
    ),
    (
        &["orbits"],
        "group 9\nmult 3\n",
        3,
        "source refused line 2 NotUnit\n",
    ),
    (
        &["matrix"],
        SEVEN,
        0,
        "rows 3 orbits 5 kept 2\nrow 0 pair 0 1 target 1\nrow 1 pair 0 2 target 1\nrow 2 pair 0 3 target 1\norbit 0 1 2 entries 2 1 0 dropped\norbit 0 1 3 entries 1 1 1 column 0\norbit 0 1 4 entries 1 0 2 dropped\norbit 0 1 5 entries 1 1 1 column 1\norbit 0 2 4 entries 0 2 1 dropped\n",
    ),
    (
        &["matrix"],
        "version 2\ngroup 6\nk 2 3\nlambda 1\nrequire 0 2 4\n",
        0,
        "rows 4 orbits 7 kept 4\nrow 0 pair 0 1 target 1\nrow 1 pair 0 2 target 1\nrow 2 pair 0 3 target 1\nrow 3 block 0 2 4 target 1\norbit 0 1 entries 1 0 0 0 column 0\norbit 0 1 2 entries 2 1 0 0 dropped\norbit 0 1 3 entries 1 1 2 0 dropped\norbit 0 1 4 entries 1 1 2 0 dropped\norbit 0 2 entries 0 1 0 0 column 1\norbit 0 2 4 entries 0 1 0 1 column 2\norbit 0 3 entries 0 0 1 0 column 3\n",
    ),
    (
        &["matrix"],
        "group 64\nk 6\nlambda 1\n",
        3,
        "limit subsets 6 of 64 above 2000000\n",
    ),
    (
        &["matrix"],
        "k 3\n",
        3,
        "source refused line 1 Missing group\n",
    ),
];

// Searches that finish: with a log and without, with designs and without, and one whose first path is given up.
pub(crate) const FINISHED: &[Told<'static>] = &[
    (
        &["solve"],
        SEVEN,
        0,
        "dossier 2\nsource 6\ngroup 7\nfixed 0\nshift all\nk 3\nlambda 1\nhole 1\nfrom 0\ndesign 0 1 3\ndesign 0 1 5\nend finished designs 2 nodes 4\n",
    ),
    (
        &["solve"],
        "group 9\nk 3\nlambda 1\n",
        0,
        "dossier 2\nsource 6\ngroup 9\nfixed 0\nshift all\nk 3\nlambda 1\nhole 1\nfrom 0\nend finished designs 0 nodes 18\n",
    ),
    (
        &["solve", "--log"],
        EIGHT,
        0,
        "dossier 2\nsource 6\ngroup 8\nfixed 1\nshift all\nk 3\nlambda 1\nhole 1\nfrom 0\nbranch 0\nbranch 1\nover 0\nbranch 2\nsettled\ndesign 0 1 3 ; 0 4 inf1\nunder 3\nbranch 1\nbranch 2\nsettled\ndesign 0 1 6 ; 0 4 inf1\nunder 3\nunder 0\nend finished designs 2 nodes 7\n",
    ),
    (
        &["solve", "--log"],
        "group 5\nmult 4\nk 3\nlambda 1\n",
        0,
        "dossier 2\nsource 7\ngroup 5\nfixed 0\nshift all\nmult 4\nk 3\nlambda 1\nhole 1\nfrom 0\nunder 0\nend finished designs 0 nodes 0\n",
    ),
];

// Searches whose budget is spent, and sources that are refused.
pub(crate) const STOPPED: &[Told<'static>] = &[
    (
        &["solve", "--log", "--blocks", "--budget", "3"],
        SEVEN,
        7,
        "dossier 2\nsource 6\ngroup 7\nfixed 0\nshift all\nk 3\nlambda 1\nhole 1\nfrom 0\nbranch 0\nsettled\ndesign 0 1 3\n# block 0 1 3\n# block 0 2 6\n# block 0 4 5\n# block 1 2 4\n# block 1 5 6\n# block 2 3 5\n# block 3 4 6\nbranch 1\nend spent designs 1 nodes 3 next 2 1\n",
    ),
    (
        &["solve", "--budget", "1"],
        SEVEN,
        7,
        "dossier 2\nsource 6\ngroup 7\nfixed 0\nshift all\nk 3\nlambda 1\nhole 1\nfrom 0\nend spent designs 0 nodes 1 next 1 0\n",
    ),
    (
        &["solve"],
        "group 64\nk 6\nlambda 1\n",
        3,
        "limit subsets 6 of 64 above 2000000\n",
    ),
    (
        &["solve", "--log"],
        "group 7\nk 9\n",
        3,
        "source refused line 2 SizeRange\n",
    ),
];

// Searches that are told as listings.
pub(crate) const LISTINGS: &[Told<'static>] = &[
    (
        &["solve", "--json"],
        SEVEN,
        0,
        "{\"designs\":[[[\"0\",\"1\",\"3\"]],[[\"0\",\"1\",\"5\"]]],\"end\":\"finished\",\"nodes\":4,\"source\":[\"group 7\",\"fixed 0\",\"shift all\",\"k 3\",\"lambda 1\",\"hole 1\"]}\n",
    ),
    (
        &["solve", "--json", "--blocks", "--budget", "2"],
        SEVEN,
        7,
        "{\"blocks\":[[[\"0\",\"1\",\"3\"],[\"0\",\"2\",\"6\"],[\"0\",\"4\",\"5\"],[\"1\",\"2\",\"4\"],[\"1\",\"5\",\"6\"],[\"2\",\"3\",\"5\"],[\"3\",\"4\",\"6\"]]],\"designs\":[[[\"0\",\"1\",\"3\"]]],\"end\":\"spent\",\"next\":[1],\"nodes\":2,\"source\":[\"group 7\",\"fixed 0\",\"shift all\",\"k 3\",\"lambda 1\",\"hole 1\"]}\n",
    ),
    (
        &["solve", "--json"],
        "group 64\nk 6\nlambda 1\n",
        3,
        "limit subsets 6 of 64 above 2000000\n",
    ),
    (
        &["solve", "--json"],
        "group 7\ngroup 7\n",
        3,
        "source refused line 2 Repeated\n",
    ),
];

// Searches that go on, and dossiers that none goes on with.
pub(crate) const LATER: &[Told<'static>] = &[
    (
        &["resume", "--log"],
        SPENT,
        0,
        "dossier 2\nsource 6\ngroup 7\nfixed 0\nshift all\nk 3\nlambda 1\nhole 1\nfrom 1\nbranch 1\nsettled\ndesign 0 1 5\nunder 0\nend finished designs 1 nodes 2\n",
    ),
    (
        &["resume", "--log", "--budget", "1"],
        SPENT,
        7,
        "dossier 2\nsource 6\ngroup 7\nfixed 0\nshift all\nk 3\nlambda 1\nhole 1\nfrom 1\nbranch 1\nend spent designs 0 nodes 1 next 2 1\n",
    ),
    (
        &["resume", "--blocks"],
        "dossier 1\nsource 4\ngroup 7 # c\nk 3\n\nlambda 1\nfrom 2\nend spent designs 0 nodes 9 next 1 0\n",
        0,
        "dossier 1\nsource 6\ngroup 7\nfixed 0\nshift all\nk 3\nlambda 1\nhole 1\nfrom 1 0\ndesign 0 1 3\n# block 0 1 3\n# block 0 2 6\n# block 0 4 5\n# block 1 2 4\n# block 1 5 6\n# block 2 3 5\n# block 3 4 6\ndesign 0 1 5\n# block 0 1 5\n# block 0 2 3\n# block 0 4 6\n# block 1 2 6\n# block 1 3 4\n# block 2 4 5\n# block 3 5 6\nend finished designs 2 nodes 3\n",
    ),
    (
        &["resume"],
        "dossier 2\nsource 6\ngroup 7\nfixed 0\nshift all\nk 3\nlambda 1\nhole 1\nfrom 0\nend spent designs 0 nodes 1 next 2 0\n",
        3,
        "path refused settled before 1\n",
    ),
    (
        &["resume"],
        "dossier 2\nsource 6\ngroup 7\nfixed 0\nshift all\nk 3\nlambda 1\nhole 1\nfrom 0\nend spent designs 0 nodes 1 next 3\n",
        3,
        "path refused length 3 above 2\n",
    ),
    (&["resume"], PLANES, 3, "dossier refused line 17 NotSpent\n"),
    (
        &["resume"],
        "dossier 2\nsource 6\ngroup 7\nfixed 0\nshift all\nk 3\nlambda 1\nhole 1\nfrom 0\nbranch 0\nsettled\ndesign 0 1 3\nend spent designs 1 nodes 2 next 1\nx\n",
        3,
        "dossier refused line 14 Trailing\n",
    ),
    (
        &["resume"],
        "dossier 2\nsource 3\ngroup 64\nk 6\nlambda 1\nfrom 0\nend spent designs 0 nodes 1 next 0\n",
        3,
        "limit subsets 6 of 64 above 2000000\n",
    ),
];

// Logs and chains that are complete, that break a rule, and that are none.
pub(crate) const CHECKS: &[Told<'static>] = &[
    (&["check"], PLANES, 0, "complete 2\n"),
    (
        &["check"],
        "dossier 2\nsource 6\ngroup 7\nfixed 0\nshift all\nk 3\nlambda 1\nhole 1\nfrom 0\nbranch 0\nend spent designs 0 nodes 1 next 1 0\ndossier 2\nsource 6\ngroup 7\nfixed 0\nshift all\nk 3\nlambda 1\nhole 1\nfrom 1 0\nsettled\ndesign 0 1 3\nend spent designs 1 nodes 1 next 1\ndossier 2\nsource 6\ngroup 7\nfixed 0\nshift all\nk 3\nlambda 1\nhole 1\nfrom 1\nbranch 1\nsettled\ndesign 0 1 5\nunder 0\nend finished designs 1 nodes 2\n",
        0,
        "complete 2\n",
    ),
    (
        &["check"],
        "dossier 2\nsource 7\ngroup 7\nfixed 0\nshift all\nmult 6\nk 3\nlambda 3\nhole 3\nfrom 0\nbranch 0\nbranch 1\ncut 1 0\nbranch 2\nbranch 3\nsettled\ndesign 0 1 2 ; 0 1 4 ; 0 2 4\nunder 1\ncut 1 0 -1 2\nresidue 1 2\nend finished designs 1 nodes 5\n",
        0,
        "complete 1\n",
    ),
    (&["check"], SPENT, 1, "refused line 13 OpenAtEnd\n"),
    (
        &["check"],
        "dossier 2\nsource 6\ngroup 7\nfixed 0\nshift all\nk 3\nlambda 1\nhole 1\nfrom 0\nbranch 0\nsettled\ndesign 0 1 3\nbranch 0\nsettled\ndesign 0 1 5\nunder 0\nend finished designs 2 nodes 4\n",
        1,
        "refused line 13 ColumnDecided\n",
    ),
    (
        &["check"],
        "dossier 2\nsource 6\ngroup 1\nfixed 0\nshift all\nk 3\nlambda 1\nhole 1\nfrom 0\nbranch 0\nsettled\ndesign 0 1 3\nbranch 1\nsettled\ndesign 0 1 5\nunder 0\nend finished designs 2 nodes 4\n",
        3,
        "dossier refused line 3 BadSource GroupRange\n",
    ),
    (
        &["check"],
        "dossier 2\nsource 3\ngroup 64\nk 6\nlambda 1\nfrom 0\n",
        3,
        "limit subsets 6 of 64 above 2000000\n",
    ),
    (
        &["check"],
        "dossier 2\nsource 6\ngroup 7\nfixed 0\nshift all\nk 3\nlambda 1\nhole 1\nfrom 0\nbranch 0\nsettled\ndesign 0 1 3\nbranch 1\nsettled\ndesign 0 1 5\nunder 0\nend finished designs 2 nodes 4\ndossier 2\nsource 6\ngroup 7\nfixed 0\nshift all\nk 3\nlambda 1\nhole 1\nfrom 0\nbranch 0\nsettled\ndesign 0 1 3\nbranch 1\nsettled\ndesign 0 1 5\nunder 0\nend finished designs 2 nodes 4\n",
        1,
        "refused line 26 ChainBroken\n",
    ),
];

// Commands that read nothing, and words that are none.
pub(crate) const UNREAD: &[Told<'static>] = &[
    (
        &["workload", "1"],
        PLANE,
        0,
        "workload 1 points 11 columns 15 designs 1 nodes 16\n",
    ),
    (&[], PLANE, 2, "usage word 1\n"),
    (&["verify", "x"], PLANE, 2, "usage word 2\n"),
    (&["solve", "--budget", "0"], PLANE, 2, "usage word 3\n"),
    (&["solve", "--json", "--log"], PLANE, 2, "usage word 3\n"),
    (&["resume", "--json"], PLANE, 2, "usage word 2\n"),
    (&["workload", "21"], PLANE, 2, "usage word 2\n"),
];
