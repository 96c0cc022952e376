// The command `solve --json`: listings that another program worked out, by the definitions of a design and of a node.
use super::*;
use crate::tests::run_over;
use std::process::Abort;
use std::test::Fail;

const SEVEN: &str = "group 7\nk 3\nlambda 1\n";

// Runs these words over a source, and compares the exit status and the whole text.
fn assert_told(
    rt: &(impl Abort + AllocGlobal),
    words: &[&str],
    source: &str,
    code: u8,
    wanted: &str,
) -> Result<(), Fail> {
    let (status, _, sink) = run_over(rt.alloc(), words, source.as_bytes(), 64, 0, 65_536)?;
    assert_eq!(rt; status.code(), code, "at {source}");
    assert_eq!(rt; sink.bytes.as_slice(), wanted.as_bytes(), "at {source}");
    Ok(())
}

// The planes of order 2: each end of a budget, with and without all blocks.
#[test]
fn lists_the_planes_of_order_2(rt: HostRuntime) -> Result<(), Fail> {
    for (words, code, wanted) in [
        (
            &["solve", "--json"][..],
            0,
            "{\"designs\":[[[\"0\",\"1\",\"3\"]],[[\"0\",\"1\",\"5\"]]],\"end\":\"finished\",\"nodes\":4,\"source\":[\"group 7\",\"fixed 0\",\"shift all\",\"k 3\",\"lambda 1\",\"hole 1\"]}\n",
        ),
        (
            &["solve", "--json", "--budget", "1"][..],
            7,
            "{\"designs\":[],\"end\":\"spent\",\"next\":[1,0],\"nodes\":1,\"source\":[\"group 7\",\"fixed 0\",\"shift all\",\"k 3\",\"lambda 1\",\"hole 1\"]}\n",
        ),
        (
            &["solve", "--budget", "2", "--json"][..],
            7,
            "{\"designs\":[[[\"0\",\"1\",\"3\"]]],\"end\":\"spent\",\"next\":[1],\"nodes\":2,\"source\":[\"group 7\",\"fixed 0\",\"shift all\",\"k 3\",\"lambda 1\",\"hole 1\"]}\n",
        ),
        (
            &["solve", "--blocks", "--json", "--budget", "2"][..],
            7,
            "{\"blocks\":[[[\"0\",\"1\",\"3\"],[\"0\",\"2\",\"6\"],[\"0\",\"4\",\"5\"],[\"1\",\"2\",\"4\"],[\"1\",\"5\",\"6\"],[\"2\",\"3\",\"5\"],[\"3\",\"4\",\"6\"]]],\"designs\":[[[\"0\",\"1\",\"3\"]]],\"end\":\"spent\",\"next\":[1],\"nodes\":2,\"source\":[\"group 7\",\"fixed 0\",\"shift all\",\"k 3\",\"lambda 1\",\"hole 1\"]}\n",
        ),
        (
            &["solve", "--json", "--budget", "3"][..],
            7,
            "{\"designs\":[[[\"0\",\"1\",\"3\"]]],\"end\":\"spent\",\"next\":[2,1],\"nodes\":3,\"source\":[\"group 7\",\"fixed 0\",\"shift all\",\"k 3\",\"lambda 1\",\"hole 1\"]}\n",
        ),
        (
            &["solve", "--json", "--budget", "4"][..],
            0,
            "{\"designs\":[[[\"0\",\"1\",\"3\"]],[[\"0\",\"1\",\"5\"]]],\"end\":\"finished\",\"nodes\":4,\"source\":[\"group 7\",\"fixed 0\",\"shift all\",\"k 3\",\"lambda 1\",\"hole 1\"]}\n",
        ),
        (
            &["solve", "--budget", "5", "--blocks", "--json"][..],
            0,
            "{\"blocks\":[[[\"0\",\"1\",\"3\"],[\"0\",\"2\",\"6\"],[\"0\",\"4\",\"5\"],[\"1\",\"2\",\"4\"],[\"1\",\"5\",\"6\"],[\"2\",\"3\",\"5\"],[\"3\",\"4\",\"6\"]],[[\"0\",\"1\",\"5\"],[\"0\",\"2\",\"3\"],[\"0\",\"4\",\"6\"],[\"1\",\"2\",\"6\"],[\"1\",\"3\",\"4\"],[\"2\",\"4\",\"5\"],[\"3\",\"5\",\"6\"]]],\"designs\":[[[\"0\",\"1\",\"3\"]],[[\"0\",\"1\",\"5\"]]],\"end\":\"finished\",\"nodes\":4,\"source\":[\"group 7\",\"fixed 0\",\"shift all\",\"k 3\",\"lambda 1\",\"hole 1\"]}\n",
        ),
    ] {
        assert_told(&rt, words, SEVEN, code, wanted)?;
    }
    Ok(())
}

// No design, the design without blocks, fixed points, a design with a block of fixed points alone, and groups of two factors.
#[test]
fn lists_all_designs(rt: HostRuntime) -> Result<(), Fail> {
    for (words, source, code, wanted) in [
        (
            &["solve", "--json"][..],
            "group 9\nk 3\nlambda 1\n",
            0,
            "{\"designs\":[],\"end\":\"finished\",\"nodes\":18,\"source\":[\"group 9\",\"fixed 0\",\"shift all\",\"k 3\",\"lambda 1\",\"hole 1\"]}\n",
        ),
        (
            &["solve", "--json", "--blocks"][..],
            "group 9\nk 3\nlambda 1\n",
            0,
            "{\"blocks\":[],\"designs\":[],\"end\":\"finished\",\"nodes\":18,\"source\":[\"group 9\",\"fixed 0\",\"shift all\",\"k 3\",\"lambda 1\",\"hole 1\"]}\n",
        ),
        (
            &["solve", "--json", "--budget", "17"][..],
            "group 9\nk 3\nlambda 1\n",
            7,
            "{\"designs\":[],\"end\":\"spent\",\"next\":[5,3],\"nodes\":17,\"source\":[\"group 9\",\"fixed 0\",\"shift all\",\"k 3\",\"lambda 1\",\"hole 1\"]}\n",
        ),
        (
            &["solve", "--json"][..],
            "group 7\nk 3\nlambda 0\n",
            0,
            "{\"designs\":[[]],\"end\":\"finished\",\"nodes\":1,\"source\":[\"group 7\",\"fixed 0\",\"shift all\",\"k 3\",\"lambda 0\",\"hole 0\"]}\n",
        ),
        (
            &["solve", "--json", "--blocks"][..],
            "group 7\nk 3\nlambda 0\n",
            0,
            "{\"blocks\":[[]],\"designs\":[[]],\"end\":\"finished\",\"nodes\":1,\"source\":[\"group 7\",\"fixed 0\",\"shift all\",\"k 3\",\"lambda 0\",\"hole 0\"]}\n",
        ),
        (
            &["solve", "--json"][..],
            "group 8\nfixed 1\nk 3\nlambda 1\n",
            0,
            "{\"designs\":[[[\"0\",\"1\",\"3\"],[\"0\",\"4\",\"inf1\"]],[[\"0\",\"1\",\"6\"],[\"0\",\"4\",\"inf1\"]]],\"end\":\"finished\",\"nodes\":7,\"source\":[\"group 8\",\"fixed 1\",\"shift all\",\"k 3\",\"lambda 1\",\"hole 1\"]}\n",
        ),
        (
            &["solve", "--json", "--blocks", "--budget", "4"][..],
            "group 8\nfixed 1\nk 3\nlambda 1\n",
            7,
            "{\"blocks\":[[[\"0\",\"1\",\"3\"],[\"0\",\"2\",\"7\"],[\"0\",\"4\",\"inf1\"],[\"0\",\"5\",\"6\"],[\"1\",\"2\",\"4\"],[\"1\",\"5\",\"inf1\"],[\"1\",\"6\",\"7\"],[\"2\",\"3\",\"5\"],[\"2\",\"6\",\"inf1\"],[\"3\",\"4\",\"6\"],[\"3\",\"7\",\"inf1\"],[\"4\",\"5\",\"7\"]]],\"designs\":[[[\"0\",\"1\",\"3\"],[\"0\",\"4\",\"inf1\"]]],\"end\":\"spent\",\"next\":[1],\"nodes\":4,\"source\":[\"group 8\",\"fixed 1\",\"shift all\",\"k 3\",\"lambda 1\",\"hole 1\"]}\n",
        ),
        (
            &["solve", "--json"][..],
            "group 3 3\nk 3\nlambda 1\n",
            0,
            "{\"designs\":[[[\"0,0\",\"0,1\",\"0,2\"],[\"0,0\",\"1,0\",\"2,0\"],[\"0,0\",\"1,1\",\"2,2\"],[\"0,0\",\"1,2\",\"2,1\"]],[[\"0,0\",\"0,1\",\"0,2\"],[\"0,0\",\"1,0\",\"2,1\"]],[[\"0,0\",\"0,1\",\"0,2\"],[\"0,0\",\"1,0\",\"2,2\"]],[[\"0,0\",\"0,1\",\"1,0\"],[\"0,0\",\"1,1\",\"2,2\"]],[[\"0,0\",\"0,1\",\"1,1\"],[\"0,0\",\"1,2\",\"2,1\"]],[[\"0,0\",\"0,1\",\"1,2\"],[\"0,0\",\"1,0\",\"2,0\"]],[[\"0,0\",\"0,1\",\"2,0\"],[\"0,0\",\"1,2\",\"2,1\"]],[[\"0,0\",\"0,1\",\"2,1\"],[\"0,0\",\"1,1\",\"2,2\"]],[[\"0,0\",\"0,1\",\"2,2\"],[\"0,0\",\"1,0\",\"2,0\"]]],\"end\":\"finished\",\"nodes\":68,\"source\":[\"group 3 3\",\"fixed 0\",\"shift all\",\"k 3\",\"lambda 1\",\"hole 1\"]}\n",
        ),
        (
            &["solve", "--json", "--blocks", "--budget", "9"][..],
            "group 3 3\nk 3\nlambda 1\n",
            7,
            "{\"blocks\":[],\"designs\":[],\"end\":\"spent\",\"next\":[9,0,7],\"nodes\":9,\"source\":[\"group 3 3\",\"fixed 0\",\"shift all\",\"k 3\",\"lambda 1\",\"hole 1\"]}\n",
        ),
        (
            &["solve", "--json"][..],
            "group 2 2\nfixed 3\nk 3\nlambda 1\n",
            0,
            "{\"designs\":[[[\"0,0\",\"0,1\",\"inf1\"],[\"0,0\",\"1,0\",\"inf2\"],[\"0,0\",\"1,1\",\"inf3\"],[\"inf1\",\"inf2\",\"inf3\"]],[[\"0,0\",\"0,1\",\"inf1\"],[\"0,0\",\"1,0\",\"inf3\"],[\"0,0\",\"1,1\",\"inf2\"],[\"inf1\",\"inf2\",\"inf3\"]],[[\"0,0\",\"0,1\",\"inf2\"],[\"0,0\",\"1,0\",\"inf1\"],[\"0,0\",\"1,1\",\"inf3\"],[\"inf1\",\"inf2\",\"inf3\"]],[[\"0,0\",\"0,1\",\"inf2\"],[\"0,0\",\"1,0\",\"inf3\"],[\"0,0\",\"1,1\",\"inf1\"],[\"inf1\",\"inf2\",\"inf3\"]],[[\"0,0\",\"0,1\",\"inf3\"],[\"0,0\",\"1,0\",\"inf1\"],[\"0,0\",\"1,1\",\"inf2\"],[\"inf1\",\"inf2\",\"inf3\"]],[[\"0,0\",\"0,1\",\"inf3\"],[\"0,0\",\"1,0\",\"inf2\"],[\"0,0\",\"1,1\",\"inf1\"],[\"inf1\",\"inf2\",\"inf3\"]]],\"end\":\"finished\",\"nodes\":51,\"source\":[\"group 2 2\",\"fixed 3\",\"shift all\",\"k 3\",\"lambda 1\",\"hole 1\"]}\n",
        ),
    ] {
        assert_told(&rt, words, source, code, wanted)?;
    }
    Ok(())
}

// The lines of the source, with each letter and digit that a name may have.
#[test]
fn lists_each_byte_of_a_source(rt: HostRuntime) -> Result<(), Fail> {
    let source =
        "group 2 2 # the plane\nsubgroup ABCDEFGHIJKLMNOP 0,1\nsubgroup QRSTUVWXYZabcdef 1,0\nsubgroup ghijklmnopqrstuv 1,1\nsubgroup wxyz_0123456789 0,1\nk 2\nlambda 1\n";
    let wanted =
        "{\"blocks\":[[[\"0,0\",\"0,1\"],[\"0,0\",\"1,0\"],[\"0,0\",\"1,1\"],[\"0,1\",\"1,0\"],[\"0,1\",\"1,1\"],[\"1,0\",\"1,1\"]]],\"designs\":[[[\"0,0\",\"0,1\"],[\"0,0\",\"1,0\"],[\"0,0\",\"1,1\"]]],\"end\":\"finished\",\"nodes\":4,\"source\":[\"group 2 2\",\"fixed 0\",\"subgroup ABCDEFGHIJKLMNOP 0,1\",\"subgroup QRSTUVWXYZabcdef 1,0\",\"subgroup ghijklmnopqrstuv 1,1\",\"subgroup wxyz_0123456789 0,1\",\"shift all\",\"k 2\",\"lambda 1\",\"hole 1\"]}\n";
    assert_told(&rt, &["solve", "--json", "--blocks"], source, 0, wanted)
}

// What refuses a search refuses a listing, with the same text; and the words.
#[test]
fn tells_refusals_of_a_listing(rt: HostRuntime) -> Result<(), Fail> {
    for (words, source, code, wanted) in [
        (
            &["solve", "--json"][..],
            "group 64\nk 6\nlambda 1\n",
            3,
            "limit subsets 6 of 64 above 2000000\n",
        ),
        (
            &["solve", "--json"][..],
            "group 7\nk 3\n",
            3,
            "source refused line 0 Missing lambda\n",
        ),
        (
            &["solve", "--json", "--log"][..],
            SEVEN,
            2,
            "usage word 3\n",
        ),
        (
            &["solve", "--log", "--json"][..],
            SEVEN,
            2,
            "usage word 3\n",
        ),
        (
            &["solve", "--json", "--budget", "0"][..],
            SEVEN,
            2,
            "usage word 4\n",
        ),
        (&["solve", "--budget", "0"][..], SEVEN, 2, "usage word 3\n"),
        (&["resume", "--json"][..], SEVEN, 2, "usage word 2\n"),
    ] {
        assert_told(&rt, words, source, code, wanted)?;
    }
    Ok(())
}

// A listing is no dossier: no search goes on with it.
#[test]
fn goes_on_with_no_listing(rt: HostRuntime) -> Result<(), Fail> {
    let words = &["solve", "--json", "--budget", "2"][..];
    let (status, _, sink) = run_over(rt.alloc(), words, SEVEN.as_bytes(), 64, 0, 4096)?;
    assert_eq!(rt; status.code(), 7);
    let text = std::str::from_utf8(sink.bytes.as_slice()).unwrap_or("");
    let wanted = "dossier refused line 1 BadHead\n";
    assert_told(&rt, &["resume"], text, 3, wanted)
}

// A fault at each read, and each room of the sink.
#[test]
fn tells_faults_of_a_listing(rt: HostRuntime) -> Result<(), Fail> {
    for failing in 1..4u64 {
        let words = &["solve", "--json"][..];
        let (status, _, sink) = run_over(rt.alloc(), words, SEVEN.as_bytes(), 16, failing, 4096)?;
        assert_eq!(rt; status.code(), 4, "at call {failing}");
        assert_eq!(rt; sink.bytes.len(), 0);
    }
    let words = &["solve", "--json", "--blocks", "--budget", "3"][..];
    let (status, _, whole) = run_over(rt.alloc(), words, SEVEN.as_bytes(), 16, 0, 4096)?;
    assert_eq!(rt; status.code(), 7);
    let wanted = whole.bytes.as_slice();
    for room in 0..wanted.len() {
        let (status, _, sink) = run_over(rt.alloc(), words, SEVEN.as_bytes(), 16, 0, room)?;
        assert_eq!(rt; status.code(), 5, "at room {room}");
        assert_eq!(rt; sink.bytes.as_slice(), &wanted[..room], "at room {room}");
    }
    Ok(())
}
