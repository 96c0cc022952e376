// The command `workload`: lines that another program worked out, and what is read of an input.
use super::*;
use crate::tests::run_over;
use std::test::Fail;

// What stands in the input of a workload, of which nothing is read.
const UNREAD: &[u8] = b"group 7\nk 3\nlambda 1\nbase 0 1 3\n";

const FIRST: &[u8] = b"workload 1 points 11 columns 15 designs 1 nodes 16\n";

#[test]
fn tells_workloads(rt: HostRuntime) -> Result<(), Fail> {
    for (number, wanted) in [
        ("1", FIRST),
        (
            "02",
            b"workload 2 points 17 columns 40 designs 1 nodes 41\n".as_slice(),
        ),
        (
            "7",
            b"workload 7 points 47 columns 345 designs 1 nodes 346\n".as_slice(),
        ),
        (
            "20",
            b"workload 20 points 125 columns 2542 designs 1 nodes 2543\n".as_slice(),
        ),
    ] {
        let words = &["workload", number][..];
        let (status, source, sink) = run_over(rt.alloc(), words, UNREAD, 16, 1, 4096)?;
        assert_eq!(rt; status.code(), 0, "at {number}");
        assert_eq!(rt; sink.bytes.as_slice(), wanted, "at {number}");
        assert_eq!(rt; source.calls, 0, "at {number}");
        assert_eq!(rt; source.faults, 0, "at {number}");
    }
    Ok(())
}

// The same search is that of `solve` with the source of the workload.
#[test]
fn searches_as_solve_does(rt: HostRuntime) -> Result<(), Fail> {
    for (words, input, lines, end) in [
        (
            &["solve"][..],
            "group 11\nk 3\nlambda 9\n",
            11,
            "\nend finished designs 1 nodes 16\n",
        ),
        (
            &["solve", "--log"][..],
            "group 17\nk 3\nlambda 15\n",
            92,
            "\nend finished designs 1 nodes 41\n",
        ),
    ] {
        let (status, _, sink) = run_over(rt.alloc(), words, input.as_bytes(), 16, 0, 65_536)?;
        let text = sink.bytes.as_slice();
        assert_eq!(rt; status.code(), 0, "at {input}");
        assert!(rt; text.ends_with(end.as_bytes()), "at {input}");
        assert_eq!(rt;
            text.iter().filter(|byte| **byte == b'\n').count(),
            lines,
            "at {input}"
        );
    }
    Ok(())
}

#[test]
fn refuses_other_workloads(rt: HostRuntime) -> Result<(), Fail> {
    for (words, wanted) in [
        (&["workload"][..], "usage word 2\n"),
        (&["workload", "0"][..], "usage word 2\n"),
        (&["workload", "21"][..], "usage word 2\n"),
        (&["workload", "1", "--log"][..], "usage word 3\n"),
    ] {
        let (status, source, sink) = run_over(rt.alloc(), words, UNREAD, 16, 0, 4096)?;
        assert_eq!(rt; status.code(), 2);
        assert_eq!(rt; sink.bytes.as_slice(), wanted.as_bytes());
        assert_eq!(rt; source.calls, 0);
    }
    Ok(())
}

// Each room of the sink.
#[test]
fn tells_write_faults_of_a_workload(rt: HostRuntime) -> Result<(), Fail> {
    for room in 0..FIRST.len() {
        let words = &["workload", "1"][..];
        let (status, source, sink) = run_over(rt.alloc(), words, UNREAD, 16, 0, room)?;
        assert_eq!(rt; status.code(), 5, "at room {room}");
        assert_eq!(rt; sink.bytes.as_slice(), &FIRST[..room], "at room {room}");
        assert_eq!(rt; source.calls, 0, "at room {room}");
    }
    Ok(())
}
