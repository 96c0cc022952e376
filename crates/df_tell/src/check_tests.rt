// The lines of chains, written to a sink in memory.
use crate::{write_complete, write_log_refusal};
use arrayvec::ArrayVec;
use df_check::LogFault;
use df_io::MemSink;
use std::alloc::Global;
use std::process::Abort;
use std::test::Fail;

// A sink that takes this much.
fn sink(alloc: Global, room: usize) -> Result<MemSink, Fail> {
    let sink = MemSink::new(alloc, room, ArrayVec::new())?;
    Ok(sink)
}

fn tells_complete(
    rt: &(impl Abort + AllocGlobal),
    designs: u64,
    wanted: &[u8],
) -> Result<(), Fail> {
    let mut out = sink(rt.alloc(), 100)?;
    let written = write_complete(designs, &mut out);
    assert!(rt; written.is_ok());
    assert_eq!(rt; out.bytes.as_slice(), wanted);
    Ok(())
}

fn tells_refusal(
    rt: &(impl Abort + AllocGlobal),
    line: u64,
    fault: LogFault,
    wanted: &[u8],
) -> Result<(), Fail> {
    let mut out = sink(rt.alloc(), 200)?;
    let written = write_log_refusal(line, fault, &mut out);
    assert!(rt; written.is_ok());
    assert_eq!(rt; out.bytes.as_slice(), wanted);
    Ok(())
}

#[test]
fn a_complete_chain_is_told_with_its_designs(rt: HostRuntime) -> Result<(), Fail> {
    tells_complete(&rt, 0, b"complete 0\n")?;
    tells_complete(&rt, 2, b"complete 2\n")?;
    tells_complete(&rt, u64::MAX, b"complete 18446744073709551615\n")
}

#[test]
fn a_broken_rule_is_told_with_its_numbers(rt: HostRuntime) -> Result<(), Fail> {
    tells_refusal(&rt, 16, LogFault::OpenAtEnd, b"refused line 16 OpenAtEnd\n")?;
    let over = LogFault::NotOver { need: 1 };
    tells_refusal(&rt, 16, over, b"refused line 16 NotOver need 1\n")?;
    let under = LogFault::NotUnder { need: -1, cap: 12 };
    tells_refusal(&rt, 3, under, b"refused line 3 NotUnder need -1 cap 12\n")?;
    let settled = LogFault::NotSettled { row: 7, need: 2 };
    tells_refusal(&rt, 9, settled, b"refused line 9 NotSettled row 7 need 2\n")
}

// A sink that is full before the end of the line has a prefix of it.
#[test]
fn a_full_sink_is_told(rt: HostRuntime) -> Result<(), Fail> {
    let wanted = b"refused line 9 ChainBroken\n";
    for room in 0..wanted.len() {
        let mut out = sink(rt.alloc(), room)?;
        let written = write_log_refusal(9, LogFault::ChainBroken, &mut out);
        assert!(rt; written.is_err());
        assert_eq!(rt; out.bytes.as_slice(), &wanted[..room]);
    }
    Ok(())
}
