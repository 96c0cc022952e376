// The line of each fault, as it is printed.
use crate::LogFault;
use df_io::LineBuf;
use df_list::{log_fault_text_is_short, put_log_fault};
use std::process::Abort;

fn prints(rt: &impl Abort, line: u64, fault: LogFault, text: &[u8]) {
    let mut buf = LineBuf::new();
    let shown = fault.text();
    log_fault_text_is_short(line, shown);
    put_log_fault(&mut buf, line, shown);
    assert_eq!(rt; buf.as_slice(), text);
}

#[test]
fn faults_are_printed_with_their_numbers(rt: HostRuntime) {
    let over = LogFault::NotOver { need: 1 };
    prints(&rt, 16, over, b"refused line 16 NotOver need 1");
    let under = LogFault::NotUnder { need: 1, cap: 1 };
    prints(&rt, 13, under, b"refused line 13 NotUnder need 1 cap 1");
    let rest = LogFault::NotResidue { need: 3, column: 2 };
    prints(&rt, 20, rest, b"refused line 20 NotResidue need 3 column 2");
    let none = LogFault::NotResidue {
        need: i64::MIN,
        column: -1,
    };
    let text = b"refused line 20 NotResidue need -9223372036854775808 column -1";
    prints(&rt, 20, none, text);
    let cut = LogFault::NotCut {
        least: -1,
        greatest: 3,
    };
    prints(&rt, 20, cut, b"refused line 20 NotCut least -1 greatest 3");
    let settled = LogFault::NotSettled { row: 0, need: 1 };
    prints(&rt, 10, settled, b"refused line 10 NotSettled row 0 need 1");
    let differs = LogFault::DesignDiffers { place: 1 };
    prints(&rt, 15, differs, b"refused line 15 DesignDiffers place 1");
    let far = LogFault::NotSettled {
        row: u32::MAX,
        need: -5,
    };
    let text = b"refused line 18446744073709551615 NotSettled row 4294967295 need -5";
    prints(&rt, u64::MAX, far, text);
}

#[test]
fn faults_without_numbers_are_printed_by_their_names(rt: HostRuntime) {
    prints(
        &rt,
        10,
        LogFault::ColumnRange,
        b"refused line 10 ColumnRange",
    );
    prints(&rt, 16, LogFault::RowRange, b"refused line 16 RowRange");
    prints(
        &rt,
        13,
        LogFault::ColumnDecided,
        b"refused line 13 ColumnDecided",
    );
    prints(
        &rt,
        12,
        LogFault::DesignWanted,
        b"refused line 12 DesignWanted",
    );
    prints(&rt, 17, LogFault::AfterClose, b"refused line 17 AfterClose");
    prints(&rt, 16, LogFault::OpenAtEnd, b"refused line 16 OpenAtEnd");
    prints(&rt, 9, LogFault::ChainBroken, b"refused line 9 ChainBroken");
    prints(
        &rt,
        3,
        LogFault::SourceDiffers,
        b"refused line 3 SourceDiffers",
    );
    prints(&rt, 13, LogFault::NotEntry, b"refused line 13 NotEntry");
}
