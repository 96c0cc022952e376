// The lines of faults of logs, as they are printed.
ghost use Rattle.std.specs.Prelude.{◌≡◌, true};
ghost use Rattle.df_list.specs.LogFaultTexts.{fault_shown, are_names_short};

use crate::{LogFaultText, LogField, log_fault_text_is_short, put_log_fault};
use df_io::LineBuf;
use std::process::Abort;

fn prints(rt: &impl Abort, line: u64, fault: LogFaultText, text: &[u8])
    requires { are_names_short (fault_shown fault) ≡ true }
{
    let mut buf = LineBuf::new();
    log_fault_text_is_short(line, fault);
    put_log_fault(&mut buf, line, fault);
    assert_eq!(rt; buf.as_slice(), text);
}

#[test]
fn lines_of_faults_are_printed(rt: HostRuntime) {
    let bare = LogFaultText {
        name: "OpenAtEnd",
        first: None,
        second: None,
    };
    prints(&rt, 0, bare, b"refused line 0 OpenAtEnd");
    let one = LogFaultText {
        name: "NotOver",
        first: Some(LogField {
            name: "need",
            value: 7,
        }),
        second: None,
    };
    prints(&rt, 16, one, b"refused line 16 NotOver need 7");
    let two = LogFaultText {
        name: "NotCut",
        first: Some(LogField {
            name: "least",
            value: i64::MIN,
        }),
        second: Some(LogField {
            name: "greatest",
            value: i64::MAX,
        }),
    };
    let text =
        b"refused line 18446744073709551615 NotCut least -9223372036854775808 greatest 9223372036854775807";
    prints(&rt, u64::MAX, two, text);
}
