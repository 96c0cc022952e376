// What is printed of a fault.
ghost use Rattle.std.specs.Prelude.{◌≡◌, true, [], ◌∷◌};
ghost use Rattle.df_list.specs.LogFaultTexts.{fault_shown, numbers_of, are_names_short};
ghost use Rattle.df_check.specs.FaultTexts.{bare, with_one, with_two, shown};

use crate::LogFault;
use df_list::{LogFaultText, LogField};

// A number with its name.
fn field(name: &'static str, value: i64) -> Option<LogField>
    ensures { numbers_of result ≡ record { name = name.now; value = value } ∷ [] }
{
    Some(LogField { name, value })
}

// A fault without numbers.
fn only(name: &'static str) -> LogFaultText
    ensures { fault_shown result ≡ bare name.now }
{
    LogFaultText {
        name,
        first: None,
        second: None,
    }
}

impl LogFault {
    /// What is printed of the fault: its name, and its numbers with their names in their order. No name is long.
    pub fn text(&self) -> LogFaultText
        ensures text { fault_shown result ≡ shown self.now }
        ensures short { are_names_short (fault_shown result) ≡ true }
    {
        match *self {
            LogFault::ColumnRange => only("ColumnRange"),
            LogFault::RowRange => only("RowRange"),
            LogFault::ColumnDecided => only("ColumnDecided"),
            LogFault::NotOver { need } => LogFaultText {
                name: "NotOver",
                first: field("need", need),
                second: None,
            },
            LogFault::NotUnder { need, cap } => LogFaultText {
                name: "NotUnder",
                first: field("need", need),
                second: field("cap", cap),
            },
            LogFault::NotResidue { need, column } => LogFaultText {
                name: "NotResidue",
                first: field("need", need),
                second: field("column", column),
            },
            LogFault::NotCut { least, greatest } => LogFaultText {
                name: "NotCut",
                first: field("least", least),
                second: field("greatest", greatest),
            },
            LogFault::NotSettled { row, need } => LogFaultText {
                name: "NotSettled",
                first: field("row", i64::from(row)),
                second: field("need", need),
            },
            LogFault::DesignDiffers { place } => LogFaultText {
                name: "DesignDiffers",
                first: field("place", place),
                second: None,
            },
            LogFault::DesignWanted => only("DesignWanted"),
            LogFault::AfterClose => only("AfterClose"),
            LogFault::OpenAtEnd => only("OpenAtEnd"),
            LogFault::ChainBroken => only("ChainBroken"),
            LogFault::SourceDiffers => only("SourceDiffers"),
            LogFault::NotEntry => only("NotEntry"),
        }
    }
}
