// The lines of the faults of logs.
ghost use Rattle.std.specs.Prelude.{◌≡◌, ◌≤◌, ◌+◌, ◌++◌, true, length, FitsSigned};
ghost use Rattle.std.specs.Int.{w64};
ghost use Rattle.std.specs.List.{flat_map, AllByRecursion};
ghost use Rattle.arrayvec.specs.ArrayVec.{array_vec_len};
ghost use Rattle.df_list.specs.LogFaultTexts.{numbers_of, fault_shown, number_text, log_fault_text, are_names_short};

use df_io::{LineBuf, put_number, put_signed, put_text};

/// The most bytes of a name in the line of a log's fault, where the line is to be short.
pub const MOST_NAME_BYTES: usize = 16;

/// The most bytes of the line of a log's fault whose names are short.
pub const LOG_FAULT_BYTES: usize = 126;

/// A number that belongs to a fault, with its name.
#[derive(Clone, Copy, Debug, PartialEq, Eq)]
pub struct LogField {
    /// Its name.
    pub name: &'static str,
    /// The number.
    pub value: i64,
}

/// What is printed of a fault of a log: its name, and at most two numbers.
#[derive(Clone, Copy, Debug, PartialEq, Eq)]
pub struct LogFaultText {
    /// The name of the fault.
    pub name: &'static str,
    /// The first number, where there is one.
    pub first: Option<LogField>,
    /// The second number, where there is one.
    pub second: Option<LogField>,
}

/// Appends the line of a log's fault, without a line feed: `refused line`, the number of the line, the name of the
/// fault, and then each number after its name, a negative one with a `-`. The buffer has room for the text;
/// `log_fault_text_is_short` says how much is enough.
pub fn put_log_fault(buf: &mut LineBuf, line: u64, fault: LogFaultText)
    requires { array_vec_len buf.old + length (log_fault_text line (fault_shown fault)) ≤ 1024 }
    ensures text { buf.new.items ≡ buf.old.items ++ log_fault_text line (fault_shown fault) }
    ensures len { array_vec_len buf.new ≡ array_vec_len buf.old + length (log_fault_text line (fault_shown fault)) }
{
    put_text(buf, b"refused line ");
    put_number(buf, line);
    put_text(buf, b" ");
    put_text(buf, fault.name.as_bytes());
    put_field(buf, fault.first);
    put_field(buf, fault.second);
}

// Appends a number after its name, where there is one.
fn put_field(buf: &mut LineBuf, field: Option<LogField>)
    requires { array_vec_len buf.old + length (flat_map number_text (numbers_of field)) ≤ 1024 }
    ensures text { buf.new.items ≡ buf.old.items ++ flat_map number_text (numbers_of field) }
    ensures len { array_vec_len buf.new ≡ array_vec_len buf.old + length (flat_map number_text (numbers_of field)) }
{
    if let Some(field) = field {
        put_text(buf, b" ");
        put_text(buf, field.name.as_bytes());
        put_text(buf, b" ");
        put_signed(buf, field.value);
    }
}

/// The line of a log's fault has at most `LOG_FAULT_BYTES` bytes, where no name in it has more than `MOST_NAME_BYTES`.
/// The call changes nothing.
pub fn log_fault_text_is_short(line: u64, fault: LogFaultText)
    requires { are_names_short (fault_shown fault) ≡ true }
    ensures { length (log_fault_text line (fault_shown fault)) ≤ LOG_FAULT_BYTES }
{
    number_fits(fault.first);
    number_fits(fault.second);
}

// A number of a fault has 64 bits.
fn number_fits(field: Option<LogField>)
    ensures { AllByRecursion (λ n. FitsSigned w64 n.value) (numbers_of field) }
{
    if let Some(field) = field {
        let _value = field.value;
    }
}
