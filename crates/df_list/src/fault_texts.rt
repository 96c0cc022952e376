// The texts of the faults of sources.
ghost use Rattle.std.specs.Prelude.{◌≡◌, ◌≤◌, ◌+◌, ◌++◌, length};
ghost use Rattle.arrayvec.specs.ArrayVec.{array_vec_len};
ghost use Rattle.df_list.specs.FaultTexts.{fault_text, needed_text};

use df_io::{LineBuf, put_text};
use df_lang::{Needed, SourceFault};

/// Appends the name of a source's fault, with the keyword of the statement that is missing where one is. The buffer has
/// room for it: the longest text has 14 bytes.
pub fn put_source_fault(buf: &mut LineBuf, fault: &SourceFault)
    requires { array_vec_len buf.old + length (fault_text fault.now) ≤ 1024 }
    ensures text { buf.new.items ≡ buf.old.items ++ fault_text fault.now }
    ensures len { array_vec_len buf.new ≡ array_vec_len buf.old + length (fault_text fault.now) }
    ensures short { length (fault_text fault.now) ≤ 14 }
{
    match *fault {
        SourceFault::BadWord => put_text(buf, b"BadWord"),
        SourceFault::BadNumber => put_text(buf, b"BadNumber"),
        SourceFault::BadElement => put_text(buf, b"BadElement"),
        SourceFault::Repeated => put_text(buf, b"Repeated"),
        SourceFault::UnknownName => put_text(buf, b"UnknownName"),
        SourceFault::NameTaken => put_text(buf, b"NameTaken"),
        SourceFault::NotUnit => put_text(buf, b"NotUnit"),
        SourceFault::PointTwice => put_text(buf, b"PointTwice"),
        SourceFault::BlockSize => put_text(buf, b"BlockSize"),
        SourceFault::Missing(needed) => put_missing(buf, needed),
        SourceFault::GroupRange => put_text(buf, b"GroupRange"),
        SourceFault::FixedRange => put_text(buf, b"FixedRange"),
        SourceFault::SizeRange => put_text(buf, b"SizeRange"),
        SourceFault::TargetRange => put_text(buf, b"TargetRange"),
        SourceFault::TooManyBlocks => put_text(buf, b"TooManyBlocks"),
    }
}

// Appends the text of a statement that is missing.
fn put_missing(buf: &mut LineBuf, needed: Needed)
    requires { array_vec_len buf.old + length (fault_text (SourceFault.Missing needed)) ≤ 1024 }
    ensures text { buf.new.items ≡ buf.old.items ++ fault_text (SourceFault.Missing needed) }
    ensures len { array_vec_len buf.new ≡ array_vec_len buf.old + length (fault_text (SourceFault.Missing needed)) }
    ensures short { length (fault_text (SourceFault.Missing needed)) ≤ 14 }
{
    put_text(buf, b"Missing ");
    match needed {
        Needed::Group => put_text(buf, b"group"),
        Needed::Size => put_text(buf, b"k"),
        Needed::Lambda => put_text(buf, b"lambda"),
    }
}
