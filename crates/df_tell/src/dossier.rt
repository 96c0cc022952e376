// What is printed of an input that is not one dossier that ended spent.
ghost use Rattle.std.specs.Prelude.{◌≡◌, ◌≤◌, ◌+◌, ◌++◌};
ghost use Rattle.arrayvec.specs.ArrayVec.{array_vec_len};
ghost use Rattle.df_io.specs.Writing.{Writes};
ghost use Rattle.df_tell.specs.Dossier.{dossier_fault_text, dossier_text};

use df_dossier::DossierFault;
use df_io::{LineBuf, Sink, WriteFault, put_number, put_text, write_all};
use df_list::put_source_fault;

/// Writes the line of an input that is not one dossier that ended spent: its first line that is wrong, 0 for its end, and why.
pub fn write_dossier_refusal<K: Sink>(
    line: u64,
    fault: &DossierFault,
    out: &mut K,
) -> Result<(), WriteFault>
    ensures { Writes K.written K.faults out.old out.new (dossier_text record { line = line; fault = fault.now }) result }
{
    let mut text = LineBuf::new();
    fill_refusal(&mut text, line, fault);
    write_all(out, text.as_slice())
}

// Fills the buffer with that line.
#[tactic(auto, unfolding(crate::specs::Dossier::dossier_text), using(df_io::proofs::NumbersBack::decimal_short))]
fn fill_refusal(text: &mut LineBuf, line: u64, fault: &DossierFault)
    ensures { text.new.items ≡ dossier_text record { line = line; fault = fault.now } }
{
    text.clear();
    put_text(text, b"dossier refused line ");
    put_number(text, line);
    put_text(text, b" ");
    put_dossier_fault(text, fault);
    text.push(b'\n');
}

// Appends the name of a fault, with that of the source's fault where there is one. The buffer has room for it: 24 bytes or fewer.
fn put_dossier_fault(text: &mut LineBuf, fault: &DossierFault)
    requires { array_vec_len text.old ≤ 900 }
    ensures text { text.new.items ≡ text.old.items ++ dossier_fault_text fault.now }
    ensures len { array_vec_len text.new ≤ array_vec_len text.old + 24 }
{
    match fault {
        DossierFault::BadHead => put_text(text, b"BadHead"),
        DossierFault::BadSource(fault) => {
            put_text(text, b"BadSource ");
            put_source_fault(text, fault);
        }
        DossierFault::BadEntry => put_text(text, b"BadEntry"),
        DossierFault::BadDesign => put_text(text, b"BadDesign"),
        DossierFault::BadEnd => put_text(text, b"BadEnd"),
        DossierFault::NotSpent => put_text(text, b"NotSpent"),
        DossierFault::Trailing => put_text(text, b"Trailing"),
    }
}
