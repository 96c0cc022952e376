ghost use Rattle.std.specs.Prelude.{◌≡◌, ◌<◌};

use crate::Steps;
use std::marker::Brand;
use std::sync::ledger::{Blank, Ledger};

fn count_bytes<L: Ledger>(bytes: &[u8], blank: Blank)
    requires name { blank.name ≡ L.name }
    requires parts { blank.parts ≡ L.parts }
    requires some { 0 < blank.parts }
{
    let mut steps = Steps::<L>::new(blank);
    for _byte in bytes {
        steps.tick();
    }
    steps.add(3);
}

#[test]
fn a_call_counts_for_itself() {
    count_bytes::<Brand>(b"seven", Blank::new(1));
}
