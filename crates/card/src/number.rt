//! The numbers of fields, the high byte first.
ghost use Rattle.std.specs.Prelude.{◌≡◌, ◌+◌, ◌^◌, ◌<◌, ◌≤◌, length};
ghost use Rattle.card.specs.Faults.{fault};
ghost use Rattle.card.specs.declared.fault.FaultKind.TheVariants.{OutOfRange};
ghost use Rattle.card.specs.Layout.{map_bytes, layout};
ghost use Rattle.card.specs.Reads.{NumberAs};

use crate::fault::{Fault, FaultKind};
use crate::layout::Field;

// The fault of a number that is out of its range. The number begins at a byte of the rest; two
// bytes of map stand before that.
pub(crate) fn out_of_range(at: usize) -> Fault
    requires { map_bytes + at < 2 ^ 64 }
    ensures { result ≡ fault OutOfRange (map_bytes + at) }
{
    FaultKind::OutOfRange.at(2 + at)
}

// The number of a field that begins at a byte of the rest, or its fault.
#[tactic(auto, unfolding(crate::specs::Numbers::number_fault))]
pub(crate) fn number(rest: &[u8], at: usize, field: Field, least_cover: u16) -> Result<u16, Fault>
    requires { at + (layout field).bytes ≤ length rest.now }
    ensures { NumberAs field least_cover rest.now at result }
{
    let number = if field.bytes() == 1 {
        u16::from(rest[at])
    } else {
        u16::from_be_bytes([rest[at], rest[at + 1]])
    };
    if !field.allows(number, least_cover) {
        return Err(out_of_range(at));
    }
    Ok(number)
}
