ghost use Rattle.std.specs.Prelude.{◌≡◌, ◌<◌, ◌≤◌};
ghost use Rattle.arrayvec.specs.ArrayVec.{array_vec_len};
ghost use Rattle.property.specs.Degrees.{degree_of};
ghost use Rattle.property.specs.Linked.{Linked};

use crate::records::Record;
use arrayvec::ArrayVec;

// A property that was read. Its invariant: it has 1 to 64 records, their links lead later, and its degree is known and at most 3.
// Records are told by number and not boxed, since operands share them and reading allocates nothing.
#[derive(Drop)]
pub struct Property {
    pub(crate) records: ArrayVec<Record, 64>,
    pub(crate) degree: u8,
    ghost some: { 0 < array_vec_len records },
    ghost few: { array_vec_len records ≤ 64 },
    ghost linked: { Linked records.items },
    ghost measured: { degree ≡ degree_of records.items },
    ghost low: { degree ≤ 3 },
}
