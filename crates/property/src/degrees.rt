ghost use Rattle.std.specs.Prelude.{◌≡◌, ◌<◌, ◌≤◌, length};
ghost use Rattle.property.specs.Degrees.{degrees_by, degree_of};
ghost use Rattle.property.specs.Linked.{Linked};

use crate::records::{Formula, Record};

// The degrees of a record: its own, which is the most followings on a path from it, and the greatest along the chain from it. By
// default those of no record, which are 0.
#[derive(Clone, Copy, Default)]
pub struct Degrees {
    pub own: u8,
    pub chain: u8,
}

impl Record {
    // By the degrees where its value leads and those at its next.
    fn degrees(self, operand: Degrees, next: Degrees) -> Degrees
        requires { operand.own < 255 }
        ensures { result ≡ degrees_by self operand next }
    {
        let own = match self.formula {
            Formula::Atom(_) => 0,
            Formula::Not(_) => operand.own,
            Formula::All(_) => operand.chain,
            Formula::Following(_) => operand.own + 1,
        };
        Degrees {
            own,
            chain: own.max(next.chain),
        }
    }
}

// The most followings on a path from record 1. Each record is looked at once, from the last one down.
pub fn whole_degree(records: &[Record]) -> u8
    requires linked { Linked records.now }
    requires some { 0 < length records.now }
    requires few { length records.now ≤ 64 }
    ensures { result ≡ degree_of records.now }
{
    let mut degrees = [Degrees::default(); 65];
    for (i, record) in records.iter().enumerate().rev() {
        let operand = degrees[usize::from(record.formula.operand())];
        let next = degrees[usize::from(record.next)];
        degrees[i + 1] = record.degrees(operand, next);
    }
    degrees[1].own
}
