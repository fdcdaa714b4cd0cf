ghost use Rattle.std.specs.Prelude.{◌≡◌};
ghost use Rattle.property.specs.Typed.{operand_of, unused};

use rules::walk::Linking;

// The records of a property. They are numbered from 1; a link is such a number and leads to a later record, and 0 is no record.
// It is no `Option`: degrees are looked up by link, and those of no record stand at 0.

#[derive(Clone, Copy, PartialEq, Eq, Debug)]
pub enum Formula {
    // a still atom of the rule file, by its number
    Atom(u16),
    // the operand is false
    Not(u16),
    // every operand of the chain from this record on is true
    All(u16),
    // the operand is true on the rest of the sequence, if the sequence goes on
    Following(u16),
}

#[derive(Clone, Copy, PartialEq, Eq, Debug)]
pub struct Record {
    pub formula: Formula,
    // the operand after this one, where this one is on the chain of an `All`
    pub next: u16,
}

// What stands in the places behind the last record: no atom, and no link.
impl Default for Record {
    ghost is_default = { λ r. r ≡ unused };

    fn default() -> Self {
        Record {
            formula: Formula::Atom(0),
            next: 0,
        }
    }
}

impl Linking for Record {
    ghost next = { λ r. r.next };

    ghost none = { unused };

    fn next(&self) -> u16 {
        self.next
    }
}

impl Formula {
    // The record that the value leads to: the operand, or the first of a chain; 0 where there is none.
    pub fn operand(self) -> u16
        ensures { result ≡ operand_of self }
    {
        match self {
            Formula::Atom(_) => 0,
            Formula::Not(record) | Formula::All(record) | Formula::Following(record) => record,
        }
    }
}
