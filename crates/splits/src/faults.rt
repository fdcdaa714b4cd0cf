ghost use Rattle.std.specs.Prelude.{◌≡◌};
ghost use Rattle.splits.specs.Faults.{place_of, report_of};
ghost use Rattle.splits.specs.declared.faults.WalkFault.TheVariants.{OfRecord};

use crate::records::RecordFault;
use play::part::Part;
use rules::faults::Report;

// Why a split file is refused, with the place in bytes. A record's fault stays whole inside it.
#[derive(Clone, Copy, PartialEq, Eq, Debug)]
pub enum WalkFault {
    // no whole number of records, or none, or too many: the length
    Length(usize),
    // a record is wanted past the end: the length
    PastEnd(usize),
    OfRecord(RecordFault),
    // a closing record's case is not closed
    NotClosed(usize),
    Next(usize),
    // records behind the root's subtree
    LeftOver(usize),
}

// Conversions are written out, since clauses name the error that a `?` makes.
impl From<RecordFault> for WalkFault {
    ghost from_gives = { λ e r. r ≡ OfRecord e };

    fn from(e: RecordFault) -> WalkFault {
        WalkFault::OfRecord(e)
    }
}

impl RecordFault {
    pub fn place(self) -> usize
        ensures { result ≡ place_of self }
    {
        match self {
            RecordFault::Kind(place) => place,
            RecordFault::Number(place) => place,
            RecordFault::Level(place) => place,
        }
    }
}

impl WalkFault {
    pub fn report(self, part: Part) -> Report
        ensures { result ≡ report_of part self }
    {
        let (number, place) = match self {
            WalkFault::Length(length) => (16, length),
            WalkFault::PastEnd(length) => (17, length),
            WalkFault::OfRecord(fault) => (18, fault.place()),
            WalkFault::NotClosed(place) => (19, place),
            WalkFault::Next(place) => (20, place),
            WalkFault::LeftOver(place) => (21, place),
        };
        let layer = match part {
            Part::Base => 5,
            Part::Step => 6,
        };
        Report {
            number,
            layer,
            place,
        }
    }
}
