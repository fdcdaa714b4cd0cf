ghost use Rattle.std.specs.Prelude.{◌≡◌};
ghost use Rattle.rules.specs.Faults.{report_of};
ghost use Rattle.rules.specs.declared.faults.Refusal.TheVariants.{Faulty, Memory};

use std::alloc::AllocError;

// Why a rule file is refused, with the place in bytes where a case has one of its own.
#[derive(Clone, Copy, PartialEq, Eq, Debug)]
pub enum Fault {
    // shorter than a header: the length
    TooShort(usize),
    Version,
    // a count of the header outside its limits
    Count(usize),
    // not as long as the header says: the length
    Length(usize),
    MoveCount(usize),
    // fewer atoms than the fluents and moves ask for
    FewAtoms,
    AtomWord(usize),
    RuleWord(usize),
    LiteralWord(usize),
    // the head, and a literal under it that its mark or stratum forbids
    Condition(u16, usize),
}

// A fault as people and scripts are told it.
#[derive(Clone, Copy, PartialEq, Eq, Debug)]
pub struct Report {
    pub number: u8,
    pub layer: u8,
    pub place: usize,
}

impl Fault {
    pub fn report(self) -> Report
        ensures { result ≡ report_of self }
    {
        let (number, place) = match self {
            Fault::TooShort(length) => (1, length),
            Fault::Version => (2, 0),
            Fault::Count(place) => (3, place),
            Fault::Length(length) => (4, length),
            Fault::MoveCount(place) => (5, place),
            Fault::FewAtoms => (5, 6),
            Fault::AtomWord(place) => (6, place),
            Fault::RuleWord(place) => (7, place),
            Fault::LiteralWord(place) => (8, place),
            Fault::Condition(_, place) => (9, place),
        };
        Report {
            number,
            layer: 1,
            place,
        }
    }
}

// Why no value came of opening a file: its fault; or, of a file that passed every check, want of memory.
#[derive(Clone, Copy, PartialEq, Eq, Debug)]
pub enum Refusal {
    Faulty(Fault),
    Memory,
}

// Conversions are written out, since clauses name the error that a `?` makes.
impl From<Fault> for Refusal {
    ghost from_gives = { λ e r. r ≡ Faulty e };

    fn from(e: Fault) -> Refusal {
        Refusal::Faulty(e)
    }
}

impl From<AllocError> for Refusal {
    ghost from_gives = { λ _ r. r ≡ Memory };

    fn from(_e: AllocError) -> Refusal {
        Refusal::Memory
    }
}
