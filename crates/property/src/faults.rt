ghost use Rattle.std.specs.Prelude.{◌≡◌};
ghost use Rattle.property.specs.Faults.{report_of};

use rules::faults::Report;

// Why a property file is refused, with the place in bytes where a case has one of its own.
#[derive(Clone, Copy, PartialEq, Eq, Debug)]
pub enum Fault {
    // no whole number of records, or too few or too many: the length
    Length(usize),
    // a word of a record that breaks its rule
    Word(usize),
    // more than three followings on a path
    Degree,
}

impl Fault {
    pub fn report(self) -> Report
        ensures { result ≡ report_of self }
    {
        let (number, place) = match self {
            Fault::Length(length) => (11, length),
            Fault::Word(place) => (12, place),
            Fault::Degree => (13, 0),
        };
        Report {
            number,
            layer: 3,
            place,
        }
    }
}
