ghost use Rattle.std.specs.Prelude.{◌≡◌};
ghost use Rattle.play.specs.Faults.{report_of};

use rules::faults::Report;

// Why plays are refused.
#[derive(Clone, Copy, PartialEq, Eq, Debug)]
pub enum Fault {
    // not 1 to 64 plays of 96 bytes each: the length
    Length(usize),
    // a byte that breaks its rule: its offset
    Byte(usize),
}

impl Fault {
    pub fn report(self) -> Report
        ensures { result ≡ report_of self }
    {
        let (number, place) = match self {
            Fault::Length(length) => (23, length),
            Fault::Byte(place) => (24, place),
        };
        Report {
            number,
            layer: 8,
            place,
        }
    }
}
