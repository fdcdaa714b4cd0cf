ghost use Rattle.std.specs.Prelude.{◌≡◌};
ghost use Rattle.splits.specs.Faults.{too_small_report};

use rules::faults::Report;

// What came of a draft: a plain file of so many records, or a settled case that is not closed. No `Option`: a play that is shown is as
// much an answer as a file.
#[derive(Clone, Copy, PartialEq, Eq, Debug)]
pub enum Drafted {
    File(usize),
    Play,
}

// A record is needed beyond the area, or beyond 65,535.
#[derive(Clone, Copy, PartialEq, Eq, Debug)]
pub struct TooSmall {}

impl TooSmall {
    pub fn report(self) -> Report
        ensures { result ≡ too_small_report }
    {
        Report {
            number: 22,
            layer: 7,
            place: 0,
        }
    }
}
