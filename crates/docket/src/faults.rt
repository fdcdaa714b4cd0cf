ghost use Rattle.std.specs.Prelude.{◌≡◌};
ghost use Rattle.docket.specs.Faults.{report_of};
ghost use Rattle.docket.specs.declared.faults.TrialFault.TheVariants.{Memory, Property, Plays};

use crate::memories::Shortage;
use rules::faults::Report;

// Why a trial is refused.
#[derive(Clone, Copy, PartialEq, Eq, Debug)]
pub enum TrialFault {
    Memory(Shortage),
    Property(property::faults::Fault),
    Plays(play::faults::Fault),
}

impl TrialFault {
    pub fn report(self) -> Report
        ensures { result ≡ report_of self }
    {
        match self {
            TrialFault::Memory(shortage) => shortage.report(),
            TrialFault::Property(fault) => fault.report(),
            TrialFault::Plays(fault) => fault.report(),
        }
    }
}

// Conversions are written out, since clauses name the error that a `?` makes.
impl From<Shortage> for TrialFault {
    ghost from_gives = { λ e r. r ≡ Memory e };

    fn from(e: Shortage) -> TrialFault {
        TrialFault::Memory(e)
    }
}

impl From<property::faults::Fault> for TrialFault {
    ghost from_gives = { λ e r. r ≡ Property e };

    fn from(e: property::faults::Fault) -> TrialFault {
        TrialFault::Property(e)
    }
}

impl From<play::faults::Fault> for TrialFault {
    ghost from_gives = { λ e r. r ≡ Plays e };

    fn from(e: play::faults::Fault) -> TrialFault {
        TrialFault::Plays(e)
    }
}
