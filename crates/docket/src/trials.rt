ghost use Rattle.std.specs.Prelude.{◌≡◌, length, IfOk};
ghost use Rattle.docket.specs.Trials.{trial_fault, fault_in, Tried};

use crate::dockets::Docket;
use crate::faults::TrialFault;
use crate::marking::{first_marked, mark};
use crate::memories::Lengths;
use play::part::Part;
use play::plays::Plays;
use property::reading::read;
use truth::wide::Wide;

// Which plays break a part: bit k for play k, and the first one.
#[derive(Clone, Copy)]
pub struct Trial {
    pub marks: u64,
    pub first: Option<usize>,
}

// The trial, with memories of so many settings and case records.
pub fn try_plays(
    docket: &Docket,
    part: Part,
    property: &[u8],
    plays: &[u8],
    settings: usize,
    values: &mut [Wide],
    cases: usize,
) -> Result<Trial, TrialFault>
    ensures fault { fault_in result ≡ trial_fault docket.now part property.now plays.now settings (length values.old) cases }
    ensures tried { IfOk result (λ t. Tried docket.now part property.now plays.now t) }
{
    Lengths {
        settings,
        values: values.len(),
        cases,
    }
    .check()?;
    let property = read(&docket.rules, property)?;
    let levels = part.horizon(property.degree());
    let plays = Plays::read(&docket.rules, part, levels, plays)?;
    let marks = mark(docket, part, &property, plays, values);
    let first = first_marked(marks);
    Ok(Trial { marks, first })
}
