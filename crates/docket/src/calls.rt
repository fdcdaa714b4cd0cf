ghost use Rattle.std.specs.Prelude.{◌≡◌, length, IfOk};
ghost use Rattle.truth.specs.Wide.{means};
ghost use Rattle.docket.specs.Cleared.{Zeroed, AllNo, Blank};
ghost use Rattle.docket.specs.Trials.{trial_fault, fault_in, Tried};

use crate::clearing::{clear_cases, clear_values};
use crate::dockets::Docket;
use crate::faults::TrialFault;
use crate::settings::Settings;
use crate::trials::{Trial, try_plays};
use play::part::Part;
use splits::cases::Case;
use truth::wide::Wide;

// Tries up to 64 plays against a part of a property on this docket. Whatever the answer, the lent memories are cleared.
// Each memory is a parameter of its own: a struct around slices that are lent for writing would need a clause in each contract that it
// holds the same slices still.
pub fn trial(
    docket: &Docket,
    part: Part,
    property: &[u8],
    plays: &[u8],
    settings: &mut [u8],
    values: &mut [Wide],
    cases: &mut [Case],
) -> Result<Trial, TrialFault>
    ensures fault { fault_in result ≡ trial_fault docket.now part property.now plays.now (length settings.old) (length values.old) (length cases.old) }
    ensures tried { IfOk result (λ t. Tried docket.now part property.now plays.now t) }
    ensures settings { Zeroed settings.new }
    ensures values { AllNo means values.new }
    ensures cases { Blank cases.new }
{
    let guard = Settings::new(settings);
    let answer = try_plays(
        docket,
        part,
        property,
        plays,
        guard.bytes.len(),
        values,
        cases.len(),
    );
    clear_values(values);
    clear_cases(cases);
    answer
}
