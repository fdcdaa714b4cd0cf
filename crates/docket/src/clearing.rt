ghost use Rattle.std.specs.Prelude.{◌≡◌, length};
ghost use Rattle.docket.specs.Cleared.{AllNo, Blank};

use splits::cases::Case;
use truth::form::TruthForm;

// Puts every value back to no. The library's `fill` asks for a clone that cannot fail, which a truth form does not promise.
pub fn clear_values<T: TruthForm>(values: &mut [T])
    ensures no { AllNo T.means values.new }
    ensures len { length values.new ≡ length values.old }
{
    for value in values.iter_mut() {
        *value = T::no();
    }
}

// Puts every case record back to zero.
pub fn clear_cases(cases: &mut [Case])
    ensures zero { Blank cases.new }
    ensures len { length cases.new ≡ length cases.old }
{
    cases.fill(Case::default());
}
