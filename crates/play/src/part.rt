ghost use Rattle.std.specs.Prelude.{◌≡◌};
ghost use Rattle.play.specs.Parts.{horizon_of, may_assume};

// The two parts of the induction that makes a property true everywhere.
#[derive(Clone, Copy, PartialEq, Eq, Debug)]
pub enum Part {
    // the property is true at the initial position
    Base,
    // where it is satisfied, it is satisfied one move on
    Step,
}

impl Part {
    // How many moves a play of this part has, for a property of this degree.
    pub fn horizon(self, degree: u8) -> u16
        ensures { result ≡ horizon_of self degree }
    {
        match self {
            Part::Base => u16::from(degree),
            Part::Step => u16::from(degree) + 1,
        }
    }
}

// Whether the step of a property of this degree assumes one of the other degree.
pub fn assumes(degree: u8, other: u8) -> bool
    ensures { result ≡ may_assume degree other }
{
    u16::from(other) <= u16::from(degree) + 1
}
