ghost use Rattle.std.specs.Prelude.{◌≡◌, ◌+◌, ◌<◌};

// An open case of a walk: the input that its split settles, the branch that is taken, and the number of the record that splits, from 0.
#[derive(Clone, Copy, PartialEq, Eq, Debug, Default)]
pub struct Case {
    pub input: usize,
    pub branch: u16,
    pub number: usize,
}

impl Case {
    // A split's first branch.
    pub(crate) fn first(number: usize, input: usize) -> Case
        ensures { result ≡ record { input = input; branch = 0; number = number } }
    {
        Case {
            input,
            branch: 0,
            number,
        }
    }

    // The branch behind it.
    pub(crate) fn next(self) -> Case
        requires { self.branch < 255 }
        ensures { result ≡ record { input = self.input; branch = self.branch + 1; number = self.number } }
    {
        Case {
            branch: self.branch + 1,
            ..self
        }
    }
}
