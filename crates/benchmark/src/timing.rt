// How long a step takes.
ghost use Rattle.std.specs.Prelude.{◌<◌};

use std::time::Instant;
use std::{fmt, io};

// Microseconds for one of some turns of a step, and how many of the turns passed.
#[derive(Clone, Copy)]
pub struct Timing {
    pub micros: u128,
    passed: u16,
    turns: u16,
}

impl Timing {
    pub fn of<F: FnMut() -> bool>(rt: &HostRuntime, turns: u16, mut step: F) -> io::Result<Timing>
        requires callable { F.IsAlwaysCallable step }
        requires some { 0 < turns }
    {
        let start = Instant::now(rt)?;
        // With a `filter` of the turns the check does not find that the step may be called.
        let mut passed = 0u16;
        for _ in 0..turns {
            if step() {
                passed = passed.saturating_add(1);
            }
        }
        let micros = start.elapsed(rt)?.as_micros() / u128::from(turns);
        Ok(Timing {
            micros,
            passed,
            turns,
        })
    }
}

impl fmt::Display for Timing {
    fn fmt<W: fmt::Write>(&self, f: &mut fmt::Formatter<W>) -> fmt::Result {
        let Timing {
            micros,
            passed,
            turns,
        } = *self;
        write!(f, "{micros} microseconds, {passed} of {turns} taken")
    }
}
