ghost use Rattle.truth.specs.Bit.{Answered};

// A truth value of 64 worlds: bit k of `yes` is set if world k allows yes, and of `no` if it
// allows no. Every world allows an answer.
#[derive(Clone, Copy)]
pub struct Wide {
    pub(crate) yes: u64,
    pub(crate) no: u64,
    ghost answered: { Answered yes no },
}
