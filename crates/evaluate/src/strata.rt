ghost use Rattle.std.specs.Prelude.{◌≡◌, length};

// The atoms of a rule file by stratum, counted from 0.
#[derive(Drop)]
pub struct Strata {
    pub(crate) members: Vec<Vec<u16>>,
    ghost counted: { length members.items ≡ 32 },
}
