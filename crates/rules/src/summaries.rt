// What a head must have so that all literals of a chain fit it: the least stratum, and whether moves must matter to it.
// By default there is no literal, and any head will do.
#[derive(Clone, Copy, Default)]
pub struct Summary {
    pub stratum: u32,
    pub dependent: bool,
}
