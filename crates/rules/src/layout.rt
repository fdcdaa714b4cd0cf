// How many records of each kind a rule file has, and how many moves its roles have together.
#[derive(Clone, Copy)]
pub struct Layout {
    pub fluents: u16,
    pub roles: u16,
    pub atoms: u16,
    pub rules: u16,
    pub literals: u16,
    pub moves: u16,
}
