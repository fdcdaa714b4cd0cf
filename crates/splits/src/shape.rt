ghost use Rattle.std.specs.Prelude.{ℕ, ◌+◌, ◌*◌, ◌<◌, ◌≤◌, length, slice_index};

use play::part::Part;

// The inputs of a part: starting fluents, and the choice of each role at each level below the horizon.
// The settings have an entry for each fluent and then for each choice, by level and role.
#[derive(Clone, Copy)]
pub struct Shape<'a> {
    pub fluents: usize,
    // how many moves each role has
    pub moves: &'a [u8],
    pub horizon: usize,
    pub part: Part,
    ghost roles: { 0 < length moves.now },
    ghost some: { (r : ℕ) → r < length moves.now → 0 < slice_index moves.now r },
    ghost few: { (r : ℕ) → slice_index moves.now r ≤ 32 },
    ghost fits: { fluents + length moves.now * horizon ≤ 96 },
}
