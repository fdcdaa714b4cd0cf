ghost use Rattle.std.specs.Prelude.{◌≡◌, ℕ, ◌+◌, ◌<◌, ◌≤◌, Bool, true, false, map, length, is_ok, if◌then◌else◌, nat_lt, slice_index_or};
ghost use Rattle.truth.specs.declared.three.Three.TheVariants.{No};
ghost use Rattle.rules.specs.Opens.{moves_of};
ghost use Rattle.evaluate.specs.Indexing.{indexed_rules, size};
ghost use Rattle.evaluate.specs.Positions.{fluents, choices, does_at, Joint, ModelOf};
ghost use Rattle.truth.specs.Three.{answer as answer_of};
ghost use Rattle.evaluate.specs.Showing.{numbers, moves_fit as moves_fitting, chosen as chosen_of, shows};
ghost use Rattle.evaluate.specs.Evaluate.{look};
ghost use Rattle.evaluate.specs.Grids.{Roomy, row as row_of};
ghost use Rattle.evaluate.specs.Levels.{level_of};
ghost use Rattle.evaluate.specs.Meanings.{meanings};

use crate::grid::{Grid, WIDTH};
use crate::indexed::Indexed;
use truth::form::TruthForm;
use truth::three::Three;

// What keeps a position and a joint move from being shown: there is not an entry for each fluent and a move for each role, or too
// little room for the values.
#[derive(Clone, Copy, PartialEq, Eq, Debug)]
pub struct Misfit;

// Whether there is one move for each role, numbered from 1, and each is one of its moves.
#[tactic(auto, using(crate::proofs::Shown::fit_lengths))]
fn moves_fit(moves: &[u16], joint: &[u16]) -> bool
    ensures { result ≡ moves_fitting moves.now joint.now }
{
    if moves.len() != joint.len() {
        return false;
    }
    for (count, number) in moves.iter().zip(joint) {
        if *number == 0 || *number > *count {
            return false;
        }
    }
    true
}

// Whether the joint move makes move `k`, counted from 0 by role and then by move.
fn chosen(moves: &[u16], joint: &[u16], k: usize) -> bool
    requires { length moves.now ≡ length joint.now }
    ensures { result ≡ chosen_of moves.now joint.now k }
{
    let mut left = k;
    for (count, number) in moves.iter().zip(joint) {
        let count = usize::from(*count);
        if left < count {
            return left + 1 == usize::from(*number);
        }
        left -= count;
    }
    false
}

// The position's fluents, at level 0.
fn put_position(position: &[bool], values: &mut [Three])
    requires { length position.now ≤ length values.old }
    ensures { (a : ℕ) (d : Three) → slice_index_or values.new a d ≡ (if nat_lt a (length position.now) then answer_of (slice_index_or position.now a false) else slice_index_or values.old a d) }
{
    // After a `zip` of the two nothing is known of the values.
    for (f, value) in values[..position.len()].iter_mut().enumerate() {
        *value = Three::from(position[f]);
    }
}

// The does atoms, at level 0.
fn put_moves(rules: Indexed<'_>, joint: &[u16], values: &mut [Three])
    requires each { length (moves_of (indexed_rules rules)) ≡ length joint.now }
    requires room { size rules ≤ length values.old }
    ensures does { (k : ℕ) (d : Three) → k < choices (indexed_rules rules.entry) → slice_index_or values.new (does_at (indexed_rules rules.entry) k) d ≡ answer_of (chosen_of (moves_of (indexed_rules rules.entry)) joint.now k) }
    ensures below { (a : ℕ) (d : Three) → a < fluents (indexed_rules rules.entry) → slice_index_or values.new a d ≡ slice_index_or values.old a d }
{
    let layout = rules.rules.layout();
    let from = 2 * usize::from(layout.fluents);
    let to = from + usize::from(layout.moves);
    for (k, value) in values[from..to].iter_mut().enumerate() {
        *value = Three::from(chosen(rules.rules.moves(), joint, k));
    }
}

// Which atoms are true in a position when a joint move is made, its moves numbered from 1 by role: the value of atom a, counted
// from 0, is left at a. If they do not fit, nothing is written.
pub fn model(
    rules: Indexed<'_>,
    position: &[bool],
    joint: &[u16],
    values: &mut [Three],
) -> Result<(), Misfit>
    ensures shown { is_ok result ≡ shows (indexed_rules rules.entry) position.now joint.now values.old }
    ensures refused { is_ok result ≡ false → values.new ≡ values.old }
    ensures standard { is_ok result ≡ true → (A : Joint (moves_of (indexed_rules rules.entry))) → numbers A ≡ joint.now → (M : ℕ → Bool) → ModelOf (indexed_rules rules.entry) position.now A M → (a : ℕ) → a < size rules.entry → slice_index_or values.new a No ≡ answer_of (M a) }
{
    let fluents = usize::from(rules.rules.layout().fluents);
    if position.len() != fluents
        || values.len() < 6 * WIDTH
        || !moves_fit(rules.rules.moves(), joint)
    {
        return Err(Misfit);
    }
    put_position(position, values);
    put_moves(rules, joint, values);
    Grid { values }.evaluate(rules, 0);
    Ok(())
}
