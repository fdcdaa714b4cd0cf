ghost use Rattle.std.specs.Prelude.{◌≡◌, ◌+◌, ◌*◌, ◌<◌, ◌≤◌, [], ◌∷◌, length, IfOk};
ghost use Rattle.rules.specs.First.{verdict, unless, within as inside, first, count_fits, too_short, wrong_version, wrong_count, wrong_length, wrong_moves, few_atoms};
ghost use Rattle.rules.specs.Linked.{Limited};
ghost use Rattle.rules.specs.Tables.{layout_of, words_of, moves_in, roles_in};
ghost use Rattle.rules.specs.Words.{word as word_at};
ghost use Rattle.rules.specs.declared.faults.Fault.TheVariants.{Count, MoveCount};

use crate::faults::Fault;
use crate::layout::Layout;
use crate::words::word;

// Word i of the header is a count, with limits.
fn check_count(bytes: &[u8], i: usize, least: u16, most: u16) -> Result<(), Fault>
    requires header { 12 ≤ length bytes.now }
    requires index { i < 6 }
    ensures { result ≡ verdict (unless (inside least most (word_at bytes.now i)) (Count (2 * i))) tt }
{
    let count = word(bytes, i);
    if count >= least && count <= most {
        Ok(())
    } else {
        Err(Fault::Count(2 * i))
    }
}

// Fluents, roles, atoms, rules, literals.
fn check_counts(bytes: &[u8]) -> Result<(), Fault>
    requires { 12 ≤ length bytes.now }
    ensures { result ≡ verdict (wrong_count bytes.now) tt }
{
    check_count(bytes, 1, 1, 64)?;
    check_count(bytes, 2, 1, 8)?;
    check_count(bytes, 3, 1, 512)?;
    check_count(bytes, 4, 0, 2048)?;
    check_count(bytes, 5, 0, 8000)
}

// How many moves a role has, counted from 0. One function with `check_count` would be told the limits, the fault and what to answer.
fn move_count(bytes: &[u8], role: u16) -> Result<u16, Fault>
    requires { 2 * (6 + role) + 1 < length bytes.now }
    ensures value { result ≡ verdict (unless (inside 1 32 (word_at bytes.now (6 + role))) (MoveCount (2 * (6 + role)))) (word_at bytes.now (6 + role)) }
    ensures bound { IfOk result (λ n. n ≤ 32) }
{
    let at = 6 + usize::from(role);
    let count = word(bytes, at);
    if count >= 1 && count <= 32 {
        Ok(count)
    } else {
        Err(Fault::MoveCount(2 * at))
    }
}

// How many moves the roles have together.
#[tactic(auto, using(crate::proofs::Firsts::range_next, crate::proofs::Headers::total_more))]
fn total_moves(bytes: &[u8], roles: u16) -> Result<u16, Fault>
    requires known { roles ≡ roles_in bytes.now }
    requires few { roles ≤ 8 }
    requires long { 2 * (6 + roles) ≤ length bytes.now }
    ensures value { result ≡ verdict (wrong_moves bytes.now) (moves_in bytes.now) }
    ensures bound { IfOk result (λ n. n ≤ 256) }
{
    let mut total = 0;
    for role in 0..roles {
        total += move_count(bytes, role)?;
    }
    Ok(total)
}

// The header and the move counts.
pub fn read_layout(bytes: &[u8]) -> Result<Layout, Fault>
    ensures value { result ≡ verdict (first (λ fault. fault) (too_short bytes.now ∷ wrong_version bytes.now ∷ wrong_count bytes.now ∷ wrong_length bytes.now ∷ wrong_moves bytes.now ∷ few_atoms bytes.now ∷ [])) (layout_of bytes.now) }
    ensures sized { IfOk result (λ y. length bytes.now ≡ 2 * words_of y) }
    ensures limited { IfOk result (λ y. Limited y) }
{
    if bytes.len() < 12 {
        return Err(Fault::TooShort(bytes.len()));
    }
    if word(bytes, 0) != 1 {
        return Err(Fault::Version);
    }
    check_counts(bytes)?;
    let mut layout = Layout {
        fluents: word(bytes, 1),
        roles: word(bytes, 2),
        atoms: word(bytes, 3),
        rules: word(bytes, 4),
        literals: word(bytes, 5),
        moves: 0,
    };
    if bytes.len() != 2 * layout.words() {
        return Err(Fault::Length(bytes.len()));
    }
    layout.moves = total_moves(bytes, layout.roles)?;
    if usize::from(layout.atoms) < layout.least_atoms() {
        return Err(Fault::FewAtoms);
    }
    Ok(layout)
}

impl Layout {
    // How many words a file with this header has.
    fn words(self) -> usize
        ensures { result ≡ words_of self }
    {
        6 + usize::from(self.roles)
            + 3 * usize::from(self.atoms)
            + 2 * usize::from(self.rules)
            + 3 * usize::from(self.literals)
    }

    // The atoms that the fluents and moves ask for.
    fn least_atoms(self) -> usize
        ensures { result ≡ 2 * self.fluents + 2 * self.moves + 1 }
    {
        self.terminal() + 1
    }
}
