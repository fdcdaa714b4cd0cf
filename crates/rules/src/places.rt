ghost use Rattle.std.specs.Prelude.{◌≡◌, ℕ, ◌+◌, ◌-◌, ◌*◌, ◌<◌, ◌≤◌};
ghost use Rattle.rules.specs.declared.layout.Layout.{Layout};
ghost use Rattle.rules.specs.Tables.{words_of, atoms_at, rules_at, literals_at, atom_word, rule_word, literal_word};
ghost use Rattle.rules.specs.Places.{atom_in_row, rule_in_row, literal_in_row};

use crate::layout::Layout;
use crate::records::{Atom, Literal, Rule};

// A kind of record: how many words one has, how many a file has, and where they stand.
pub trait Placed: Copy {
    ghost WORDS: { ℕ };

    ghost count: { Layout → ℕ };

    ghost start: { Layout → ℕ };

    // Where word i of record n stands, in words.
    ghost place: { Layout → ℕ → ℕ → ℕ };

    const WORDS: usize;

    fn count(layout: Layout) -> u16
        ensures { result ≡ count layout };

    // Where the first record stands, in words.
    fn start(layout: Layout) -> usize
        ensures { result ≡ start layout };

    ghost in_row: { (y : Layout) (n i : ℕ) → 0 < n → n ≤ count y → i < WORDS → (place y n i ≡ start y + WORDS * (n - 1) + i) × (place y n i < words_of y) };
}

impl Placed for Atom {
    ghost WORDS = { 3 };

    ghost count = { λ y. y.atoms };

    ghost start = { atoms_at };

    ghost place = { atom_word };

    ghost in_row = { atom_in_row };

    const WORDS: usize = 3;

    fn count(layout: Layout) -> u16 {
        layout.atoms
    }

    fn start(layout: Layout) -> usize {
        6 + usize::from(layout.roles)
    }
}

impl Placed for Rule {
    ghost WORDS = { 2 };

    ghost count = { λ y. y.rules };

    ghost start = { rules_at };

    ghost place = { rule_word };

    ghost in_row = { rule_in_row };

    const WORDS: usize = 2;

    fn count(layout: Layout) -> u16 {
        layout.rules
    }

    fn start(layout: Layout) -> usize {
        Atom::start(layout) + Atom::WORDS * usize::from(layout.atoms)
    }
}

impl Placed for Literal {
    ghost WORDS = { 3 };

    ghost count = { λ y. y.literals };

    ghost start = { literals_at };

    ghost place = { literal_word };

    ghost in_row = { literal_in_row };

    const WORDS: usize = 3;

    fn count(layout: Layout) -> u16 {
        layout.literals
    }

    fn start(layout: Layout) -> usize {
        Rule::start(layout) + Rule::WORDS * usize::from(layout.rules)
    }
}
