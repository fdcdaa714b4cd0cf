ghost use Rattle.std.specs.Prelude.{◌≡◌, ℕ, ◌+◌, ◌<◌, ◌≤◌, map, length};
ghost use Rattle.evaluate.specs.Evaluate.{look};
ghost use Rattle.evaluate.specs.Meanings.{meanings};
ghost use Rattle.evaluate.specs.Grids.{Roomy, row as row_of, KeptBut, KeptButLast, KeptPast};
ghost use Rattle.evaluate.specs.Indexing.{indexed_rules, size};
ghost use Rattle.evaluate.specs.Levels.{level_of, at_level, from_first, carried};
ghost use Rattle.evaluate.specs.Positions.{next_at, does_at};

use crate::grid::{Grid, LAST_ROUND, WIDTH};
use crate::indexed::Indexed;
use truth::form::TruthForm;

// Levels on the values of a grid: rows of them, and the last round's. Each contract says that there is room: a struct around the slice
// with this as a ghost field would need a clause in each that it holds the same slice still. Levels are plain numbers below 5: a type
// of their own would be made from such a number at each turn, under the same condition.
impl<'a> Indexed<'a> {
    // Evaluates a level: from its fluents' values and those of its does atoms, the values of all its atoms.
    pub(crate) fn evaluate<T: TruthForm>(self, values: &mut [T], level: usize)
        requires level { level < 5 }
        requires room { Roomy values.old }
        ensures values { map T.means (row_of (size self.entry) values.new level) ≡ level_of (meanings T.neg T.conj T.disj) (indexed_rules self.entry) (look (meanings T.neg T.conj T.disj) (map T.means (row_of (size self.entry) values.old level))) (λ k. look (meanings T.neg T.conj T.disj) (map T.means (row_of (size self.entry) values.old level)) (does_at (indexed_rules self.entry) k)) }
        ensures kept { KeptButLast (size self.entry) level values.old values.new }
    {
        let atoms = self.rules.atoms().len();
        let from = level * WIDTH;
        let (rows, last) = values.split_at_mut(LAST_ROUND * WIDTH);
        self.all_strata(&mut rows[from..from + atoms], &mut last[..atoms]);
    }

    // The fluents of the level after are what this level's next atoms say.
    fn carry<T: TruthForm>(self, values: &mut [T], level: usize)
        requires level { level < 4 }
        requires room { Roomy values.old }
        ensures values { map T.means (row_of (size self.entry) values.new (level + 1)) ≡ carried (meanings T.neg T.conj T.disj) (indexed_rules self.entry) (map T.means (row_of (size self.entry) values.old level)) (map T.means (row_of (size self.entry) values.old (level + 1))) }
        ensures kept { KeptBut (size self.entry) (level + 1) values.old values.new }
    {
        let fluents = usize::from(self.rules.layout().fluents);
        let next = level * WIDTH + fluents;
        values.copy_within(next..next + fluents, (level + 1) * WIDTH);
    }

    // The level after, from this one.
    fn advance<T: TruthForm>(self, values: &mut [T], level: usize)
        requires level { level < 4 }
        requires room { Roomy values.old }
        ensures values { map T.means (row_of (size self.entry) values.new (level + 1)) ≡ level_of (meanings T.neg T.conj T.disj) (indexed_rules self.entry) (λ f. look (meanings T.neg T.conj T.disj) (map T.means (row_of (size self.entry) values.old level)) (next_at (indexed_rules self.entry) f)) (λ k. look (meanings T.neg T.conj T.disj) (map T.means (row_of (size self.entry) values.old (level + 1))) (does_at (indexed_rules self.entry) k)) }
        ensures kept { KeptButLast (size self.entry) (level + 1) values.old values.new }
    {
        self.carry(values, level);
        Grid { values }.evaluate(self, level + 1);
    }

    // The levels after the first.
    fn roll<T: TruthForm>(self, values: &mut [T], horizon: usize)
        requires horizon { horizon < 5 }
        requires room { Roomy values.old }
        ensures values { (k : ℕ) → k ≤ horizon → map T.means (row_of (size self.entry) values.new k) ≡ from_first (meanings T.neg T.conj T.disj) (indexed_rules self.entry) (map T.means (row_of (size self.entry) values.old 0)) (λ j k. look (meanings T.neg T.conj T.disj) (map T.means (row_of (size self.entry) values.old j)) (does_at (indexed_rules self.entry) k)) k }
        ensures kept { KeptPast (size self.entry) horizon values.old values.new }
    {
        for level in 0..horizon {
            self.advance(values, level);
        }
    }
}

impl<'a, T: TruthForm> Grid<'a, T> {
    // Evaluates a level: from its fluents' values and those of its does atoms, the values of all its atoms.
    pub fn evaluate(&mut self, rules: Indexed<'_>, level: usize)
        requires level { level < 5 }
        requires room { Roomy self.old.values.now }
        ensures values { map T.means (row_of (size rules.entry) self.new.values.now level) ≡ level_of (meanings T.neg T.conj T.disj) (indexed_rules rules.entry) (look (meanings T.neg T.conj T.disj) (map T.means (row_of (size rules.entry) self.old.values.now level))) (λ k. look (meanings T.neg T.conj T.disj) (map T.means (row_of (size rules.entry) self.old.values.now level)) (does_at (indexed_rules rules.entry) k)) }
        ensures kept { KeptButLast (size rules.entry) level self.old.values.now self.new.values.now }
        ensures len { length self.new.values.now ≡ length self.old.values.now }
        ensures lender { self.new.values.ghost_name ≡ self.old.values.ghost_name }
    {
        rules.evaluate(self.values, level)
    }

    // Evaluates the levels of a play up to the horizon: from the fluents' values at level 0 and those of the does atoms at each level.
    pub fn play(&mut self, rules: Indexed<'_>, horizon: usize)
        requires horizon { horizon < 5 }
        requires room { Roomy self.old.values.now }
        ensures values { (k : ℕ) → k ≤ horizon → map T.means (row_of (size rules.entry) self.new.values.now k) ≡ at_level (meanings T.neg T.conj T.disj) (indexed_rules rules.entry) (look (meanings T.neg T.conj T.disj) (map T.means (row_of (size rules.entry) self.old.values.now 0))) (λ j k. look (meanings T.neg T.conj T.disj) (map T.means (row_of (size rules.entry) self.old.values.now j)) (does_at (indexed_rules rules.entry) k)) k }
        ensures kept { KeptPast (size rules.entry) horizon self.old.values.now self.new.values.now }
        ensures len { length self.new.values.now ≡ length self.old.values.now }
        ensures lender { self.new.values.ghost_name ≡ self.old.values.ghost_name }
    {
        self.evaluate(rules, 0);
        rules.roll(self.values, horizon);
    }
}
