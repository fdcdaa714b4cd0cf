ghost use Rattle.std.specs.Prelude.{◌≡◌, ℕ, ◌+◌, ◌-◌, ◌<◌, ◌≤◌, List, map, length};
ghost use Rattle.truth.specs.Forms.{Answers};
ghost use Rattle.evaluate.specs.Evaluate.{look};
ghost use Rattle.evaluate.specs.Meanings.{meanings};
ghost use Rattle.property.specs.Linked.{Linked};
ghost use Rattle.property.specs.Reads.{Fits, records_of};
ghost use Rattle.property.specs.Trees.{reading_at};
ghost use Rattle.parts.specs.Tables.{place_in_table, KeptBesideLevel, LevelIn, LevelsIn, FilledBehind, FilledFrom};
ghost use Rattle.parts.specs.Values.{value, all_value};

use crate::moves::Run;
use property::properties::Property;
use property::records::{Formula, Record};
use rules::walk::Walk;
use truth::form::TruthForm;

// A table holds the values of a property's records: 64 at each of five levels. Records are told by plain numbers, as links are.
const MOST_RECORDS: usize = 64;

pub const ENTRIES: usize = 320;

// The place of the record with this number at a level.
fn place_of(level: usize, number: u16) -> usize
    requires level { level < 5 }
    requires above { 0 < number }
    requires within { number ≤ 64 }
    ensures place { result ≡ place_in_table level number }
    ensures inside { result < 320 }
{
    MOST_RECORDS * level + (usize::from(number) - 1)
}

// The value of the record with this number at a level.
pub fn entry<T: TruthForm>(table: &[T; ENTRIES], level: usize, number: u16) -> T
    requires level { level < 5 }
    requires above { 0 < number }
    requires within { number ≤ 64 }
    ensures { T.means result ≡ look (meanings T.neg T.conj T.disj) (map T.means table.now) (place_in_table level number) }
{
    table[place_of(level, number)]
}

// The records of a property, for a run: their atoms are still atoms of its rules.
#[derive(Drop)]
pub struct Formulas<'a, 'g, T> {
    pub run: &'a Run<'a, 'g, T>,
    pub records: &'a [Record],
    ghost linked: { Linked records.now },
    ghost few: { length records.now ≤ 64 },
    ghost fits: { Fits run.now.rules.now records.now },
}

impl<'a, 'g, T: TruthForm> Formulas<'a, 'g, T> {
    pub fn of(run: &'a Run<'a, 'g, T>, property: &'a Property) -> Formulas<'a, 'g, T>
        requires { Fits run.now.rules.now (records_of property.now) }
        ensures run { result.run.now ≡ run.now }
        ensures records { result.records.now ≡ records_of property.now }
    {
        Formulas {
            run,
            records: property.records(),
        }
    }

    // Whether each operand on the chain from record `first` on is true, by the entries of a level.
    fn all_entries(&self, table: &[T; ENTRIES], first: u16, level: usize) -> T
        requires first { first ≤ length self.now.records.now }
        requires level { level < 5 }
        ensures { (L : ℕ → List (T.World → Answers)) (left i : ℕ) → (0 < first → i < first) → FilledBehind (meanings T.neg T.conj T.disj) T.means self.now.run.now.rules.now self.now.records.now L table.now level left i → T.means result ≡ all_value (meanings T.neg T.conj T.disj) self.now.run.now.rules.now L (meanings T.neg T.conj T.disj).yes' (reading_at self.now.records.now first).operands level left }
    {
        let mut all = T::yes();
        for (number, _) in Walk::of(self.records, first) {
            all = all.and(entry(table, level, number));
        }
        all
    }

    // The value of a record at a level with so many levels left, by the entries of later records there and of all records a level
    // later.
    fn record_value(&self, table: &[T; ENTRIES], number: u16, level: usize, left: usize) -> T
        requires above { 0 < number }
        requires within { number ≤ length self.now.records.now }
        requires level { level + left < 5 }
        ensures { (L : ℕ → List (T.World → Answers)) → LevelIn T.means self.now.run.now.rules.now self.now.run.now.grid.now.values.now L level → (0 < left → FilledBehind (meanings T.neg T.conj T.disj) T.means self.now.run.now.rules.now self.now.records.now L table.now (level + 1) (left - 1) 0) → FilledBehind (meanings T.neg T.conj T.disj) T.means self.now.run.now.rules.now self.now.records.now L table.now level left number → T.means result ≡ value (meanings T.neg T.conj T.disj) self.now.run.now.rules.now L (reading_at self.now.records.now number).whole level left }
    {
        match self.records[usize::from(number) - 1].formula {
            Formula::Atom(atom) => self.run.value_at(level, usize::from(atom) - 1),
            Formula::Not(operand) => entry(table, level, operand).not(),
            Formula::All(first) => self.all_entries(table, first, level),
            Formula::Following(operand) => {
                if left == 0 {
                    T::yes()
                } else {
                    self.run.ended_or(level, entry(table, level + 1, operand))
                }
            }
        }
    }

    // Enters the records of a level, from the last to the first.
    fn fill_level(&self, table: &mut [T; ENTRIES], level: usize, left: usize)
        requires { level + left < 5 }
        ensures values { (L : ℕ → List (T.World → Answers)) → LevelIn T.means self.now.run.now.rules.now self.now.run.now.grid.now.values.now L level → (0 < left → FilledBehind (meanings T.neg T.conj T.disj) T.means self.now.run.now.rules.now self.now.records.now L table.old (level + 1) (left - 1) 0) → FilledBehind (meanings T.neg T.conj T.disj) T.means self.now.run.now.rules.now self.now.records.now L table.new level left 0 }
        ensures kept { KeptBesideLevel level table.old table.new }
        ensures whole { length table.new ≡ 320 }
    {
        for number in (1..=self.records.len() as u16).rev() {
            table[place_of(level, number)] = self.record_value(table, number, level, left);
        }
    }

    // Enters the records of all levels, from the horizon down.
    pub fn fill(&self, table: &mut [T; ENTRIES], horizon: usize)
        requires { horizon < 5 }
        ensures { (L : ℕ → List (T.World → Answers)) → LevelsIn T.means self.now.run.now.rules.now self.now.run.now.grid.now.values.now L horizon → FilledFrom (meanings T.neg T.conj T.disj) T.means self.now.run.now.rules.now self.now.records.now L table.new 0 horizon }
    {
        for level in (0..=horizon).rev() {
            self.fill_level(table, level, horizon - level);
        }
    }
}
