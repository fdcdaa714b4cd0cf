ghost use Rattle.std.specs.Prelude.{◌≡◌, ℕ, ◌+◌, ◌<◌, ◌≤◌, List, [], map, length, slice_index_or};
ghost use Rattle.truth.specs.Forms.{Answers};
ghost use Rattle.rules.specs.Opens.{atoms_of};
ghost use Rattle.evaluate.specs.Evaluate.{look};
ghost use Rattle.evaluate.specs.Grids.{Roomy, row as row_of};
ghost use Rattle.evaluate.specs.Index.{SortedBy};
ghost use Rattle.evaluate.specs.Levels.{at_level};
ghost use Rattle.evaluate.specs.Meanings.{meanings};
ghost use Rattle.evaluate.specs.Positions.{does_at};
ghost use Rattle.property.specs.declared.properties.Property.{Property};
ghost use Rattle.property.specs.Reads.{Fits, records_of};
ghost use Rattle.property.specs.Trees.{degree as degree_of};
ghost use Rattle.play.specs.declared.part.Part.TheVariants.{Base, Step};
ghost use Rattle.play.specs.Parts.{assumed, horizon_of};
ghost use Rattle.parts.specs.Tables.{tree_of, table_end, Spacious, KeptBesideTable, LevelsIn};
ghost use Rattle.parts.specs.Values.{value as value_of, each_value, part_value as part_value_of};

use crate::moves::Run;
use crate::table::{ENTRIES, Formulas, entry};
use evaluate::grid::{Grid, LAST_ROUND, WIDTH};
use evaluate::indexed::Indexed;
use evaluate::strata::Strata;
use play::part::{Part, assumes};
use property::properties::Property;
use rules::opened::Rules;
use truth::form::TruthForm;

// The value of a property at level 0 of a run over a horizon.
pub fn property_value<T: TruthForm>(
    run: &Run<'_, '_, T>,
    table: &mut [T; ENTRIES],
    property: &Property,
    horizon: usize,
) -> T
    requires fits { Fits run.now.rules.now (records_of property.now) }
    requires horizon { horizon < 5 }
    ensures { (L : ℕ → List (T.World → Answers)) → LevelsIn T.means run.now.rules.now run.now.grid.now.values.now L horizon → T.means result ≡ value_of (meanings T.neg T.conj T.disj) run.now.rules.now L (tree_of property.now) 0 horizon }
{
    Formulas::of(run, property).fill(table, horizon);
    entry(table, 0, 1)
}

// The claim that a play breaks a part of a property, whose step may assume properties of a docket.
#[derive(Clone, Copy)]
pub struct Claim<'a> {
    pub rules: &'a Rules,
    pub part: Part,
    pub property: &'a Property,
    pub docket: &'a [Property],
    ghost fits: { Fits rules.now (records_of property.now) },
    ghost all: { (i : ℕ) (q : Property) → i < length docket.now → Fits rules.now (records_of (slice_index_or docket.now i q)) },
}

// A claim, for a play whose levels stand in a grid.
#[derive(Drop)]
struct Trial<'a, 'g, T> {
    claim: Claim<'a>,
    grid: &'a Grid<'g, T>,
    ghost room: { Roomy grid.now.values.now },
}

impl<'a, 'g, T: TruthForm> Trial<'a, 'g, T> {
    // All of a value and of those properties that the step assumes, at level 0.
    fn and_assumed(&self, table: &mut [T; ENTRIES], horizon: usize, first: T) -> T
        requires { horizon < 5 }
        ensures { (L : ℕ → List (T.World → Answers)) → LevelsIn T.means self.now.claim.rules.now self.now.grid.now.values.now L horizon → T.means result ≡ each_value (meanings T.neg T.conj T.disj) self.now.claim.rules.now L (T.means first) (assumed (tree_of self.now.claim.property.now) (map tree_of self.now.claim.docket.now)) horizon }
    {
        let run = Run {
            rules: self.claim.rules,
            grid: self.grid,
        };
        let degree = self.claim.property.degree();
        let mut all = first;
        for other in self.claim.docket {
            if assumes(degree, other.degree()) {
                all = all.and(property_value(&run, table, other, horizon));
            }
        }
        all
    }

    // All of: the moves are legal, the property is not satisfied.
    fn base_value(&self, table: &mut [T; ENTRIES]) -> T
        ensures { (L : ℕ → List (T.World → Answers)) → LevelsIn T.means self.now.claim.rules.now self.now.grid.now.values.now L (degree_of (tree_of self.now.claim.property.now)) → T.means result ≡ part_value_of (meanings T.neg T.conj T.disj) self.now.claim.rules.now L Base [] (tree_of self.now.claim.property.now) }
    {
        let run = Run {
            rules: self.claim.rules,
            grid: self.grid,
        };
        let horizon = usize::from(self.claim.property.degree());
        let legal = run.legality(horizon);
        let holds = property_value(&run, table, self.claim.property, horizon);
        T::yes().and(legal).and(holds.not())
    }

    // All of: the moves are legal, the property and each assumed one is satisfied, following-the-property is not.
    fn step_value(&self, table: &mut [T; ENTRIES]) -> T
        ensures { (L : ℕ → List (T.World → Answers)) → LevelsIn T.means self.now.claim.rules.now self.now.grid.now.values.now L (degree_of (tree_of self.now.claim.property.now) + 1) → T.means result ≡ part_value_of (meanings T.neg T.conj T.disj) self.now.claim.rules.now L Step (map tree_of self.now.claim.docket.now) (tree_of self.now.claim.property.now) }
    {
        let run = Run {
            rules: self.claim.rules,
            grid: self.grid,
        };
        let horizon = usize::from(self.claim.property.degree()) + 1;
        let legal = run.legality(horizon);
        Formulas::of(&run, self.claim.property).fill(table, horizon);
        let holds = entry(table, 0, 1);
        let follows = run.ended_or(0, entry(table, 1, 1));
        let first = T::yes().and(legal).and(holds);
        self.and_assumed(table, horizon, first).and(follows.not())
    }

    // The value of the part. The table is written.
    fn value(&self, table: &mut [T; ENTRIES]) -> T
        ensures { (L : ℕ → List (T.World → Answers)) → LevelsIn T.means self.now.claim.rules.now self.now.grid.now.values.now L (horizon_of self.now.claim.part (degree_of (tree_of self.now.claim.property.now))) → T.means result ≡ part_value_of (meanings T.neg T.conj T.disj) self.now.claim.rules.now L self.now.claim.part (map tree_of self.now.claim.docket.now) (tree_of self.now.claim.property.now) }
    {
        match self.claim.part {
            Part::Base => self.base_value(table),
            Part::Step => self.step_value(table),
        }
    }
}

impl<'a> Claim<'a> {
    // On rows and room for a table, apart: what a grid of the rows leaves them as is said in this contract.
    fn value_on<T: TruthForm>(self, rows: &mut [T], behind: &mut [T]) -> T
        requires rows { Roomy rows.old }
        requires room { 320 ≤ length behind.old }
        ensures kept { rows.new ≡ rows.old }
        ensures value { (L : ℕ → List (T.World → Answers)) → LevelsIn T.means self.entry.rules.now rows.old L (horizon_of self.entry.part (degree_of (tree_of self.entry.property.now))) → T.means result ≡ part_value_of (meanings T.neg T.conj T.disj) self.entry.rules.now L self.entry.part (map tree_of self.entry.docket.now) (tree_of self.entry.property.now) }
    {
        let grid = Grid { values: rows };
        let trial = Trial {
            claim: self,
            grid: &grid,
        };
        trial.value(behind.first_chunk_mut::<ENTRIES>().unwrap())
    }

    // Its value, for a play whose levels stand in rows. Only the table behind the rows is written.
    pub fn part_value<T: TruthForm>(self, values: &mut [T]) -> T
        requires { Spacious values.old }
        ensures value { (L : ℕ → List (T.World → Answers)) → LevelsIn T.means self.entry.rules.now values.old L (horizon_of self.entry.part (degree_of (tree_of self.entry.property.now))) → T.means result ≡ part_value_of (meanings T.neg T.conj T.disj) self.entry.rules.now L self.entry.part (map tree_of self.entry.docket.now) (tree_of self.entry.property.now) }
        ensures kept { KeptBesideTable values.old values.new }
    {
        let (rows, rest) = values.split_at_mut((LAST_ROUND + 1) * WIDTH);
        let (table, _) = rest.split_at_mut(ENTRIES);
        self.value_on(rows, table)
    }

    // Evaluates the levels of a play from its inputs in the grid, which are the fluents of level 0 and the does atoms of each level,
    // and then the claim on them.
    pub fn evaluate<T: TruthForm>(self, strata: &'a Strata, grid: &mut Grid<'_, T>) -> T
        requires sorted { SortedBy self.rules.now strata.now }
        requires room { Spacious grid.old.values.now }
        ensures value { T.means result ≡ part_value_of (meanings T.neg T.conj T.disj) self.entry.rules.now (at_level (meanings T.neg T.conj T.disj) self.entry.rules.now (look (meanings T.neg T.conj T.disj) (map T.means (row_of (length (atoms_of self.entry.rules.now)) grid.old.values.now 0))) (λ j c. look (meanings T.neg T.conj T.disj) (map T.means (row_of (length (atoms_of self.entry.rules.now)) grid.old.values.now j)) (does_at self.entry.rules.now c))) self.entry.part (map tree_of self.entry.docket.now) (tree_of self.entry.property.now) }
        ensures kept { (i : ℕ) (d : T) → table_end ≤ i → slice_index_or grid.new.values.now i d ≡ slice_index_or grid.old.values.now i d }
        ensures len { length grid.new.values.now ≡ length grid.old.values.now }
        ensures lender { grid.new.values.ghost_name ≡ grid.old.values.ghost_name }
    {
        let rules = Indexed {
            rules: self.rules,
            strata,
        };
        let horizon = usize::from(self.part.horizon(self.property.degree()));
        grid.play(rules, horizon);
        self.part_value(grid.values)
    }
}
