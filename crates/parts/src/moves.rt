ghost use Rattle.std.specs.Prelude.{◌≡◌, ℕ, ◌<◌, List, length};
ghost use Rattle.truth.specs.Forms.{Answers};
ghost use Rattle.rules.specs.Opens.{atoms_of};
ghost use Rattle.evaluate.specs.Grids.{Roomy};
ghost use Rattle.evaluate.specs.Meanings.{meanings};
ghost use Rattle.evaluate.specs.Positions.{choices};
ghost use Rattle.parts.specs.Tables.{LevelIn, LevelsIn};
ghost use Rattle.parts.specs.Values.{at as at_of, ended as ended_of, ended_or as ended_or_of, undone_or_legal as undone_or_legal_of, every_move as every_move_of, legality as legality_of};

use evaluate::grid::Grid;
use rules::opened::Rules;
use truth::form::TruthForm;

// The levels of a play that were evaluated, in a grid, and the rules of its game. Levels are plain numbers below 5: a type of their own
// would be made from such a number at each turn, under the same condition.
#[derive(Drop)]
pub struct Run<'a, 'g, T> {
    pub rules: &'a Rules,
    pub grid: &'a Grid<'g, T>,
    ghost room: { Roomy grid.now.values.now },
}

impl<'a, 'g, T: TruthForm> Run<'a, 'g, T> {
    // The value of an atom, counted from 0, at a level.
    pub fn value_at(&self, level: usize, atom: usize) -> T
        requires level { level < 5 }
        requires atom { atom < length (atoms_of self.now.rules.now) }
        ensures { (L : ℕ → List (T.World → Answers)) → LevelIn T.means self.now.rules.now self.now.grid.now.values.now L level → T.means result ≡ at_of (meanings T.neg T.conj T.disj) self.now.rules.now L level atom }
    {
        self.grid.get(level, atom)
    }

    // Whether play has ended at a level.
    pub fn ended(&self, level: usize) -> T
        requires { level < 5 }
        ensures { (L : ℕ → List (T.World → Answers)) → LevelIn T.means self.now.rules.now self.now.grid.now.values.now L level → T.means result ≡ ended_of (meanings T.neg T.conj T.disj) self.now.rules.now L level }
    {
        self.value_at(level, self.rules.layout().terminal())
    }

    // Play has ended at a level, or what is said of the level after it.
    pub fn ended_or(&self, level: usize, later: T) -> T
        requires { level < 5 }
        ensures { (L : ℕ → List (T.World → Answers)) → LevelIn T.means self.now.rules.now self.now.grid.now.values.now L level → T.means result ≡ ended_or_of (meanings T.neg T.conj T.disj) self.now.rules.now L level (T.means later) }
    {
        T::no().or(self.ended(level)).or(later)
    }

    // Whether a move, counted from 0 by role and then by move, is not done or legal.
    fn undone_or_legal(&self, level: usize, choice: usize) -> T
        requires level { level < 5 }
        requires choice { choice < choices self.now.rules.now }
        ensures { (L : ℕ → List (T.World → Answers)) → LevelIn T.means self.now.rules.now self.now.grid.now.values.now L level → T.means result ≡ undone_or_legal_of (meanings T.neg T.conj T.disj) self.now.rules.now L level choice }
    {
        let layout = self.rules.layout();
        let does = 2 * usize::from(layout.fluents) + choice;
        let legal = 2 * usize::from(layout.fluents) + usize::from(layout.moves) + choice;
        let undone = self.value_at(level, does).not();
        T::no().or(undone).or(self.value_at(level, legal))
    }

    // Whether every move at a level is not done or legal.
    pub fn every_move(&self, level: usize) -> T
        requires { level < 5 }
        ensures { (L : ℕ → List (T.World → Answers)) → LevelIn T.means self.now.rules.now self.now.grid.now.values.now L level → T.means result ≡ every_move_of (meanings T.neg T.conj T.disj) self.now.rules.now L level }
    {
        let mut all = T::yes();
        for choice in 0..usize::from(self.rules.layout().moves) {
            all = all.and(self.undone_or_legal(level, choice));
        }
        all
    }

    // Whether the moves of the run are legal: at each level below the horizon, play has ended at some level up to there, or every
    // move is not done or legal.
    pub fn legality(&self, horizon: usize) -> T
        requires { horizon < 5 }
        ensures { (L : ℕ → List (T.World → Answers)) → LevelsIn T.means self.now.rules.now self.now.grid.now.values.now L horizon → T.means result ≡ legality_of (meanings T.neg T.conj T.disj) self.now.rules.now L horizon }
    {
        let mut all = T::yes();
        let mut over = T::no();
        for level in 0..horizon {
            over = over.or(self.ended(level));
            all = all.and(over.or(self.every_move(level)));
        }
        all
    }
}
