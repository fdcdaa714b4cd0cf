ghost use Rattle.std.specs.Prelude.{◌≡◌, ℕ, ◌*◌, ◌<◌, ◌≤◌, length, slice_index_or};
ghost use Rattle.truth.specs.Wide.{means};
ghost use Rattle.truth.specs.declared.wide.Wide.{Wide};
ghost use Rattle.evaluate.specs.Grids.{place, Roomy};
ghost use Rattle.evaluate.specs.Positions.{fluents, choices, does_at};
ghost use Rattle.docket.specs.Inputs.{starting, doing, BesideMoves, AllNoBeside};

use crate::choices::choice_at;
use crate::clearing::clear_values;
use crate::masks::plays_with;
use evaluate::grid::WIDTH;
use play::plays::Plays;
use rules::opened::Rules;
use truth::wide::Wide;

// Plays of a game, as the inputs of an evaluation: world k for play k. The values are lent to each function by itself, with room for the
// rows: a struct around a slice that is lent for writing would need a clause in each that it holds the same slice still.
#[derive(Clone, Copy)]
pub struct Inputs<'a> {
    pub rules: &'a Rules,
    pub plays: Plays<'a>,
}

impl Inputs<'_> {
    // The fluents of level 0: yes in the worlds of the plays that start with them.
    fn put_start(self, values: &mut [Wide])
        requires room { Roomy values.old }
        ensures start { (f : ℕ) (d : Wide) → f < fluents self.entry.rules.now → means (slice_index_or values.new f d) ≡ starting self.entry.plays.bytes.now self.entry.plays.count f }
        ensures kept { (i : ℕ) (d : Wide) → fluents self.entry.rules.now ≤ i → slice_index_or values.new i d ≡ slice_index_or values.old i d }
    {
        let fluents = usize::from(self.rules.layout().fluents);
        for (f, value) in values[..fluents].iter_mut().enumerate() {
            *value = Wide::settled(plays_with(self.plays, f, 1));
        }
    }

    // The does atoms of a level: yes in the worlds of the plays that make the move there.
    fn put_level(self, level: usize, values: &mut [Wide])
        requires level { level < 4 }
        requires room { Roomy values.old }
        ensures moves { (c : ℕ) (d : Wide) → c < choices self.entry.rules.now → means (slice_index_or values.new (place level (does_at self.entry.rules.now c)) d) ≡ doing self.entry.rules.now self.entry.plays.bytes.now self.entry.plays.count level c }
        ensures kept { (i : ℕ) (d : Wide) → BesideMoves self.entry.rules.now level i → slice_index_or values.new i d ≡ slice_index_or values.old i d }
    {
        let layout = self.rules.layout();
        let fluents = usize::from(layout.fluents);
        let first = fluents + usize::from(layout.roles) * level;
        let from = level * WIDTH + 2 * fluents;
        let moves = usize::from(layout.moves);
        for (c, value) in values[from..from + moves].iter_mut().enumerate() {
            let choice = choice_at(self.rules.moves(), c);
            let makers = plays_with(self.plays, first + choice.role, choice.number);
            *value = Wide::settled(makers);
        }
    }

    // The does atoms of each level below the horizon.
    fn put_levels(self, horizon: usize, values: &mut [Wide])
        requires horizon { horizon ≤ 4 }
        requires room { Roomy values.old }
        ensures moves { (j c : ℕ) (d : Wide) → j < horizon → c < choices self.entry.rules.now → means (slice_index_or values.new (place j (does_at self.entry.rules.now c)) d) ≡ doing self.entry.rules.now self.entry.plays.bytes.now self.entry.plays.count j c }
        ensures kept { (i : ℕ) (d : Wide) → ((j : ℕ) → j < horizon → BesideMoves self.entry.rules.now j i) → slice_index_or values.new i d ≡ slice_index_or values.old i d }
    {
        for level in 0..horizon {
            self.put_level(level, values);
        }
    }

    // All inputs; every other value is no.
    pub fn put(self, horizon: usize, values: &mut [Wide])
        requires horizon { horizon ≤ 4 }
        requires room { Roomy values.old }
        ensures start { (f : ℕ) (d : Wide) → f < fluents self.entry.rules.now → means (slice_index_or values.new (place 0 f) d) ≡ starting self.entry.plays.bytes.now self.entry.plays.count f }
        ensures moves { (j c : ℕ) (d : Wide) → j < horizon → c < choices self.entry.rules.now → means (slice_index_or values.new (place j (does_at self.entry.rules.now c)) d) ≡ doing self.entry.rules.now self.entry.plays.bytes.now self.entry.plays.count j c }
        ensures others { AllNoBeside self.entry.rules.now horizon values.new }
    {
        clear_values(values);
        self.put_start(values);
        self.put_levels(horizon, values);
    }
}
