ghost use Rattle.std.specs.Prelude.{◌≡◌, ◌<◌, length, slice_index_or, slice_set};
ghost use Rattle.evaluate.specs.Grids.{place};

use truth::form::TruthForm;

// The places of a row, and the row of the last round's values.
pub const WIDTH: usize = 512;

pub const LAST_ROUND: usize = 5;

// Values by level and atom over one lent slice: level by level rows of 512 places, atoms counted from 0; then a row for the last
// round's values. What stands behind is for tables above the grid.
#[derive(Drop)]
pub struct Grid<'a, T> {
    pub values: &'a mut [T],
}

impl<'a, T: TruthForm> Grid<'a, T> {
    pub fn get(&self, level: usize, atom: usize) -> T
        requires { place level atom < length self.now.values.now }
        ensures { (d : T) → result ≡ slice_index_or self.now.values.now (place level atom) d }
    {
        let i = level * WIDTH + atom;
        let values: &[T] = &*self.values;
        values[i]
    }

    pub fn set(&mut self, level: usize, atom: usize, v: T)
        requires { place level atom < length self.old.values.now }
        ensures values { self.new.values.now ≡ slice_set self.old.values.now (place level atom) v }
        ensures lender { self.new.values.ghost_name ≡ self.old.values.ghost_name }
    {
        self.values[level * WIDTH + atom] = v;
    }
}
