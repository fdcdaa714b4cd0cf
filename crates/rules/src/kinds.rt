ghost use Rattle.std.specs.Prelude.{◌≡◌, ◌+◌, ◌*◌, ◌≤◌};
ghost use Rattle.rules.specs.Kinds.{kind_of};

use crate::layout::Layout;

// What an atom stands for. It follows from the atom's number.
#[derive(Clone, Copy)]
pub enum Kind {
    // a fluent is true in the position
    Fluent,
    // a fluent is true in the position that follows
    Next,
    // a role makes a move
    Does,
    // a role may make a move
    Legal,
    // play has ended
    Terminal,
    // an atom of the file's own
    Further,
}

impl Layout {
    // Where terminal stands among the atoms, counted from 0: behind the legal atoms.
    pub fn terminal(self) -> usize
        ensures { result ≡ 2 * self.fluents + 2 * self.moves }
    {
        2 * usize::from(self.fluents) + 2 * usize::from(self.moves)
    }

    // The kind of the atom with this number, counted from 1.
    pub fn kind(self, atom: u16) -> Kind
        ensures { result ≡ kind_of self.fluents self.moves atom }
    {
        let atom = usize::from(atom);
        let fluents = usize::from(self.fluents);
        let moves = usize::from(self.moves);
        if atom <= fluents {
            Kind::Fluent
        } else if atom <= 2 * fluents {
            Kind::Next
        } else if atom <= 2 * fluents + moves {
            Kind::Does
        } else if atom <= 2 * fluents + 2 * moves {
            Kind::Legal
        } else if atom == 2 * fluents + 2 * moves + 1 {
            Kind::Terminal
        } else {
            Kind::Further
        }
    }
}
