// The parts of an opened rule file.
ghost use Rattle.std.specs.Prelude.{◌≡◌};
ghost use Rattle.rules.specs.Opens.{moves_of, atoms_of, rules_of, literals_of};

use crate::layout::Layout;
use crate::opened::Rules;
use crate::records::{Atom, Literal, Rule};

impl Rules {
    // What the header says.
    pub fn layout(&self) -> Layout
        ensures { result ≡ self.now.layout }
    {
        self.layout
    }

    // How many moves each role has.
    pub fn moves(&self) -> &[u16]
        ensures { result.now ≡ moves_of self.now }
    {
        self.moves.as_slice()
    }

    // The records; the one with number n stands at n - 1.
    pub fn atoms(&self) -> &[Atom]
        ensures { result.now ≡ atoms_of self.now }
    {
        self.atoms.as_slice()
    }

    pub fn rules(&self) -> &[Rule]
        ensures { result.now ≡ rules_of self.now }
    {
        self.rules.as_slice()
    }

    pub fn literals(&self) -> &[Literal]
        ensures { result.now ≡ literals_of self.now }
    {
        self.literals.as_slice()
    }
}
