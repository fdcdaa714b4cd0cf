ghost use Rattle.rules.specs.First.{Faultless};
ghost use Rattle.rules.specs.Typed.{tables_from, Shaped, Counted, Enough, Moving};

use crate::layout::Layout;
use crate::records::{Atom, Literal, Rule};

// A rule file that was taken. Its invariant is that every check passes on what it holds. Records are told by number and not boxed, since
// chains share their ends.
#[derive(Drop)]
pub struct Rules {
    pub(crate) layout: Layout,
    pub(crate) moves: Vec<u16>,
    pub(crate) atoms: Vec<Atom>,
    pub(crate) rules: Vec<Rule>,
    pub(crate) literals: Vec<Literal>,
    ghost shaped: { Shaped layout moves.items atoms.items rules.items literals.items },
    ghost counted: { Counted layout },
    ghost moving: { Moving moves.items },
    ghost enough: { Enough layout },
    ghost faultless: { Faultless layout (tables_from atoms.items rules.items literals.items) },
}
