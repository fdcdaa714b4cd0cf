// What numbers and parts mean, in words.
use docket::choices::choice_at;
use play::part::Part;
use rules::kinds::Kind;
use rules::layout::Layout;
use std::fmt;

// A part by its name in calls. `Part` is another crate's type, so its words stand on this one.
#[derive(Clone, Copy)]
pub struct PartName(pub Part);

// A word that names no part.
#[derive(Clone, Copy)]
pub struct UnknownPart;

impl TryFrom<&str> for PartName {
    type Error = UnknownPart;

    fn try_from(word: &str) -> Result<PartName, UnknownPart> {
        match word {
            "base" => Ok(PartName(Part::Base)),
            "step" => Ok(PartName(Part::Step)),
            _ => Err(UnknownPart),
        }
    }
}

impl fmt::Display for PartName {
    fn fmt<W: fmt::Write>(&self, f: &mut fmt::Formatter<W>) -> fmt::Result {
        f.write_str(match self.0 {
            Part::Base => "base",
            Part::Step => "step",
        })
    }
}

// An atom by its number from 1, as `next of fluent 2` or `role 1 does move 2`.
#[derive(Clone, Copy)]
pub struct AtomName<'a> {
    pub layout: Layout,
    // how many moves each role has
    pub counts: &'a [u16],
    pub number: u16,
}

impl AtomName<'_> {
    // The role and move, from 1, of place i among the moves of all roles.
    fn role_and_move(self, place: usize) -> (usize, u16) {
        let choice = choice_at(self.counts, place);
        (choice.role.saturating_add(1), choice.number)
    }
}

impl fmt::Display for AtomName<'_> {
    fn fmt<W: fmt::Write>(&self, f: &mut fmt::Formatter<W>) -> fmt::Result {
        let fluents = usize::from(self.layout.fluents);
        let moves = usize::from(self.layout.moves);
        let at = usize::from(self.number);
        match self.layout.kind(self.number) {
            Kind::Fluent => write!(f, "fluent {at}"),
            Kind::Next => write!(f, "next of fluent {}", at.saturating_sub(fluents)),
            Kind::Does => {
                let (role, choice) = self.role_and_move(at.saturating_sub(2 * fluents + 1));
                write!(f, "role {role} does move {choice}")
            }
            Kind::Legal => {
                let (role, choice) = self.role_and_move(at.saturating_sub(2 * fluents + moves + 1));
                write!(f, "move {choice} is legal for role {role}")
            }
            Kind::Terminal => f.write_str("terminal"),
            Kind::Further => f.write_str("further atom"),
        }
    }
}
