// What an opened rule file holds: each record once, by number with its links.
use crate::naming::AtomName;
use crate::wording::{Count, FLUENTS};
use rules::layout::Layout;
use rules::opened::Rules;
use rules::records::{Atom, Literal, Mark, Rule, Sign};
use std::{fmt, io};

pub fn show(rt: &HostRuntime, rules: &Rules) -> io::Result<()> {
    let layout = rules.layout();
    println!(rt; "{}", Summary(layout))?;
    println!(rt; "{}", InitialPosition(rules.atoms()))?;
    for (number, atom) in (1..=layout.atoms).zip(rules.atoms()) {
        let name = AtomName {
            layout,
            counts: rules.moves(),
            number,
        };
        println!(rt; "atom {number}: {name}; {}", Words(*atom))?;
    }
    for (number, rule) in (1usize..).zip(rules.rules()) {
        println!(rt; "rule {number}: {}", Words(*rule))?;
    }
    for (number, literal) in (1usize..).zip(rules.literals()) {
        println!(rt; "literal {number}: {}", Words(*literal))?;
    }
    Ok(())
}

// The line of an opening.
#[derive(Clone, Copy)]
pub struct Summary(pub Layout);

impl fmt::Display for Summary {
    fn fmt<W: fmt::Write>(&self, f: &mut fmt::Formatter<W>) -> fmt::Result {
        let Layout {
            fluents,
            roles,
            atoms,
            rules,
            literals,
            moves,
        } = self.0;
        write!(
            f,
            "opened: {}, {} with {}, {}, {}, {}",
            Count(fluents, "fluent"),
            Count(roles, "role"),
            Count(moves, "move"),
            Count(atoms, "atom"),
            Count(rules, "rule"),
            Count(literals, "literal")
        )
    }
}

// The fluents among the atoms that are true at the start.
#[derive(Clone, Copy)]
struct InitialPosition<'a>(&'a [Atom]);

impl fmt::Display for InitialPosition<'_> {
    fn fmt<W: fmt::Write>(&self, f: &mut fmt::Formatter<W>) -> fmt::Result {
        f.write_str("initial position:")?;
        FLUENTS.write(
            f,
            (1..)
                .zip(self.0)
                .filter(|(_, atom)| matches!(atom.mark, Mark::Initial))
                .map(|(number, _)| number),
        )
    }
}

// What a record says, in words.
#[derive(Clone, Copy)]
struct Words<T>(T);

// Links are numbers as in the file, and one of 0 is told as none.
impl fmt::Display for Words<Atom> {
    fn fmt<W: fmt::Write>(&self, f: &mut fmt::Formatter<W>) -> fmt::Result {
        let Atom {
            stratum,
            mark,
            first,
        } = self.0;
        let mark = match mark {
            Mark::Still => "still",
            Mark::Dependent => "moves matter",
            Mark::Initial => "still, true at the start",
        };
        write!(f, "stratum {stratum}; {mark}; ")?;
        match first {
            0 => f.write_str("no rule"),
            _ => write!(f, "first rule {first}"),
        }
    }
}

impl fmt::Display for Words<Rule> {
    fn fmt<W: fmt::Write>(&self, f: &mut fmt::Formatter<W>) -> fmt::Result {
        let Rule { next, first } = self.0;
        match first {
            0 => f.write_str("empty body")?,
            _ => write!(f, "first literal {first}")?,
        }
        write!(f, "; {}", Next("rule", next))
    }
}

impl fmt::Display for Words<Literal> {
    fn fmt<W: fmt::Write>(&self, f: &mut fmt::Formatter<W>) -> fmt::Result {
        let Literal { atom, sign, next } = self.0;
        let sign = match sign {
            Sign::Plain => "atom",
            Sign::Negated => "not atom",
        };
        write!(f, "{sign} {atom}; {}", Next("literal", next))
    }
}

// The link of a chain, to a record of the kind that is named.
#[derive(Clone, Copy)]
struct Next(&'static str, u16);

impl fmt::Display for Next {
    fn fmt<W: fmt::Write>(&self, f: &mut fmt::Formatter<W>) -> fmt::Result {
        match *self {
            Next(_, 0) => f.write_str("last of its chain"),
            Next(kind, next) => write!(f, "next {kind} {next}"),
        }
    }
}
