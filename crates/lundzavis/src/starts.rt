// Play at the initial position of an opened rule file: which moves are legal, whether play has ended, and what each joint move leads to.
use crate::wording::{FLUENTS, Wording};
use docket::memories::VALUES;
use evaluate::indexed::Indexed;
use evaluate::models::model;
use evaluate::strata::Strata;
use rules::layout::Layout;
use rules::opened::Rules;
use rules::records::Mark;
use std::alloc::{AllocError, Global};
use std::{fmt, io};
use truth::three::Three;

// Joint moves are shown up to this many.
const SHOWN: usize = 16;

pub fn show(rt: &HostRuntime, rules: &Rules) -> io::Result<()> {
    let heap = rt.alloc();
    let strata = Strata::of(heap, rules)?;
    let rules = Indexed {
        rules,
        strata: &strata,
    };
    let start = initial(heap, rules.rules)?;
    let mut values = vec![in heap; Three::No; VALUES]?;
    let anything = vec![in heap; 1; rules.rules.moves().len()]?;
    if model(
        rules,
        start.as_slice(),
        anything.as_slice(),
        values.as_mut_slice(),
    )
    .is_err()
    {
        return Ok(());
    }
    let legal = Legal::of(heap, rules.rules, values.as_slice())?;
    let still = StillAtoms {
        rules: rules.rules,
        values: values.as_slice(),
    };
    println!(rt; "still atoms true at the start, besides fluents and legal moves:{still}")?;
    for (role, numbers) in (1usize..).zip(legal.roles.iter()) {
        println!(rt; "legal for role {role}:{}", Moves(numbers.as_slice()))?;
    }
    if is_yes(values.as_slice(), rules.rules.layout().terminal()) {
        return println!(rt; "terminal: play has ended");
    }
    println!(rt; "terminal: no")?;
    following(rt, rules, start.as_slice(), &legal, &mut values)
}

fn is_yes(values: &[Three], atom: usize) -> bool {
    matches!(values.get(atom), Some(Three::Yes))
}

fn initial(heap: Global, rules: &Rules) -> Result<Vec<bool>, AllocError> {
    rules
        .atoms()
        .iter()
        .take(usize::from(rules.layout().fluents))
        .map(|atom| matches!(atom.mark, Mark::Initial))
        .collect(heap)
}

// The moves of each role that are legal, numbered from 1.
#[derive(Drop)]
struct Legal {
    roles: Vec<Vec<u16>>,
}

impl Legal {
    fn of(heap: Global, rules: &Rules, values: &[Three]) -> Result<Legal, AllocError> {
        let layout = rules.layout();
        let from = 2 * usize::from(layout.fluents) + usize::from(layout.moves);
        let mut atoms = values.iter().skip(from);
        let mut roles = Vec::new(heap);
        for count in rules.moves() {
            let mut numbers = Vec::new(heap);
            for number in 1..=*count {
                if let Some(Three::Yes) = atoms.next() {
                    numbers.push(number)?;
                }
            }
            roles.push(numbers)?;
        }
        Ok(Legal { roles })
    }

    // How many joint moves are legal, where there are not more than can be counted.
    fn count(&self) -> usize {
        self.roles
            .iter()
            .fold(1, |n: usize, numbers| n.saturating_mul(numbers.len()))
    }

    // Legal joint move number `nth`, from 0.
    fn joint(&self, heap: Global, nth: usize) -> Result<Vec<u16>, AllocError> {
        let mut moves = Vec::new(heap);
        let mut left = nth;
        for numbers in self.roles.iter() {
            let choices = numbers.len().max(1);
            moves.push(numbers.get(left % choices).copied().unwrap_or(1))?;
            left /= choices;
        }
        Ok(moves)
    }
}

// The numbers of moves.
const MOVES: Wording<'static> = Wording {
    each: " ",
    between: "",
    none: " no move",
};

#[derive(Clone, Copy)]
struct Moves<'a>(&'a [u16]);

impl fmt::Display for Moves<'_> {
    fn fmt<W: fmt::Write>(&self, f: &mut fmt::Formatter<W>) -> fmt::Result {
        MOVES.write(f, self.0.iter().map(|number| usize::from(*number)))
    }
}

// The numbers of atoms.
const ATOMS: Wording<'static> = Wording {
    each: " ",
    between: "",
    none: " none",
};

// The further atoms that are still and true by these values.
#[derive(Clone, Copy)]
struct StillAtoms<'a, 'b> {
    rules: &'a Rules,
    values: &'b [Three],
}

impl fmt::Display for StillAtoms<'_, '_> {
    fn fmt<W: fmt::Write>(&self, f: &mut fmt::Formatter<W>) -> fmt::Result {
        let further = self.rules.layout().terminal();
        ATOMS.write(
            f,
            (1..)
                .zip(self.rules.atoms().iter().zip(self.values))
                .skip(further)
                .filter(|(_, (atom, value))| {
                    !matches!(atom.mark, Mark::Dependent) && matches!(value, Three::Yes)
                })
                .map(|(number, _)| number),
        )
    }
}

fn following(
    rt: &HostRuntime,
    rules: Indexed<'_>,
    start: &[bool],
    legal: &Legal,
    values: &mut Vec<Three>,
) -> io::Result<()> {
    let count = legal.count();
    if count == 0 {
        return println!(rt; "no joint move is legal: play is stuck");
    }
    if count > SHOWN {
        return println!(rt; "{count} joint moves are legal");
    }
    for nth in 0..count {
        let moves = legal.joint(rt.alloc(), nth)?;
        if model(rules, start, moves.as_slice(), values.as_mut_slice()).is_ok() {
            let next = NextPosition {
                fluents: usize::from(rules.rules.layout().fluents),
                values: values.as_slice(),
            };
            println!(rt; "joint move{} leads to:{next}", Moves(moves.as_slice()))?;
        }
    }
    Ok(())
}

// The position that follows: the fluents whose next atoms are true by these values.
#[derive(Clone, Copy)]
struct NextPosition<'a> {
    fluents: usize,
    values: &'a [Three],
}

impl fmt::Display for NextPosition<'_> {
    fn fmt<W: fmt::Write>(&self, f: &mut fmt::Formatter<W>) -> fmt::Result {
        FLUENTS.write(
            f,
            (1..)
                .zip(self.values.iter().skip(self.fluents).take(self.fluents))
                .filter(|(_, value)| matches!(value, Three::Yes))
                .map(|(number, _)| number),
        )
    }
}
