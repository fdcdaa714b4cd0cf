// Faults of a rule file in words: which record, the value found, and what was allowed.
use rules::faults::Fault;
use rules::kinds::Kind;
use rules::layout::Layout;
use std::fmt;

// The word at an offset in bytes; 0 past the end, where no fault has its place.
pub fn word(bytes: &[u8], place: usize) -> u16 {
    match bytes.get(place..) {
        Some([high, low, ..]) => u16::from_be_bytes([*high, *low]),
        _ => 0,
    }
}

// The header of a file, with the moves of its roles together.
fn layout(bytes: &[u8]) -> Layout {
    let roles = word(bytes, 4);
    Layout {
        fluents: word(bytes, 2),
        roles,
        atoms: word(bytes, 6),
        rules: word(bytes, 8),
        literals: word(bytes, 10),
        moves: (0..roles.min(8))
            .map(|role| word(bytes, 12 + 2 * usize::from(role)))
            .fold(0, |moves: u16, count| moves.saturating_add(count)),
    }
}

// Where the records of one kind stand: the place of the first, and how many bytes each has.
#[derive(Clone, Copy)]
struct Records {
    start: usize,
    size: usize,
}

impl Records {
    // Where so many records end.
    fn end(self, count: u16) -> usize {
        self.start
            .saturating_add(self.size.saturating_mul(usize::from(count)))
    }

    // The number from 1 of the record at a place.
    fn number(self, place: usize) -> u16 {
        let i = place.saturating_sub(self.start) / self.size.max(1);
        u16::try_from(i.saturating_add(1)).unwrap_or(u16::MAX)
    }

    // How far from the beginning of its record a place is.
    fn offset(self, place: usize) -> usize {
        place.saturating_sub(self.start) % self.size.max(1)
    }
}

// A fault of the rule file with these bytes.
#[derive(Clone, Copy)]
pub struct Explanation<'a> {
    fault: Fault,
    bytes: &'a [u8],
    layout: Layout,
}

impl fmt::Display for Explanation<'_> {
    fn fmt<W: fmt::Write>(&self, f: &mut fmt::Formatter<W>) -> fmt::Result {
        match self.fault {
            Fault::TooShort(length) => write!(
                f,
                "the file has {length} bytes; a rule file has at least the 12 bytes of its header"
            ),
            Fault::Version => write!(f, "the version is {}; it must be 1", self.word(0)),
            Fault::Count(place) => self.count(f, place),
            Fault::Length(length) => write!(
                f,
                "the file has {length} bytes; the counts of its header ask for {}",
                self.literals().end(self.layout.literals)
            ),
            Fault::MoveCount(place) => write!(
                f,
                "role {} has {} moves; it must have 1 to 32",
                place.saturating_sub(10) / 2,
                self.word(place)
            ),
            Fault::FewAtoms => self.few_atoms(f),
            Fault::AtomWord(place) => self.atom_word(f, place),
            Fault::RuleWord(place) => self.rule_word(f, place),
            Fault::LiteralWord(place) => self.literal_word(f, place),
            Fault::Condition(head, place) => self.condition(f, head, place),
        }
    }
}

// A fault carries the offset of a word, so words are told apart by their offsets and not by names.
impl Explanation<'_> {
    pub fn new(fault: Fault, bytes: &[u8]) -> Explanation<'_> {
        Explanation {
            fault,
            bytes,
            layout: layout(bytes),
        }
    }

    fn word(self, place: usize) -> u16 {
        word(self.bytes, place)
    }

    // Where the records of each kind begin, also in a file that is refused and so never becomes records.
    fn atoms(self) -> Records {
        Records {
            start: 2 * (6 + usize::from(self.layout.roles)),
            size: 6,
        }
    }

    fn rules(self) -> Records {
        Records {
            start: self.atoms().end(self.layout.atoms),
            size: 4,
        }
    }

    fn literals(self) -> Records {
        Records {
            start: self.rules().end(self.layout.rules),
            size: 6,
        }
    }

    fn count<W: fmt::Write>(self, f: &mut fmt::Formatter<W>, place: usize) -> fmt::Result {
        let (what, low, high) = match place {
            2 => ("fluents", 1, 64),
            4 => ("roles", 1, 8),
            6 => ("atoms", 1, 512),
            8 => ("rules", 0, 2048),
            _ => ("literals", 0, 8000),
        };
        let found = self.word(place);
        write!(
            f,
            "the header counts {found} {what}; there must be {low} to {high}"
        )
    }

    fn few_atoms<W: fmt::Write>(self, f: &mut fmt::Formatter<W>) -> fmt::Result {
        let Layout {
            fluents,
            roles: _,
            atoms,
            rules: _,
            literals: _,
            moves,
        } = self.layout;
        let least = self.layout.terminal().saturating_add(1);
        write!(
            f,
            "the header counts {atoms} atoms; {fluents} fluents and {moves} moves need at least {least}"
        )
    }

    fn atom_word<W: fmt::Write>(self, f: &mut fmt::Formatter<W>, place: usize) -> fmt::Result {
        let number = self.atoms().number(place);
        let kind = self.layout.kind(number);
        let found = self.word(place);
        write!(f, "atom record {number} ({}) has ", KindName(kind))?;
        let given = matches!(kind, Kind::Fluent | Kind::Does);
        match self.atoms().offset(place) {
            0 if given => write!(f, "stratum {found}; it must be 0"),
            0 => write!(f, "stratum {found}; it must be 1 to 31"),
            2 => write!(f, "mark {found}; it must be {}", AllowedMarks(kind)),
            _ if given => write!(f, "first rule {found}; it must be 0"),
            _ => write!(
                f,
                "first rule {found}; it must be 0 to {}",
                self.layout.rules
            ),
        }
    }

    fn rule_word<W: fmt::Write>(self, f: &mut fmt::Formatter<W>, place: usize) -> fmt::Result {
        let number = self.rules().number(place);
        let found = self.word(place);
        write!(f, "rule record {number} has ")?;
        match self.rules().offset(place) {
            0 => write!(
                f,
                "next rule {found}; it must be {}",
                LaterLink(number, self.layout.rules)
            ),
            _ => write!(
                f,
                "first literal {found}; it must be 0 to {}",
                self.layout.literals
            ),
        }
    }

    fn literal_word<W: fmt::Write>(self, f: &mut fmt::Formatter<W>, place: usize) -> fmt::Result {
        let number = self.literals().number(place);
        let found = self.word(place);
        write!(f, "literal record {number} ")?;
        match self.literals().offset(place) {
            0 => {
                let atoms = self.layout.atoms;
                let first = self.layout.fluents.saturating_add(1);
                let last = self.layout.fluents.saturating_mul(2);
                write!(
                    f,
                    "names atom {found}; it must be 1 to {atoms} and no next atom ({first} to {last})"
                )
            }
            2 => write!(f, "has sign {found}; it must be 0 (plain) or 1 (negated)"),
            _ => write!(
                f,
                "has next literal {found}; it must be {}",
                LaterLink(number, self.layout.literals)
            ),
        }
    }

    // The stratum and mark of an atom.
    fn stratum_and_mark(self, atom: u16) -> (u16, u16) {
        let at = self.atoms().end(atom.saturating_sub(1));
        (self.word(at), self.word(at.saturating_add(2)))
    }

    fn condition<W: fmt::Write>(
        self,
        f: &mut fmt::Formatter<W>,
        head: u16,
        place: usize,
    ) -> fmt::Result {
        let number = self.literals().number(place);
        let atom = self.word(place);
        let negated = self.word(place.saturating_add(2)) == 1;
        let (head_stratum, head_mark) = self.stratum_and_mark(head);
        let (stratum, mark) = self.stratum_and_mark(atom);
        if head_mark != 1 && mark == 1 {
            return write!(
                f,
                "literal record {number} names atom {atom}, to which moves matter, under the still atom {head}; a still atom's rules may name only still atoms"
            );
        }
        if negated {
            return write!(
                f,
                "literal record {number} negates atom {atom} of stratum {stratum} under atom {head} of stratum {head_stratum}; a negated atom's stratum must be lower than the head's"
            );
        }
        write!(
            f,
            "literal record {number} names atom {atom} of stratum {stratum} under atom {head} of stratum {head_stratum}; a plain atom's stratum must be at most the head's"
        )
    }
}

// A kind of atoms, as a record is told.
#[derive(Clone, Copy)]
struct KindName(Kind);

impl fmt::Display for KindName {
    fn fmt<W: fmt::Write>(&self, f: &mut fmt::Formatter<W>) -> fmt::Result {
        f.write_str(match self.0 {
            Kind::Fluent => "a fluent",
            Kind::Next => "a next atom",
            Kind::Does => "a does atom",
            Kind::Legal => "a legal atom",
            Kind::Terminal => "terminal",
            Kind::Further => "a further atom",
        })
    }
}

// Which marks an atom of the kind may have.
#[derive(Clone, Copy)]
struct AllowedMarks(Kind);

impl fmt::Display for AllowedMarks {
    fn fmt<W: fmt::Write>(&self, f: &mut fmt::Formatter<W>) -> fmt::Result {
        f.write_str(match self.0 {
            Kind::Fluent => "0, or 2 where it is true at the start",
            Kind::Next | Kind::Does => "1",
            Kind::Legal | Kind::Terminal => "0",
            Kind::Further => "0 or 1",
        })
    }
}

// What the link of a record may be: its own number, and the number of the last record.
#[derive(Clone, Copy)]
struct LaterLink(u16, u16);

impl fmt::Display for LaterLink {
    fn fmt<W: fmt::Write>(&self, f: &mut fmt::Formatter<W>) -> fmt::Result {
        let LaterLink(number, last) = *self;
        write!(f, "0, or above {number} and at most {last}")
    }
}
