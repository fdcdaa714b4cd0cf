// The lines of faults: what scripts read, then words for people.
use crate::explain::{Explanation, word};
use crate::files::Loaded;
use docket::faults::TrialFault;
use rules::faults::{Fault, Report};
use std::{fmt, io};

fn line(rt: &HostRuntime, report: Report, why: &impl fmt::Display) -> io::Result<()> {
    let Report {
        number,
        layer,
        place,
    } = report;
    println!(rt; "fault {number} layer {layer} place {place}: {why}")
}

// A fault of the rule file ends the program.
pub fn of_rules(rt: &HostRuntime, fault: Fault, file: &Loaded) -> io::Result<()> {
    let fault = match fault {
        Fault::Length(_) => Fault::Length(file.length()),
        other => other,
    };
    line(rt, fault.report(), &Explanation::new(fault, file.bytes()))?;
    Err(io::Error::from(io::ErrorKind::InvalidData))
}

// A fault of a trial of these files.
pub fn of_trial(
    rt: &HostRuntime,
    fault: TrialFault,
    property: &Loaded,
    plays: &Loaded,
) -> io::Result<()> {
    let fault = match fault {
        TrialFault::Property(property::faults::Fault::Length(_)) => {
            TrialFault::Property(property::faults::Fault::Length(property.length()))
        }
        TrialFault::Plays(play::faults::Fault::Length(_)) => {
            TrialFault::Plays(play::faults::Fault::Length(plays.length()))
        }
        other => other,
    };
    let why = TrialExplanation {
        fault,
        property: property.bytes(),
        plays: plays.bytes(),
    };
    line(rt, fault.report(), &why)
}

// A fault of a trial of a property and plays with these bytes.
#[derive(Clone, Copy)]
struct TrialExplanation<'a> {
    fault: TrialFault,
    property: &'a [u8],
    plays: &'a [u8],
}

impl fmt::Display for TrialExplanation<'_> {
    fn fmt<W: fmt::Write>(&self, f: &mut fmt::Formatter<W>) -> fmt::Result {
        match self.fault {
            TrialFault::Memory(_) => f.write_str("a lent memory is too short"),
            TrialFault::Property(property::faults::Fault::Length(length)) => write!(
                f,
                "the property has {length} bytes; it must have 6 to 384 in steps of 6"
            ),
            TrialFault::Property(property::faults::Fault::Word(place)) => {
                self.property_word(f, place)
            }
            TrialFault::Property(property::faults::Fault::Degree) => {
                f.write_str("a path through the property has more than 3 followings")
            }
            TrialFault::Plays(play::faults::Fault::Length(length)) => write!(
                f,
                "the plays have {length} bytes; they must have 96 to 6144 in steps of 96"
            ),
            TrialFault::Plays(play::faults::Fault::Byte(place)) => self.play_byte(f, place),
        }
    }
}

// A fault carries the offset of a word, so words are told apart by their offsets and not by names.
impl TrialExplanation<'_> {
    fn property_word<W: fmt::Write>(self, f: &mut fmt::Formatter<W>, place: usize) -> fmt::Result {
        let number = place / 6 + 1;
        let count = self.property.len() / 6;
        let found = word(self.property, place);
        let kind = word(self.property, place.saturating_sub(place % 6));
        write!(f, "property record {number} ")?;
        match (place % 6, kind) {
            (0, _) => write!(
                f,
                "has kind {found}; it must be 1 (atom), 2 (not), 3 (all) or 4 (following)"
            ),
            (2, 1) => write!(
                f,
                "names atom {found}; it must be a still atom of the rule file"
            ),
            (2, 3) => write!(
                f,
                "has first operand {found}; it must be 0, or a record after {number} and at most {count}"
            ),
            (2, _) => write!(
                f,
                "has operand {found}; it must be a record after {number} and at most {count}"
            ),
            _ => write!(
                f,
                "has next {found}; it must be 0, or a record after {number} and at most {count}"
            ),
        }
    }

    fn play_byte<W: fmt::Write>(self, f: &mut fmt::Formatter<W>, place: usize) -> fmt::Result {
        let number = place / 96;
        let byte = place % 96;
        let found = self.plays.get(place).copied().unwrap_or(0);
        write!(
            f,
            "byte {byte} of play {number} is {found}; a start byte is 0 or 1 (of a base, the initial position's), a move is one of the role's moves from 1, and the rest is 0"
        )
    }
}
