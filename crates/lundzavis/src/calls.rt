// Calls on one docket, in the order of the command line: one line for the opening and one for each call.
use crate::files::Loaded;
use crate::naming::{PartName, UnknownPart};
use crate::show::Summary;
use crate::wording::Wording;
use crate::{call_faults, files};
use docket::calls::trial;
use docket::dockets::Docket;
use docket::faults::TrialFault;
use docket::memories::{CASES, SETTINGS, VALUES};
use docket::opening::open;
use docket::trials::Trial;
use play::part::Part;
use rules::faults::Refusal;
use rules::layout::Layout;
use splits::cases::Case;
use std::alloc::{AllocError, Global};
use std::{fmt, io};
use truth::form::TruthForm;
use truth::wide::Wide;

// The longest property and the longest plays, in bytes.
const PROPERTY: usize = 384;

const PLAYS: usize = 6144;

// The length of one play.
const PLAY: usize = 96;

// How many words a call has: its name, the part, the property and the plays.
const WORDS: usize = 4;

// A call as its words give it: the part to try, and the files of the property and of the plays.
#[derive(Clone, Copy)]
pub struct Call<'a> {
    part: Part,
    property: &'a str,
    plays: &'a str,
}

// Why words give no calls.
#[derive(Clone, Copy, Drop)]
pub enum NoCalls {
    Unknown,
    Memory(AllocError),
}

impl From<UnknownPart> for NoCalls {
    fn from(_e: UnknownPart) -> NoCalls {
        NoCalls::Unknown
    }
}

impl From<AllocError> for NoCalls {
    fn from(e: AllocError) -> NoCalls {
        NoCalls::Memory(e)
    }
}

impl<'a> TryFrom<&'a [String]> for Call<'a> {
    type Error = NoCalls;

    fn try_from(words: &'a [String]) -> Result<Call<'a>, NoCalls> {
        match words {
            [name, part, property, plays] if name.as_str() == "trial" => {
                let PartName(part) = PartName::try_from(part.as_str())?;
                Ok(Call {
                    part,
                    property: property.as_str(),
                    plays: plays.as_str(),
                })
            }
            _ => Err(NoCalls::Unknown),
        }
    }
}

// The calls that the words give, one after another.
pub fn parse(heap: Global, words: &[String]) -> Result<Vec<Call<'_>>, NoCalls> {
    words
        .chunks(WORDS)
        .map(|words| Call::try_from(words))
        .try_collect(heap)
}

// What came of a call, the worse one last. No `Result`: a refusal does not stop the calls after it.
#[derive(Clone, Copy, PartialEq, Eq, PartialOrd, Ord)]
enum Outcome {
    Answered,
    // a fault, or a file that cannot be read
    Refused,
}

// Opens the rule file and runs the calls. A fault or an error in a call does not stop those after it.
pub fn run(rt: &HostRuntime, rules: &Loaded, calls: &[Call<'_>]) -> io::Result<()> {
    let docket = match open(rt.alloc(), rules.bytes()) {
        Ok(docket) => docket,
        Err(Refusal::Faulty(fault)) => return call_faults::of_rules(rt, fault, rules),
        Err(Refusal::Memory) => return files::no_memory(rt),
    };
    println!(rt; "{}", Summary(docket.rules().layout()))?;
    let mut session = Session::new(rt.alloc(), &docket)?;
    let mut worst = Outcome::Answered;
    for call in calls {
        worst = worst.max(session.run(rt, *call)?);
    }
    match worst {
        Outcome::Answered => Ok(()),
        Outcome::Refused => Err(io::Error::from(io::ErrorKind::InvalidData)),
    }
}

// A docket, and the memories that its calls are lent. The docket is borrowed: moved in here it would stand on the stack twice.
#[derive(Drop)]
pub struct Session<'d> {
    docket: &'d Docket,
    settings: Vec<u8>,
    values: Vec<Wide>,
    cases: Vec<Case>,
}

impl<'d> Session<'d> {
    pub fn new(heap: Global, docket: &'d Docket) -> Result<Session<'d>, AllocError> {
        Ok(Session {
            docket,
            settings: vec![in heap; 0; SETTINGS]?,
            values: vec![in heap; Wide::no(); VALUES]?,
            cases: vec![in heap; Case::default(); CASES]?,
        })
    }

    // Tries plays against a part of a property, both given as bytes.
    pub fn tried<'a>(
        &mut self,
        part: Part,
        property: &[u8],
        plays: &'a [u8],
    ) -> Result<Marked<'a>, TrialFault> {
        let answer = trial(
            self.docket,
            part,
            property,
            plays,
            self.settings.as_mut_slice(),
            self.values.as_mut_slice(),
            self.cases.as_mut_slice(),
        )?;
        Ok(Marked {
            layout: self.docket.rules().layout(),
            part: PartName(part),
            plays,
            answer,
        })
    }

    // Runs a call, and prints its line.
    fn run(&mut self, rt: &HostRuntime, call: Call<'_>) -> io::Result<Outcome> {
        let Some(property) = load(rt, call.property, PROPERTY)? else {
            return Ok(Outcome::Refused);
        };
        let Some(plays) = load(rt, call.plays, PLAYS)? else {
            return Ok(Outcome::Refused);
        };
        match self.tried(call.part, property.bytes(), plays.bytes()) {
            Ok(marked) => {
                println!(rt; "{marked}")?;
                Ok(Outcome::Answered)
            }
            Err(fault) => {
                call_faults::of_trial(rt, fault, &property, &plays)?;
                Ok(Outcome::Refused)
            }
        }
    }
}

// Reads a file for a call, or says why it cannot be read.
fn load(rt: &HostRuntime, path: &str, limit: usize) -> io::Result<Option<Loaded>> {
    match files::load(rt, path, limit) {
        Ok(loaded) => Ok(Some(loaded)),
        Err(e) => {
            files::unreadable(rt, path, &e)?;
            Ok(None)
        }
    }
}

// The answer of a trial. It prints the marks, the first play that breaks the part, and that play in words.
#[derive(Clone, Copy)]
pub struct Marked<'a> {
    layout: Layout,
    part: PartName,
    plays: &'a [u8],
    answer: Trial,
}

impl fmt::Display for Marked<'_> {
    fn fmt<W: fmt::Write>(&self, f: &mut fmt::Formatter<W>) -> fmt::Result {
        let Trial { marks, first } = self.answer;
        let part = self.part;
        match first {
            None => write!(f, "marks {marks} first none: no play breaks the {part}"),
            Some(first) => {
                let play = PlayWords {
                    layout: self.layout,
                    bytes: self.plays.chunks(PLAY).nth(first).unwrap_or(&[]),
                };
                write!(
                    f,
                    "marks {marks} first {first}: play {first} breaks the {part}; it starts with{play}"
                )
            }
        }
    }
}

// The fluents of a play's start.
const STARTS: Wording<'static> = Wording {
    each: " fluent ",
    between: "",
    none: " no fluent",
};

// A play with these bytes: its fluents, then its moves by level and role.
#[derive(Clone, Copy)]
struct PlayWords<'a> {
    layout: Layout,
    bytes: &'a [u8],
}

impl fmt::Display for PlayWords<'_> {
    fn fmt<W: fmt::Write>(&self, f: &mut fmt::Formatter<W>) -> fmt::Result {
        let fluents = usize::from(self.layout.fluents).min(self.bytes.len());
        let (start, rest) = self.bytes.split_at(fluents);
        STARTS.write(
            f,
            (1..)
                .zip(start)
                .filter(|(_, byte)| **byte == 1)
                .map(|(number, _)| number),
        )?;
        let moves = rest.split(|byte| *byte == 0).next().unwrap_or(rest);
        let roles = usize::from(self.layout.roles).max(1);
        for (level, joint) in moves.chunks(roles).enumerate() {
            write!(f, "; at level {level}")?;
            for (role, number) in (1usize..).zip(joint) {
                write!(f, " role {role} makes move {number}")?;
            }
        }
        Ok(())
    }
}
