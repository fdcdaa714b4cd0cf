// The command-line program: opens a rule file and shows what it holds and how play starts, or runs calls on its docket;
// or says why it is refused.
//
// Nothing is decided here. Answers come from the crates `rules`, `evaluate` and `docket`; this program reads files, prints, and puts faults into
// words.
#![tactic(auto)]

mod call_faults;
mod calls;
mod explain;
mod files;
mod naming;
mod sample;
mod show;
mod starts;
mod wording;

use crate::calls::{Call, NoCalls};
use crate::files::Loaded;
use rules::faults::Refusal;
use rules::opening::open;
use std::alloc::Global;
use std::{env, io};

const USAGE: &str =
    "usage: lundzavis                   open the built-in worked rule file and show what it holds and how play starts
       lundzavis RULES             the same for the rule file RULES
       lundzavis RULES CALL...     run calls in order on one docket
       lundzavis help              print this
calls: trial base|step PROPERTY PLAYS      mark the plays that break the part of the property

The first line of output is `opened: ` and a summary, or `fault N layer L place P: ` and what is wrong. With calls there is one line more
for each: `marks M first K: ` (bit k of M for play k; K an index from 0, or none) or a fault. A file that cannot be read gives a line that
begins `error`. After a fault or an error the exit status is 1.";

// The largest rule file there can be: 2 * (6 + 8 + 3 * 512 + 2 * 2048 + 3 * 8000) bytes.
const LONGEST: usize = 59292;

// What the words of the command line ask for.
#[derive(Drop)]
enum Request<'a> {
    Worked,
    Help,
    // the rule file, and the calls
    Open(&'a str, Vec<Call<'a>>),
}

impl<'a> Request<'a> {
    fn parse(heap: Global, words: &'a [String]) -> Result<Request<'a>, NoCalls> {
        match words {
            [] => Ok(Request::Worked),
            [help, ..] if help.as_str() == "help" => Ok(Request::Help),
            [rules, words @ ..] => Ok(Request::Open(rules.as_str(), calls::parse(heap, words)?)),
        }
    }
}

fn main(rt: HostRuntime) -> io::Result<()> {
    let mut words = Vec::new(rt.alloc());
    for word in env::args(&rt)?.skip(1) {
        words.push(word)?;
    }
    match Request::parse(rt.alloc(), words.as_slice()) {
        Ok(Request::Worked) => worked(&rt),
        Ok(Request::Help) => println!(rt; "{USAGE}"),
        Ok(Request::Open(rules, calls)) => opened(&rt, rules, calls.as_slice()),
        Err(NoCalls::Unknown) => {
            println!(rt; "error: these words are no calls\n{USAGE}")?;
            Err(io::Error::from(io::ErrorKind::InvalidInput))
        }
        Err(NoCalls::Memory(e)) => Err(io::Error::from(e)),
    }
}

// The worked example: the first file as it is, and a trial on the second.
fn worked(rt: &HostRuntime) -> io::Result<()> {
    shown(rt, &Loaded::built_in(rt)?)?;
    sample::trial(rt)
}

// A rule file, with the calls on it; with none it is shown.
fn opened(rt: &HostRuntime, path: &str, calls: &[Call<'_>]) -> io::Result<()> {
    match files::load(rt, path, LONGEST) {
        Ok(rules) if calls.is_empty() => shown(rt, &rules),
        Ok(rules) => calls::run(rt, &rules, calls),
        Err(e) => {
            files::unreadable(rt, path, &e)?;
            Err(e)
        }
    }
}

fn shown(rt: &HostRuntime, loaded: &Loaded) -> io::Result<()> {
    match open(rt.alloc(), loaded.bytes()) {
        Ok(rules) => {
            show::show(rt, &rules)?;
            starts::show(rt, &rules)
        }
        Err(Refusal::Faulty(fault)) => call_faults::of_rules(rt, fault, loaded),
        Err(Refusal::Memory) => files::no_memory(rt),
    }
}
