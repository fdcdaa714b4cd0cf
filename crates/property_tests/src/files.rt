use property::reading::read;
use rules::faults::{Refusal, Report};
use rules::opened::Rules;
use rules::opening::open;
use std::alloc::{AllocError, Global};
use std::process::Abort;
use std::test::Fail;
use worked::files::FIRST;
use worked::words::bytes_of;

// On the first worked rule file.
pub fn open_rules(heap: Global) -> Result<Rules, Refusal> {
    let bytes = bytes_of(heap, &FIRST)?;
    open(heap, bytes.as_slice())
}

// The degree of a property that is taken, or how its fault is told.
pub fn answer(rules: &Rules, bytes: &[u8]) -> Result<u8, Report> {
    match read(rules, bytes) {
        Ok(property) => Ok(property.degree()),
        Err(fault) => Err(fault.report()),
    }
}

// A file in words, and what it answers.
#[derive(Drop)]
pub struct Row {
    pub file: &'static [u16],
    pub answer: Result<u8, Report>,
}

pub fn check_rows(rt: &impl Abort, heap: Global, rows: &[Row]) -> Result<(), Fail> {
    let rules = open_rules(heap)?;
    for row in rows {
        let bytes = bytes_of(heap, row.file)?;
        assert_eq!(rt; answer(&rules, bytes.as_slice()), row.answer);
    }
    Ok(())
}

pub fn told(number: u8, place: usize) -> Result<u8, Report> {
    Err(Report {
        number,
        layer: 3,
        place,
    })
}

pub fn takes(file: &'static [u16], degree: u8) -> Row {
    Row {
        file,
        answer: Ok(degree),
    }
}

pub fn refuses(file: &'static [u16], number: u8, place: usize) -> Row {
    Row {
        file,
        answer: told(number, place),
    }
}
