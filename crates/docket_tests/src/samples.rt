// Rule files, properties and plays to try.
use docket::calls::trial;
use docket::dockets::Docket;
use docket::opening::open;
use play::part::Part;
use splits::cases::Case;
use std::alloc::Global;
use std::test::Fail;
use truth::form::TruthForm;
use truth::wide::Wide;
use worked::words::bytes_of;

// Three fluents, one after another from the first on; the third ends play. One role with one move, which is legal.
pub const COUNTDOWN: [u16; 51] = [
    1, 3, 1, 9, 4, 3, 1, 0, 2, 0, 0, 0, 0, 0, 0, 0, 1, 1, 0, 1, 1, 1, 1, 1, 2, 0, 1, 0, 1, 0, 4, 1,
    0, 3, 0, 1, 0, 2, 0, 3, 0, 0, 1, 0, 0, 2, 0, 0, 3, 0, 0,
];

// The same, but the move is legal only while the first fluent is true, and nothing ends play.
pub const STUCK: [u16; 51] = [
    1, 3, 1, 9, 4, 3, 1, 0, 2, 0, 0, 0, 0, 0, 0, 0, 1, 1, 0, 1, 1, 1, 1, 1, 2, 0, 1, 0, 1, 0, 3, 1,
    0, 0, 0, 1, 0, 2, 0, 3, 0, 0, 1, 0, 0, 2, 0, 0, 1, 0, 0,
];

pub fn opened(heap: Global, words: &[u16]) -> Result<Docket, Fail> {
    let bytes = bytes_of(heap, words)?;
    match open(heap, bytes.as_slice()) {
        Ok(docket) => Ok(docket),
        Err(_) => Err(Fail::new("the rule file is refused")),
    }
}

// A play's first bytes; zeros follow.
pub fn add_play(bytes: &mut Vec<u8>, start: [u8; 7]) -> Result<(), Fail> {
    bytes.extend_from_slice(&start)?;
    bytes.extend_from_slice(&[0; 89])?;
    Ok(())
}

// The marks and the first marked play; a refusal fails the test.
pub fn tried(
    heap: Global,
    docket: &Docket,
    part: Part,
    property: &[u16],
    plays: &[u8],
) -> Result<(u64, Option<usize>), Fail> {
    let property = bytes_of(heap, property)?;
    let mut settings = vec![in heap; 9; 96]?;
    let mut values = vec![in heap; Wide::open(); 3392]?;
    let mut cases = vec![in heap; Case::default(); 97]?;
    let answer = trial(
        docket,
        part,
        property.as_slice(),
        plays,
        settings.as_mut_slice(),
        values.as_mut_slice(),
        cases.as_mut_slice(),
    );
    match answer {
        Ok(answer) => Ok((answer.marks, answer.first)),
        Err(_) => Err(Fail::new("the trial is refused")),
    }
}
