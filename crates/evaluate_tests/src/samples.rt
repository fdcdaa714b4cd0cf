// Rule files to evaluate.
use rules::faults::Refusal;
use rules::opened::Rules;
use rules::opening::open;
use std::alloc::Global;
use std::test::Fail;
use worked::words::bytes_of;

// One fluent, one role with one move. Further atoms: 6 if 6 itself; 7 if 8, 8 if 9, 9 if the fluent, all in one stratum, so that the
// rounds matter; 10 in a higher stratum if not 7; 11 if 12 and 12 if 11 or the fluent: a cycle with support from outside.
pub const TANGLED: [u16; 83] = [
    1, 1, 1, 12, 8, 8, 1, 0, 0, 0, 1, 1, 0, 0, 1, 0, 1, 0, 0, 1, 0, 0, 1, 0, 1, 1, 0, 2, 1, 0, 3,
    1, 0, 4, 2, 0, 5, 1, 0, 6, 1, 0, 7, 0, 1, 0, 2, 0, 3, 0, 4, 0, 5, 0, 6, 8, 7, 0, 8, 6, 0, 0, 8,
    0, 0, 9, 0, 0, 1, 0, 0, 7, 1, 0, 12, 0, 0, 11, 0, 0, 1, 0, 0,
];

pub fn opened(heap: Global, words: &[u16]) -> Result<Rules, Fail> {
    let bytes = bytes_of(heap, words)?;
    match open(heap, bytes.as_slice()) {
        Ok(rules) => Ok(rules),
        Err(Refusal::Memory) => Err(Fail::new("no memory")),
        Err(Refusal::Faulty(_)) => Err(Fail::new("the rule file is refused")),
    }
}
