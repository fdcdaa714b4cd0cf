use crate::calls::Session;
use docket::opening::open;
use play::part::Part;
use std::io;

// The worked rule file, as the bytes of a file, since a file is what the program opens. A price is live or old; its feed makes a fresh tick or a late one, and a fresh tick makes it live, a late one old.
pub static WORKED: [u8; 96] = [
    // version 1, 2 fluents, 1 role, 9 atoms, 4 rules, 2 literals
    0, 1, 0, 2, 0, 1, 0, 9, 0, 4, 0, 2,
    // the role has 2 moves
    0, 2,
    // atoms: stratum, mark, first rule
    0, 0, 0, 2, 0, 0, 0, 0, 0, 0, 0, 0, 0, 1, 0, 1, 0, 1, 0, 1, 0, 1, 0, 2, 0, 0, 0, 1, 0, 0, 0, 0,
    0, 1, 0, 0, 0, 1, 0, 0, 0, 3, 0, 1, 0, 0, 0, 4, 0, 1, 0, 0, 0, 0,
    // rules: next rule, first literal
    0, 0, 0, 1, 0, 0, 0, 2, 0, 0, 0, 0, 0, 0, 0, 0,
    // literals: atom, sign, next literal
    0, 5, 0, 0, 0, 0, 0, 6, 0, 0, 0, 0,
];

// The second worked file: the first with one more rule, by which a price that is live and not old stays live.
static SECOND: [u8; 112] = [
    0, 1, 0, 2, 0, 1, 0, 9, 0, 5, 0, 4, 0, 2, 0, 0, 0, 2, 0, 0, 0, 0, 0, 0, 0, 0, 0, 1, 0, 1, 0, 1,
    0, 1, 0, 1, 0, 2, 0, 0, 0, 1, 0, 0, 0, 0, 0, 1, 0, 0, 0, 1, 0, 0, 0, 3, 0, 1, 0, 0, 0, 4, 0, 1,
    0, 0, 0, 0, 0, 5, 0, 1, 0, 0, 0, 2, 0, 0, 0, 0, 0, 0, 0, 0, 0, 0, 0, 3, 0, 5, 0, 0, 0, 0, 0, 6,
    0, 0, 0, 0, 0, 1, 0, 0, 0, 4, 0, 2, 0, 1, 0, 0,
];

// Not both live and old.
static NOT_BOTH: [u8; 24] = [
    0, 2, 0, 2, 0, 0, 0, 3, 0, 3, 0, 0, 0, 1, 0, 1, 0, 4, 0, 1, 0, 2, 0, 0,
];

// How the two plays begin: from live, a fresh tick and a late one. Zeros follow.
static STARTS: [[u8; 3]; 2] = [[1, 0, 1], [1, 0, 2]];

// Tries the two plays on the second worked file against the step of 'not both live and old'.
pub fn trial(rt: &HostRuntime) -> io::Result<()> {
    let heap = rt.alloc();
    let mut plays = Vec::new(heap);
    for start in STARTS {
        plays.extend_from_slice(&start)?;
        plays.extend_from_slice(&[0; 93])?;
    }
    println!(rt;
        "the second worked file, step of 'not both live and old', plays 1 0 1 and 1 0 2:"
    )?;
    let Ok(docket) = open(heap, &SECOND) else {
        return println!(rt; "error: the second worked file is refused");
    };
    let mut session = Session::new(heap, &docket)?;
    match session.tried(Part::Step, &NOT_BOTH, plays.as_slice()) {
        Ok(marked) => println!(rt; "{marked}"),
        Err(_) => println!(rt; "error: the trial of the worked plays is refused"),
    }
}
