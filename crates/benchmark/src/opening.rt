// Opening: the largest rule file, with every chain shared.
use crate::timing::Timing;
use rules::checks::check;
use rules::opening::open;
use std::alloc::{AllocError, Global};
use std::io;
use worked::words::add;

const ATOMS: u16 = 512;

const RULES: u16 = 2048;

const LITERALS: u16 = 8000;

const TURNS: u16 = 200;

// 64 fluents, 8 roles with 16 moves each. Every atom that may have rules has all of them, and every rule has all literals as its body.
// The last literal names `last`.
fn shared(heap: Global, last: u16) -> Result<Vec<u8>, AllocError> {
    let mut bytes = Vec::new(heap);
    add(&mut bytes, &[1, 64, 8, ATOMS, RULES, LITERALS])?;
    add(&mut bytes, &[16; 8])?;
    for atom in 1..=ATOMS {
        match atom {
            1..=64 => add(&mut bytes, &[0, 0, 0])?,
            65..=128 => add(&mut bytes, &[1, 1, 1])?,
            129..=256 => add(&mut bytes, &[0, 1, 0])?,
            _ => add(&mut bytes, &[1, 0, 1])?,
        }
    }
    for rule in 1..=RULES {
        let next = if rule < RULES { rule + 1 } else { 0 };
        add(&mut bytes, &[next, 1])?;
    }
    for literal in 1..=LITERALS {
        if literal < LITERALS {
            add(&mut bytes, &[1, 0, literal + 1])?;
        } else {
            add(&mut bytes, &[last, 0, 0])?;
        }
    }
    Ok(bytes)
}

pub fn run(rt: &HostRuntime) -> io::Result<()> {
    // every literal names a fluent: taken
    let good = shared(rt.alloc(), 1)?;
    let length = good.len();
    let checked = Timing::of(rt, TURNS, || check(good.as_slice()).is_ok())?;
    eprintln!(rt; "check, {length} bytes, all chains shared: {checked}")?;
    let opened = Timing::of(rt, TURNS, || open(rt.alloc(), good.as_slice()).is_ok())?;
    eprintln!(rt; "open, the same: {opened}")?;
    // the last literal names a does atom, which no still head takes: the place is found by walking
    let bad = shared(rt.alloc(), 129)?;
    let checked = Timing::of(rt, TURNS, || check(bad.as_slice()).is_ok())?;
    eprintln!(rt; "check, the last literal broken: {checked}")
}
