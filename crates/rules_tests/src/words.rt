// One word changed in a worked file, and what comes of it.
use crate::files::{answer, put};
use rules::faults::Refusal;
use rules::opened::Rules;
use rules::opening::open;
use rules::records::{Mark, Sign};
use std::process::Abort;
use std::test::Fail;
use worked::files::{FIRST, SECOND};
use worked::words::bytes_of;

#[test]
fn worked_files_are_taken(rt: HostRuntime) -> Result<(), Fail> {
    let first = bytes_of(rt.alloc(), &FIRST)?;
    assert_eq!(rt; first.len(), 96);
    let second = bytes_of(rt.alloc(), &SECOND)?;
    assert_eq!(rt; second.len(), 112);
    assert_eq!(rt; answer(second.as_slice()), None);
    match open(rt.alloc(), first.as_slice()) {
        Ok(rules) => holds_the_first(&rt, &rules),
        Err(_) => Err(Fail::new("the first worked file is refused")),
    }
}

fn holds_the_first(rt: &impl Abort, rules: &Rules) -> Result<(), Fail> {
    assert_eq!(rt; rules.layout().moves, 2);
    let atoms = rules.atoms();
    assert!(rt; atoms.len() == 9);
    assert!(rt; matches!(atoms[0].mark, Mark::Initial) && matches!(atoms[2].mark, Mark::Dependent));
    assert_eq!(rt; (atoms[3].stratum, atoms[3].first), (1, 2));
    let records = rules.rules();
    assert!(rt; records.len() == 4);
    assert_eq!(rt; (records[1].next, records[1].first), (0, 2));
    let literals = rules.literals();
    assert!(rt; literals.len() == 2);
    assert!(rt; literals[1].atom == 6 && matches!(literals[1].sign, Sign::Plain));
    Ok(())
}

// Offset, new word, then the number and place of the fault; none where the file is still taken.
const CHANGES: [(usize, u16, Option<(u8, usize)>); 68] = [
    // version and counts
    (0, 0, Some((2, 0))),
    (0, 2, Some((2, 0))),
    (2, 0, Some((3, 2))),
    (2, 65, Some((3, 2))),
    (2, 64, Some((5, 6))),
    (2, 1, Some((6, 20))),
    (4, 0, Some((3, 4))),
    (4, 9, Some((3, 4))),
    (4, 8, Some((4, 96))),
    (6, 0, Some((3, 6))),
    (6, 513, Some((3, 6))),
    (6, 512, Some((4, 96))),
    (8, 2049, Some((3, 8))),
    (8, 2048, Some((4, 96))),
    (8, 0, Some((4, 96))),
    (10, 8001, Some((3, 10))),
    (10, 8000, Some((4, 96))),
    (10, 0, Some((4, 96))),
    // the move count
    (12, 0, Some((5, 12))),
    (12, 33, Some((5, 12))),
    (12, 32, Some((5, 6))),
    (12, 3, Some((5, 6))),
    (12, 1, Some((6, 44))),
    // a fluent
    (14, 1, Some((6, 14))),
    (16, 1, Some((6, 16))),
    (16, 3, Some((6, 16))),
    (16, 0, None),
    (18, 1, Some((6, 18))),
    // a next atom
    (26, 0, Some((6, 26))),
    (26, 32, Some((6, 26))),
    (26, 31, None),
    (28, 0, Some((6, 28))),
    (28, 2, Some((6, 28))),
    (30, 5, Some((6, 30))),
    (30, 4, None),
    (30, 0, None),
    // a does atom
    (38, 1, Some((6, 38))),
    (40, 0, Some((6, 40))),
    (42, 1, Some((6, 42))),
    // a legal atom, and terminal
    (50, 0, Some((6, 50))),
    (52, 1, Some((6, 52))),
    (54, 5, Some((6, 54))),
    (62, 0, Some((6, 62))),
    (62, 32, Some((6, 62))),
    (64, 1, Some((6, 64))),
    (64, 2, Some((6, 64))),
    (66, 5, Some((6, 66))),
    // rules
    (68, 1, Some((7, 68))),
    (68, 2, None),
    (68, 4, None),
    (68, 5, Some((7, 68))),
    (70, 2, None),
    (70, 3, Some((7, 70))),
    (80, 4, Some((7, 80))),
    (80, 3, Some((7, 80))),
    (82, 3, Some((7, 82))),
    // literals
    (84, 0, Some((8, 84))),
    (84, 3, Some((8, 84))),
    (84, 4, Some((8, 84))),
    (84, 9, None),
    (84, 10, Some((8, 84))),
    (86, 1, None),
    (86, 2, Some((8, 86))),
    (88, 1, Some((8, 88))),
    (88, 2, None),
    (88, 3, Some((8, 88))),
    // a still head over a does atom; its place is the literal's
    (78, 1, Some((9, 84))),
    (78, 2, Some((9, 90))),
];

#[test]
fn one_word_changed(rt: HostRuntime) -> Result<(), Fail> {
    for (place, word, fault) in CHANGES {
        let mut bytes = bytes_of(rt.alloc(), &FIRST)?;
        put(&mut bytes, place, word);
        assert_eq!(rt; answer(bytes.as_slice()), fault);
    }
    Ok(())
}

#[test]
fn conditions(rt: HostRuntime) -> Result<(), Fail> {
    // a negated atom of the head's own stratum
    let mut bytes = bytes_of(rt.alloc(), &FIRST)?;
    put(&mut bytes, 84, 9);
    put(&mut bytes, 86, 1);
    assert_eq!(rt; answer(bytes.as_slice()), Some((9, 84)));
    // the same in a higher stratum is taken
    put(&mut bytes, 26, 2);
    assert_eq!(rt; answer(bytes.as_slice()), None);
    // a plain atom of a higher stratum than the head's
    let mut bytes = bytes_of(rt.alloc(), &FIRST)?;
    put(&mut bytes, 84, 9);
    put(&mut bytes, 62, 2);
    assert_eq!(rt; answer(bytes.as_slice()), Some((9, 84)));
    // a literal that no chain reaches breaks nothing; its words are checked all the same
    let mut bytes = bytes_of(rt.alloc(), &FIRST)?;
    put(&mut bytes, 74, 0);
    put(&mut bytes, 90, 9);
    put(&mut bytes, 92, 1);
    assert_eq!(rt; answer(bytes.as_slice()), None);
    put(&mut bytes, 92, 2);
    assert_eq!(rt; answer(bytes.as_slice()), Some((8, 92)));
    Ok(())
}

#[test]
fn shared_chains(rt: HostRuntime) -> Result<(), Fail> {
    // both next atoms share the second rule, and both bodies the second literal
    let mut bytes = bytes_of(rt.alloc(), &FIRST)?;
    put(&mut bytes, 68, 2);
    put(&mut bytes, 88, 2);
    assert_eq!(rt; answer(bytes.as_slice()), None);
    // a still head that joins them: the first literal along its chains is the one that is named
    put(&mut bytes, 54, 1);
    assert_eq!(rt; answer(bytes.as_slice()), Some((9, 84)));
    put(&mut bytes, 54, 2);
    assert_eq!(rt; answer(bytes.as_slice()), Some((9, 90)));
    Ok(())
}

#[test]
fn the_first_of_several_faults(rt: HostRuntime) -> Result<(), Fail> {
    let mut bytes = bytes_of(rt.alloc(), &FIRST)?;
    put(&mut bytes, 78, 1);
    assert_eq!(rt; answer(bytes.as_slice()), Some((9, 84)));
    put(&mut bytes, 92, 7);
    assert_eq!(rt; answer(bytes.as_slice()), Some((8, 92)));
    put(&mut bytes, 82, 7);
    assert_eq!(rt; answer(bytes.as_slice()), Some((7, 82)));
    put(&mut bytes, 64, 7);
    assert_eq!(rt; answer(bytes.as_slice()), Some((6, 64)));
    put(&mut bytes, 12, 0);
    assert_eq!(rt; answer(bytes.as_slice()), Some((5, 12)));
    put(&mut bytes, 8, 5);
    assert_eq!(rt; answer(bytes.as_slice()), Some((4, 96)));
    put(&mut bytes, 10, 9000);
    assert_eq!(rt; answer(bytes.as_slice()), Some((3, 10)));
    put(&mut bytes, 0, 3);
    assert_eq!(rt; answer(bytes.as_slice()), Some((2, 0)));
    bytes.truncate(11);
    assert_eq!(rt; answer(bytes.as_slice()), Some((1, 11)));
    Ok(())
}

#[test]
fn a_fault_is_never_want_of_memory(rt: HostRuntime) -> Result<(), Fail> {
    let mut bytes = bytes_of(rt.alloc(), &FIRST)?;
    bytes.truncate(40);
    match open(rt.alloc(), bytes.as_slice()) {
        Err(Refusal::Faulty(fault)) => {
            let report = fault.report();
            assert_eq!(rt; (report.number, report.layer, report.place), (4, 1, 40));
            Ok(())
        }
        _ => Err(Fail::new("a file cut short was not refused by its length")),
    }
}
