// Plays of the first worked rule file: two fluents, of which the first is true at the start, and one role with two moves.
use play::bytes::check;
use play::faults::Fault;
use play::part::Part;
use play::plays::Plays;
use rules::opened::Rules;
use rules::opening::open;
use std::alloc::Global;
use std::test::Fail;
use worked::files::FIRST;
use worked::words::bytes_of;

fn opened(heap: Global) -> Result<Rules, Fail> {
    let bytes = bytes_of(heap, &FIRST)?;
    match open(heap, bytes.as_slice()) {
        Ok(rules) => Ok(rules),
        Err(_) => Err(Fail::new("the worked rule file is refused")),
    }
}

// So many plays that begin with these bytes, and go on with zeros.
fn plays(heap: Global, count: usize, start: [u8; 7]) -> Result<Vec<u8>, Fail> {
    let mut bytes = Vec::new(heap);
    for _ in 0..count {
        bytes.extend_from_slice(&start)?;
        bytes.extend_from_slice(&[0; 89])?;
    }
    Ok(bytes)
}

// How many plays there are, or the fault's number and place.
fn answer(rules: &Rules, part: Part, levels: u16, bytes: &[u8]) -> Result<usize, (u8, usize)> {
    match check(rules, part, levels, bytes) {
        Ok(count) => Ok(count),
        Err(fault) => {
            let report = fault.report();
            Err((report.number, report.place))
        }
    }
}

#[test]
fn lengths(rt: HostRuntime) -> Result<(), Fail> {
    let rules = opened(rt.alloc())?;
    for (count, expected) in [
        (0, Err((23, 0))),
        (1, Ok(1)),
        (2, Ok(2)),
        (64, Ok(64)),
        (65, Err((23, 6240))),
    ] {
        let bytes = plays(rt.alloc(), count, [1, 0, 2, 0, 0, 0, 0])?;
        assert_eq!(rt; answer(&rules, Part::Step, 1, bytes.as_slice()), expected);
    }
    let mut bytes = plays(rt.alloc(), 1, [1, 0, 2, 0, 0, 0, 0])?;
    bytes.push(0)?;
    assert_eq!(rt;
        answer(&rules, Part::Step, 1, bytes.as_slice()),
        Err((23, 97))
    );
    bytes.truncate(95);
    assert_eq!(rt;
        answer(&rules, Part::Step, 1, bytes.as_slice()),
        Err((23, 95))
    );
    Ok(())
}

// The part, how many levels, the first bytes, and the answer.
const STARTS: [(Part, u16, [u8; 7], Result<usize, (u8, usize)>); 18] = [
    (Part::Step, 1, [1, 0, 1, 0, 0, 0, 0], Ok(1)),
    (Part::Step, 1, [0, 1, 2, 0, 0, 0, 0], Ok(1)),
    (Part::Step, 1, [2, 0, 1, 0, 0, 0, 0], Err((24, 0))),
    (Part::Step, 1, [1, 2, 1, 0, 0, 0, 0], Err((24, 1))),
    (Part::Step, 1, [1, 0, 0, 0, 0, 0, 0], Err((24, 2))),
    (Part::Step, 1, [1, 0, 3, 0, 0, 0, 0], Err((24, 2))),
    (Part::Step, 1, [1, 0, 1, 1, 0, 0, 0], Err((24, 3))),
    (Part::Step, 4, [1, 0, 1, 2, 1, 2, 0], Ok(1)),
    (Part::Step, 4, [1, 0, 1, 2, 1, 3, 0], Err((24, 5))),
    (Part::Step, 4, [1, 0, 1, 2, 1, 0, 0], Err((24, 5))),
    (Part::Step, 4, [1, 0, 1, 2, 1, 2, 9], Err((24, 6))),
    (Part::Base, 0, [1, 0, 0, 0, 0, 0, 0], Ok(1)),
    (Part::Base, 0, [0, 0, 0, 0, 0, 0, 0], Err((24, 0))),
    (Part::Base, 0, [1, 1, 0, 0, 0, 0, 0], Err((24, 1))),
    (Part::Base, 0, [1, 0, 1, 0, 0, 0, 0], Err((24, 2))),
    (Part::Base, 1, [1, 0, 2, 0, 0, 0, 0], Ok(1)),
    (Part::Base, 1, [1, 0, 0, 0, 0, 0, 0], Err((24, 2))),
    (Part::Base, 1, [2, 0, 0, 0, 0, 0, 0], Err((24, 0))),
];

#[test]
fn bytes_of_a_play(rt: HostRuntime) -> Result<(), Fail> {
    let rules = opened(rt.alloc())?;
    for (part, levels, start, expected) in STARTS {
        let bytes = plays(rt.alloc(), 1, start)?;
        assert_eq!(rt; answer(&rules, part, levels, bytes.as_slice()), expected);
    }
    Ok(())
}

#[test]
fn places_count_over_all_plays(rt: HostRuntime) -> Result<(), Fail> {
    let rules = opened(rt.alloc())?;
    let mut bytes = plays(rt.alloc(), 3, [1, 0, 2, 0, 0, 0, 0])?;
    if let Some(b) = bytes.get_mut(287) {
        *b = 1;
    }
    assert_eq!(rt;
        answer(&rules, Part::Step, 1, bytes.as_slice()),
        Err((24, 287))
    );
    if let Some(b) = bytes.get_mut(98) {
        *b = 3;
    }
    assert_eq!(rt;
        answer(&rules, Part::Step, 1, bytes.as_slice()),
        Err((24, 98))
    );
    Ok(())
}

#[test]
fn as_a_value(rt: HostRuntime) -> Result<(), Fail> {
    let rules = opened(rt.alloc())?;
    let bytes = plays(rt.alloc(), 3, [1, 0, 2, 0, 0, 0, 0])?;
    let plays = Plays::read(&rules, Part::Step, 1, bytes.as_slice())?;
    assert_eq!(rt; plays.count(), 3);
    for k in 0..plays.count() {
        assert_eq!(rt; plays.byte(k, 0), 1);
        assert_eq!(rt; plays.byte(k, 2), 2);
        assert_eq!(rt; plays.byte(k, 95), 0);
    }
    Ok(())
}

#[test]
fn as_no_value(rt: HostRuntime) -> Result<(), Fail> {
    let rules = opened(rt.alloc())?;
    let bytes = plays(rt.alloc(), 3, [1, 0, 3, 0, 0, 0, 0])?;
    let answer = Plays::read(&rules, Part::Step, 1, bytes.as_slice());
    assert_eq!(rt; answer.map(|plays| plays.count()), Err(Fault::Byte(2)));
    Ok(())
}
