// Which plays break which parts.
use crate::samples::{COUNTDOWN, STUCK, add_play, opened, tried};
use play::part::Part;
use std::test::Fail;
use worked::files::SECOND;

// Not both live and old: a late tick from live breaks the step, a fresh one does not.
#[test]
fn worked_plays(rt: HostRuntime) -> Result<(), Fail> {
    let heap = rt.alloc();
    let docket = opened(heap, &SECOND)?;
    let not_both = [2, 2, 0, 3, 3, 0, 1, 1, 4, 1, 2, 0];
    let mut plays = Vec::new(heap);
    add_play(&mut plays, [1, 0, 1, 0, 0, 0, 0])?;
    add_play(&mut plays, [1, 0, 2, 0, 0, 0, 0])?;
    assert_eq!(rt;
        tried(heap, &docket, Part::Step, &not_both, plays.as_slice())?,
        (2, Some(1))
    );
    let mut base = Vec::new(heap);
    add_play(&mut base, [1, 0, 0, 0, 0, 0, 0])?;
    assert_eq!(rt;
        tried(heap, &docket, Part::Base, &not_both, base.as_slice())?,
        (0, None)
    );
    Ok(())
}

// All 64 worlds hold a play of their own.
#[test]
fn sixty_four_plays(rt: HostRuntime) -> Result<(), Fail> {
    let heap = rt.alloc();
    let docket = opened(heap, &SECOND)?;
    let mut plays = Vec::new(heap);
    for k in 0..64 {
        add_play(
            &mut plays,
            [1, 0, if k == 40 || k == 63 { 2 } else { 1 }, 0, 0, 0, 0],
        )?;
    }
    let both = [2, 2, 0, 3, 3, 0, 1, 1, 4, 1, 2, 0];
    assert_eq!(rt;
        tried(heap, &docket, Part::Step, &both, plays.as_slice())?,
        (0x8000_0100_0000_0000, Some(40))
    );
    Ok(())
}

// Bases on the countdown: property records, how many moves, and whether the play breaks the base.
#[test]
fn runs_that_end(rt: HostRuntime) -> Result<(), Fail> {
    let heap = rt.alloc();
    let docket = opened(heap, &COUNTDOWN)?;
    let mut two = Vec::new(heap);
    add_play(&mut two, [1, 0, 0, 1, 1, 0, 0])?;
    // the third fluent after two moves, and not the first
    assert_eq!(rt;
        tried(
            heap,
            &docket,
            Part::Base,
            &[4, 2, 0, 4, 3, 0, 1, 3, 0],
            two.as_slice(),
        )?,
        (0, None)
    );
    assert_eq!(rt;
        tried(
            heap,
            &docket,
            Part::Base,
            &[4, 2, 0, 4, 3, 0, 1, 1, 0],
            two.as_slice(),
        )?,
        (1, Some(0))
    );
    // the run ends after two moves: whatever would follow a third is true
    let mut three = Vec::new(heap);
    add_play(&mut three, [1, 0, 0, 1, 1, 1, 0])?;
    assert_eq!(rt;
        tried(
            heap,
            &docket,
            Part::Base,
            &[4, 2, 0, 4, 3, 0, 4, 4, 0, 1, 1, 0],
            three.as_slice(),
        )?,
        (0, None)
    );
    // not-following fails there, following-not does not
    assert_eq!(rt;
        tried(
            heap,
            &docket,
            Part::Base,
            &[4, 2, 0, 4, 3, 0, 2, 4, 0, 4, 5, 0, 1, 1, 0],
            three.as_slice(),
        )?,
        (1, Some(0))
    );
    assert_eq!(rt;
        tried(
            heap,
            &docket,
            Part::Base,
            &[4, 2, 0, 4, 3, 0, 4, 4, 0, 2, 5, 0, 1, 1, 0],
            three.as_slice(),
        )?,
        (0, None)
    );
    Ok(())
}

// A play whose run makes a move that is not legal breaks nothing.
#[test]
fn stuck_positions(rt: HostRuntime) -> Result<(), Fail> {
    let heap = rt.alloc();
    let docket = opened(heap, &STUCK)?;
    let mut plays = Vec::new(heap);
    // from the first fluent the move is legal, and then the first is false; from the second it is not legal
    add_play(&mut plays, [1, 0, 0, 1, 0, 0, 0])?;
    add_play(&mut plays, [0, 1, 0, 1, 0, 0, 0])?;
    assert_eq!(rt;
        tried(heap, &docket, Part::Step, &[1, 1, 0], plays.as_slice())?,
        (1, Some(0))
    );
    assert_eq!(rt;
        tried(heap, &docket, Part::Step, &[1, 2, 0], plays.as_slice())?,
        (0, None)
    );
    Ok(())
}
