// Which atoms are true in a position when a joint move is made.
use crate::samples::{TANGLED, opened};
use evaluate::indexed::Indexed;
use evaluate::models::model;
use evaluate::strata::Strata;
use std::process::Abort;
use std::test::Fail;
use truth::three::Three;
use worked::files::{FIRST, SECOND};

const VALUES: usize = 3392;

// The numbers of the atoms that are true, as bits: bit a for atom a, numbered from 1.
fn bits(values: &[Three]) -> u64 {
    let mut all = 0u64;
    let mut bit = 2u64;
    for value in values.iter().take(20) {
        if matches!(value, Three::Yes) {
            all |= bit;
        }
        bit = bit.wrapping_mul(2);
    }
    all
}

// The true atoms of a rule file, in a position, after a joint move.
fn truths(
    rt: &(impl Abort + AllocGlobal),
    words: &[u16],
    position: &[bool],
    joint: &[u16],
) -> Result<u64, Fail> {
    let heap = rt.alloc();
    let rules = opened(heap, words)?;
    let strata = Strata::of(heap, &rules)?;
    let indexed = Indexed {
        rules: &rules,
        strata: &strata,
    };
    let mut values = vec![in heap; Three::Open; VALUES]?;
    assert!(rt; model(indexed, position, joint, values.as_mut_slice()).is_ok());
    Ok(bits(values.as_slice()))
}

#[test]
fn worked_files(rt: HostRuntime) -> Result<(), Fail> {
    let legal = 0b1_1000_0000;
    // live, fresh: live next
    assert_eq!(rt;
        truths(&rt, &FIRST, &[true, false], &[1])?,
        0b10 | 0b1000 | 0b10_0000 | legal
    );
    // live, late: old next
    assert_eq!(rt;
        truths(&rt, &FIRST, &[true, false], &[2])?,
        0b10 | 0b1_0000 | 0b100_0000 | legal
    );
    // in the second file a live price that is not old stays live as well
    assert_eq!(rt;
        truths(&rt, &SECOND, &[true, false], &[2])?,
        0b10 | 0b1000 | 0b1_0000 | 0b100_0000 | legal
    );
    assert_eq!(rt;
        truths(&rt, &SECOND, &[true, true], &[2])?,
        0b110 | 0b1_0000 | 0b100_0000 | legal
    );
    Ok(())
}

#[test]
fn recursion_and_negation(rt: HostRuntime) -> Result<(), Fail> {
    // with the fluent: 7, 8, 9 and the supported cycle 11, 12; not 6, and not 10
    assert_eq!(rt; truths(&rt, &TANGLED, &[true], &[1])?, 0b1_1011_1000_1010);
    // without it nothing has support, and 10 is true
    assert_eq!(rt; truths(&rt, &TANGLED, &[false], &[1])?, 0b100_0000_1000);
    Ok(())
}

#[test]
fn what_does_not_fit_is_refused(rt: HostRuntime) -> Result<(), Fail> {
    let heap = rt.alloc();
    let rules = opened(heap, &FIRST)?;
    let strata = Strata::of(heap, &rules)?;
    let indexed = Indexed {
        rules: &rules,
        strata: &strata,
    };
    let mut values = vec![in heap; Three::Open; VALUES]?;
    for (position, joint) in [
        (&[true][..], &[1][..]),
        (&[true, false][..], &[0][..]),
        (&[true, false][..], &[3][..]),
        (&[true, false][..], &[1, 1][..]),
    ] {
        assert!(rt; model(indexed, position, joint, values.as_mut_slice()).is_err());
    }
    let mut few = vec![in heap; Three::Open; 3071]?;
    assert!(rt; model(indexed, &[true, false], &[1], few.as_mut_slice()).is_err());
    Ok(())
}
