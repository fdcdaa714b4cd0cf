// Levels over both truth forms.
use crate::samples::{TANGLED, opened};
use evaluate::grid::Grid;
use evaluate::indexed::Indexed;
use evaluate::strata::Strata;
use std::test::Fail;
use truth::form::TruthForm;
use truth::three::Three;
use truth::wide::Wide;
use worked::files::SECOND;

const VALUES: usize = 3392;

// With the fluent open an atom that only supports itself is no; what rests on the fluent is open.
#[test]
fn open_inputs(rt: HostRuntime) -> Result<(), Fail> {
    let heap = rt.alloc();
    let rules = opened(heap, &TANGLED)?;
    let strata = Strata::of(heap, &rules)?;
    let indexed = Indexed {
        rules: &rules,
        strata: &strata,
    };
    let mut values = vec![in heap; Three::Open; VALUES]?;
    assert!(rt; values.len() == VALUES);
    let mut grid = Grid {
        values: values.as_mut_slice(),
    };
    grid.play(indexed, 0);
    assert!(rt; matches!(values.get(5), Some(Three::No)));
    for atom in [6, 7, 8, 9, 10, 11] {
        assert!(rt; matches!(values.get(atom), Some(Three::Open)));
    }
    Ok(())
}

// Four plays of the second file at once, a world each: from live or from both, with a fresh or a late tick; then a fresh tick in all.
#[test]
fn worlds_at_once(rt: HostRuntime) -> Result<(), Fail> {
    let heap = rt.alloc();
    let rules = opened(heap, &SECOND)?;
    let strata = Strata::of(heap, &rules)?;
    let indexed = Indexed {
        rules: &rules,
        strata: &strata,
    };
    let mut values = vec![in heap; Wide::no(); VALUES]?;
    put(&mut values, 0, Wide::settled(0b1111));
    put(&mut values, 1, Wide::settled(0b1100));
    put(&mut values, 4, Wide::settled(0b0101));
    put(&mut values, 5, Wide::settled(0b1010));
    put(&mut values, 516, Wide::settled(0b1111));
    assert!(rt; values.len() == VALUES);
    let mut grid = Grid {
        values: values.as_mut_slice(),
    };
    grid.play(indexed, 2);
    // level 1: live where fresh, or where it was live and not old; old where late
    assert_eq!(rt; yes(&values, 512), 0b0111);
    assert_eq!(rt; yes(&values, 513), 0b1010);
    // level 2: live in all
    assert_eq!(rt; yes(&values, 1024), 0b1111);
    assert_eq!(rt; yes(&values, 1025), 0);
    Ok(())
}

fn put(values: &mut Vec<Wide>, at: usize, value: Wide) {
    if let Some(place) = values.get_mut(at) {
        *place = value;
    }
}

fn yes(values: &Vec<Wide>, at: usize) -> u64 {
    match values.get(at) {
        Some(value) => value.may_be_yes() & 0b1111,
        None => u64::MAX,
    }
}
