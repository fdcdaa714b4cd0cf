use crate::files::{answer, open_rules, told};
use std::alloc::{AllocError, Global};
use std::test::Fail;

// As many records (1 1 0) as the length has room for, and zeros behind them.
fn atoms(heap: Global, length: usize) -> Result<Vec<u8>, AllocError> {
    let mut bytes = Vec::new(heap);
    for i in 0..length {
        bytes.push(if i % 6 == 1 || i % 6 == 3 { 1 } else { 0 })?;
    }
    Ok(bytes)
}

#[test]
fn one_to_64_records(rt: HostRuntime) -> Result<(), Fail> {
    let heap = rt.alloc();
    let rules = open_rules(heap)?;
    for length in [6, 12, 60, 66, 378, 384] {
        assert_eq!(rt; answer(&rules, atoms(heap, length)?.as_slice()), Ok(0));
    }
    Ok(())
}

#[test]
fn other_lengths(rt: HostRuntime) -> Result<(), Fail> {
    let heap = rt.alloc();
    let rules = open_rules(heap)?;
    for length in [0, 1, 5, 7, 8, 63, 64, 65, 383, 385, 390, 396] {
        assert_eq!(rt;
            answer(&rules, atoms(heap, length)?.as_slice()),
            told(11, length)
        );
    }
    Ok(())
}
