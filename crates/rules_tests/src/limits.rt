// Lengths, and each count at its limits.
use crate::files::{SMALL, Size, answer, put};
use std::test::Fail;
use worked::files::FIRST;
use worked::words::bytes_of;

#[test]
fn lengths(rt: HostRuntime) -> Result<(), Fail> {
    let mut bytes = bytes_of(rt.alloc(), &FIRST)?;
    assert!(rt; bytes.len() == 96);
    for length in 0..96 {
        let number = if length < 12 { 1 } else { 4 };
        assert_eq!(rt;
            answer(&bytes.as_slice()[0..length]),
            Some((number, length))
        );
    }
    assert_eq!(rt; answer(bytes.as_slice()), None);
    bytes.push(0)?;
    assert_eq!(rt; answer(bytes.as_slice()), Some((4, 97)));
    Ok(())
}

// A size, and the number and place of the fault, if there is one.
const SIZES: [(Size, Option<(u8, usize)>); 17] = [
    (SMALL, None),
    (
        Size {
            fluents: 0,
            roles: 1,
            moves: 1,
            atoms: 5,
            rules: 0,
            literals: 0,
        },
        Some((3, 2)),
    ),
    (
        Size {
            fluents: 64,
            roles: 1,
            moves: 1,
            atoms: 131,
            rules: 0,
            literals: 0,
        },
        None,
    ),
    (
        Size {
            fluents: 64,
            roles: 1,
            moves: 1,
            atoms: 130,
            rules: 0,
            literals: 0,
        },
        Some((5, 6)),
    ),
    (
        Size {
            fluents: 65,
            roles: 1,
            moves: 1,
            atoms: 133,
            rules: 0,
            literals: 0,
        },
        Some((3, 2)),
    ),
    (
        Size {
            fluents: 1,
            roles: 8,
            moves: 1,
            atoms: 19,
            rules: 0,
            literals: 0,
        },
        None,
    ),
    (
        Size {
            fluents: 1,
            roles: 8,
            moves: 1,
            atoms: 18,
            rules: 0,
            literals: 0,
        },
        Some((5, 6)),
    ),
    (
        Size {
            fluents: 1,
            roles: 9,
            moves: 1,
            atoms: 21,
            rules: 0,
            literals: 0,
        },
        Some((3, 4)),
    ),
    (
        Size {
            fluents: 1,
            roles: 1,
            moves: 32,
            atoms: 67,
            rules: 0,
            literals: 0,
        },
        None,
    ),
    (
        Size {
            fluents: 1,
            roles: 1,
            moves: 33,
            atoms: 69,
            rules: 0,
            literals: 0,
        },
        Some((5, 12)),
    ),
    (
        Size {
            fluents: 1,
            roles: 1,
            moves: 0,
            atoms: 5,
            rules: 0,
            literals: 0,
        },
        Some((5, 12)),
    ),
    (
        Size {
            fluents: 64,
            roles: 8,
            moves: 16,
            atoms: 512,
            rules: 0,
            literals: 0,
        },
        None,
    ),
    (
        Size {
            fluents: 64,
            roles: 8,
            moves: 16,
            atoms: 513,
            rules: 0,
            literals: 0,
        },
        Some((3, 6)),
    ),
    (
        Size {
            fluents: 1,
            roles: 1,
            moves: 1,
            atoms: 5,
            rules: 2048,
            literals: 0,
        },
        None,
    ),
    (
        Size {
            fluents: 1,
            roles: 1,
            moves: 1,
            atoms: 5,
            rules: 2049,
            literals: 0,
        },
        Some((3, 8)),
    ),
    (
        Size {
            fluents: 1,
            roles: 1,
            moves: 1,
            atoms: 5,
            rules: 0,
            literals: 8000,
        },
        None,
    ),
    (
        Size {
            fluents: 1,
            roles: 1,
            moves: 1,
            atoms: 5,
            rules: 0,
            literals: 8001,
        },
        Some((3, 10)),
    ),
];

#[test]
fn sizes(rt: HostRuntime) -> Result<(), Fail> {
    for (size, fault) in SIZES {
        let bytes = size.file(rt.alloc())?;
        assert_eq!(rt; answer(bytes.as_slice()), fault);
    }
    Ok(())
}

#[test]
fn the_largest_file(rt: HostRuntime) -> Result<(), Fail> {
    let size = Size {
        fluents: 64,
        roles: 8,
        moves: 16,
        atoms: 512,
        rules: 2048,
        literals: 8000,
    };
    let mut bytes = size.file(rt.alloc())?;
    assert_eq!(rt; bytes.len(), 59292);
    assert_eq!(rt; answer(bytes.as_slice()), None);
    // the last rule may name the last literal, and nothing past it
    let last_rule = 2 * (14 + 3 * 512 + 2 * 2047);
    put(&mut bytes, last_rule + 2, 8000);
    assert_eq!(rt; answer(bytes.as_slice()), None);
    put(&mut bytes, last_rule + 2, 8001);
    assert_eq!(rt; answer(bytes.as_slice()), Some((7, last_rule + 2)));
    put(&mut bytes, last_rule, 2048);
    assert_eq!(rt; answer(bytes.as_slice()), Some((7, last_rule)));
    Ok(())
}
