use crate::files::{answer, check_rows, open_rules, refuses, takes};
use property::reading::read;
use property::records::{Formula, Record};
use std::test::Fail;
use worked::words::bytes_of;

#[test]
fn followings(rt: HostRuntime) -> Result<(), Fail> {
    check_rows(
        &rt,
        rt.alloc(),
        &[
            takes(&[4, 2, 0, 4, 3, 0, 4, 4, 0, 1, 1, 0], 3),
            refuses(&[4, 2, 0, 4, 3, 0, 4, 4, 0, 4, 5, 0, 1, 1, 0], 13, 0),
            takes(&[4, 2, 0, 2, 3, 0, 4, 4, 0, 2, 5, 0, 4, 6, 0, 1, 1, 0], 3),
            takes(&[4, 2, 0, 3, 3, 0, 4, 5, 4, 1, 1, 0, 4, 6, 0, 1, 1, 0], 3),
            refuses(
                &[
                    4, 2, 0, 3, 3, 0, 4, 5, 4, 1, 1, 0, 4, 6, 0, 4, 7, 0, 1, 1, 0,
                ],
                13,
                0,
            ),
        ],
    )
}

// Along a chain each operand; the followings of one path, not of several.
#[test]
fn most_on_a_path(rt: HostRuntime) -> Result<(), Fail> {
    check_rows(
        &rt,
        rt.alloc(),
        &[
            takes(&[3, 2, 0, 1, 1, 3, 4, 4, 0, 1, 1, 0], 1),
            takes(&[3, 2, 0, 4, 6, 3, 4, 6, 4, 4, 6, 5, 4, 6, 0, 1, 1, 0], 1),
            takes(&[3, 2, 0, 4, 4, 3, 2, 4, 0, 4, 5, 0, 1, 1, 0], 2),
        ],
    )
}

// Records that no path reaches, and a next that is on no chain.
#[test]
fn off_every_path(rt: HostRuntime) -> Result<(), Fail> {
    check_rows(
        &rt,
        rt.alloc(),
        &[
            takes(&[1, 1, 0, 4, 3, 0, 4, 4, 0, 4, 5, 0, 4, 6, 0, 1, 1, 0], 0),
            takes(&[1, 1, 2, 4, 3, 0, 4, 4, 0, 4, 5, 0, 4, 6, 0, 1, 1, 0], 0),
            takes(
                &[
                    2, 2, 0, 1, 1, 3, 4, 4, 0, 4, 5, 0, 4, 6, 0, 4, 7, 0, 1, 1, 0,
                ],
                0,
            ),
        ],
    )
}

// Not both live and old.
#[test]
fn typed(rt: HostRuntime) -> Result<(), Fail> {
    let heap = rt.alloc();
    let rules = open_rules(heap)?;
    let bytes = bytes_of(heap, &[2, 2, 0, 3, 3, 0, 1, 1, 4, 1, 2, 0])?;
    let property = read(&rules, bytes.as_slice())?;
    let expected = [
        Record {
            formula: Formula::Not(2),
            next: 0,
        },
        Record {
            formula: Formula::All(3),
            next: 0,
        },
        Record {
            formula: Formula::Atom(1),
            next: 4,
        },
        Record {
            formula: Formula::Atom(2),
            next: 0,
        },
    ];
    assert!(rt; property.records() == &expected[0..4]);
    assert_eq!(rt; property.degree(), 0);
    Ok(())
}

// Two million paths lead to the last of these 64 records: each is looked at once.
#[test]
fn shared(rt: HostRuntime) -> Result<(), Fail> {
    let heap = rt.alloc();
    let rules = open_rules(heap)?;
    let mut bytes = Vec::new(heap);
    for i in 0..21 {
        let first = 3 * i + 1;
        for byte in [
            0,
            3,
            0,
            first + 1,
            0,
            0,
            0,
            2,
            0,
            first + 3,
            0,
            first + 2,
            0,
            2,
            0,
            first + 3,
            0,
            0,
        ] {
            bytes.push(byte)?;
        }
    }
    for byte in [0, 1, 0, 1, 0, 0] {
        bytes.push(byte)?;
    }
    assert_eq!(rt; bytes.len(), 384);
    assert_eq!(rt; answer(&rules, bytes.as_slice()), Ok(0));
    Ok(())
}
