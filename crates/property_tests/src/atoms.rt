use crate::files::{check_rows, refuses, takes};
use std::test::Fail;

// Fluents, legal atoms and terminal.
#[test]
fn still(rt: HostRuntime) -> Result<(), Fail> {
    check_rows(
        &rt,
        rt.alloc(),
        &[
            takes(&[1, 1, 0], 0),
            takes(&[1, 2, 0], 0),
            takes(&[1, 7, 0], 0),
            takes(&[1, 8, 0], 0),
            takes(&[1, 9, 0], 0),
        ],
    )
}

// Next atoms and does atoms.
#[test]
fn not_still(rt: HostRuntime) -> Result<(), Fail> {
    check_rows(
        &rt,
        rt.alloc(),
        &[
            refuses(&[1, 3, 0], 12, 2),
            refuses(&[1, 4, 0], 12, 2),
            refuses(&[1, 5, 0], 12, 2),
            refuses(&[1, 6, 0], 12, 2),
        ],
    )
}

#[test]
fn not_there(rt: HostRuntime) -> Result<(), Fail> {
    check_rows(
        &rt,
        rt.alloc(),
        &[
            refuses(&[1, 0, 0], 12, 2),
            refuses(&[1, 10, 0], 12, 2),
            refuses(&[1, 65535, 0], 12, 2),
        ],
    )
}
