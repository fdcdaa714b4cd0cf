use crate::files::{check_rows, refuses, takes};
use std::test::Fail;

#[test]
fn kinds(rt: HostRuntime) -> Result<(), Fail> {
    check_rows(
        &rt,
        rt.alloc(),
        &[
            refuses(&[0, 1, 0], 12, 0),
            takes(&[1, 1, 0], 0),
            takes(&[4, 2, 0, 1, 1, 0], 1),
            refuses(&[5, 1, 0], 12, 0),
            refuses(&[65535, 1, 0], 12, 0),
            refuses(&[1, 1, 0, 0, 0, 0], 12, 6),
        ],
    )
}

// A not and a following have a later record: not themselves, nothing, none past the end, no earlier one.
#[test]
fn operands(rt: HostRuntime) -> Result<(), Fail> {
    check_rows(
        &rt,
        rt.alloc(),
        &[
            takes(&[2, 2, 0, 1, 1, 0], 0),
            refuses(&[2, 1, 0, 1, 1, 0], 12, 2),
            refuses(&[2, 0, 0, 1, 1, 0], 12, 2),
            refuses(&[2, 3, 0, 1, 1, 0], 12, 2),
            refuses(&[1, 1, 0, 2, 1, 0, 1, 1, 0], 12, 8),
            takes(&[4, 2, 0, 1, 1, 0], 1),
            refuses(&[4, 1, 0, 1, 1, 0], 12, 2),
            refuses(&[4, 0, 0, 1, 1, 0], 12, 2),
            refuses(&[4, 3, 0, 1, 1, 0], 12, 2),
            refuses(&[1, 1, 0, 4, 2, 0, 1, 1, 0], 12, 8),
        ],
    )
}

// An all has a later record, or none.
#[test]
fn chains(rt: HostRuntime) -> Result<(), Fail> {
    check_rows(
        &rt,
        rt.alloc(),
        &[
            takes(&[3, 0, 0], 0),
            refuses(&[3, 1, 0], 12, 2),
            refuses(&[3, 2, 0], 12, 2),
            takes(&[3, 2, 0, 1, 1, 0], 0),
            refuses(&[1, 1, 0, 3, 1, 0], 12, 8),
            refuses(&[1, 1, 0, 3, 2, 0], 12, 8),
        ],
    )
}

// A next is 0 or a later record, on a chain or not, reachable or not.
#[test]
fn nexts(rt: HostRuntime) -> Result<(), Fail> {
    check_rows(
        &rt,
        rt.alloc(),
        &[
            takes(&[1, 1, 0], 0),
            refuses(&[1, 1, 1], 12, 4),
            refuses(&[1, 1, 2], 12, 4),
            takes(&[1, 1, 2, 1, 1, 0], 0),
            refuses(&[1, 1, 0, 1, 1, 1], 12, 10),
            refuses(&[2, 2, 0, 1, 1, 2], 12, 10),
            refuses(&[1, 1, 0, 1, 1, 3], 12, 10),
            refuses(&[3, 2, 0, 1, 1, 3, 1, 1, 3], 12, 16),
        ],
    )
}

// Words in their order, records ascending, and all of them before the degree.
#[test]
fn first_fault(rt: HostRuntime) -> Result<(), Fail> {
    check_rows(
        &rt,
        rt.alloc(),
        &[
            refuses(&[0, 0, 9], 12, 0),
            refuses(&[2, 0, 9], 12, 2),
            refuses(&[1, 1, 9], 12, 4),
            refuses(&[1, 1, 9, 0, 0, 0], 12, 4),
            refuses(&[4, 2, 0, 4, 3, 0, 4, 4, 0, 4, 5, 0, 1, 0, 0], 12, 26),
        ],
    )
}
