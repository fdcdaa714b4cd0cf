// The worked rule files.

// Two fluents, live and old; one role with the moves fresh and late; a fresh tick makes the price live, a late one old. Atoms 1 and 2 are
// fluents, 3 and 4 next, 5 and 6 does, 7 and 8 legal, 9 is terminal.
pub const FIRST: [u16; 48] = [
    1, 2, 1, 9, 4, 2, 2, 0, 2, 0, 0, 0, 0, 1, 1, 1, 1, 1, 2, 0, 1, 0, 0, 1, 0, 1, 0, 3, 1, 0, 4, 1,
    0, 0, 0, 1, 0, 2, 0, 0, 0, 0, 5, 0, 0, 6, 0, 0,
];

// The same with one more rule: a price that is live and not old stays live.
pub const SECOND: [u16; 56] = [
    1, 2, 1, 9, 5, 4, 2, 0, 2, 0, 0, 0, 0, 1, 1, 1, 1, 1, 2, 0, 1, 0, 0, 1, 0, 1, 0, 3, 1, 0, 4, 1,
    0, 0, 5, 1, 0, 2, 0, 0, 0, 0, 0, 3, 5, 0, 0, 6, 0, 0, 1, 0, 4, 2, 1, 0,
];
