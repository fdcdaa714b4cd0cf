// Properties in play: what a property means, what its base and step are, and that both together make it true everywhere.
//
// `part` names the two parts, with the horizon of each and which properties a step may assume; `bytes` checks plays that are given as
// bytes, with `faults` for what is wrong with them, and `reading` hands out as `plays` those that passed.
// `theorems` holds the mathematics, over any game: each function's contract is one theorem, and it computes nothing.
//
// Proved: the first fault of plays given as bytes is found, for every list of bytes; a property whose base and step hold, beside assumed properties that are true everywhere, is true at every reachable
// position (`induction`), and so is every property of a docket that grew so (`dockets_are_true`). Beside them: what base and step
// say of sequences, and that a play which breaks the base refutes the property; the mark of a play; that positions past a
// property's degree do not matter; how following reads where play has ended; what is true where play is stuck; that a step which
// assumed deeper properties would be unsound; and a worked example.
#![tactic(auto)]

pub mod bytes;
pub mod faults;
pub mod part;
pub mod plays;
pub mod reading;
pub mod theorems;
