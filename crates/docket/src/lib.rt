// The docket of a rule file, and the calls on it.
//
// `memories` says which lent memory is too short, `settings` guards the lent settings and `clearing` puts the lent values and case
// records back. `dockets` has the docket and `opening` makes the empty one. `plays` puts plays into wide values, world k for play k,
// `marking` evaluates a part on them, and `trials` checks what is given; `calls` has the call and
// `claims` the theorem that bytes which pass the check spell exactly one play at each place.
//
// Proved: a docket holds only properties that are true at every reachable position of its rule file. A trial of any bytes answers the
// first fault in checking order; or else it marks exactly the plays that break the part. On every way out the lent memories are clear.
#![tactic(auto)]

pub mod calls;
pub mod choices;
pub mod claims;
pub mod clearing;
pub mod dockets;
pub mod faults;
pub mod marking;
mod masks;
pub mod memories;
pub mod opening;
pub mod plays;
pub mod settings;
pub mod trials;
