// Property files: bytes of unknown origin are read whole, as a typed value, or refused with the first fault in checking order.
//
// `read` takes a rule file that was opened and any bytes, and allocates nothing. Its contract: for every rule file and every list of
// bytes, the answer is the first fault in checking order with its place, or else the records that the bytes say; and a file is read
// exactly if each of its words is what it must be and no path from record 1 has more than three followings.
// `Property` carries as an invariant that its links lead later and that its degree is known, so nothing above it checks a link again.
// `degree` answers the most followings on a path from record 1, which is the degree of the property that the records stand for.
#![tactic(auto)]

pub mod defaults;
mod degrees;
pub mod faults;
pub mod properties;
pub mod reading;
mod record_checks;
pub mod records;
mod text;
mod words;
