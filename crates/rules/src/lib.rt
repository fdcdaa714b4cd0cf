// Rule files: bytes of unknown origin are taken whole, as a typed value, or refused with the first fault in checking order.
//
// `check` reads the bytes and allocates nothing. Its contract: for every list of bytes, the answer is the first fault in checking
// order with its place, or none. `open` builds the typed value of a file that passed; only that may want memory.
// Each kind of record says where its records stand (`Placed`), and how one is read and checked (`Record`); rules and literals are
// also followed along their chains (`Chained`). Once all records passed, each atom is checked as a head (`Head`).
// `Rules` carries as an invariant all that was checked, so nothing above it checks an index, a stratum or a mark again; a
// `Walk` follows a chain of typed records.
#![tactic(auto)]

mod chain;
pub mod checks;
mod conditions;
pub mod contents;
pub mod faults;
mod file;
mod header;
mod heads;
pub mod kinds;
pub mod layout;
mod linked;
pub mod links;
pub mod opened;
pub mod opening;
mod places;
mod record;
mod record_checks;
pub mod records;
mod rows;
mod summaries;
pub mod walk;
pub mod words;
