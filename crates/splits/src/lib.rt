// Split files: trees of cases that cover every play of a part, read record by record or written in the plain order.
//
// A case settles some inputs of a part and leaves the others open. What makes a case closed is told by a `Judge`.
// `walk` takes a split file exactly if it is the file of a whole tree whose cases are closed, and answers else the first fault
// in walk order with its place. `draft` writes the plain file, or shows a settled case that is not closed.
// The theorems: a whole tree covers every full setting of the inputs; the walk takes what the draft writes; the plain order
// finds a tree if every settled case is closed, with at most as many records as the whole split.
#![tactic(auto)]

pub mod cases;
pub mod drafted;
pub mod drafts;
pub mod entries;
pub mod faults;
pub mod judge;
pub mod place;
pub mod records;
pub mod shape;
pub mod situation;
mod stack;
pub mod theorems;
pub mod walks;
