// Rule files to try, as words, and how words are written as bytes. For tests and measurements.
//
// Proved: the bytes are those of the words, high byte first.
#![tactic(auto)]

pub mod files;
pub mod words;
