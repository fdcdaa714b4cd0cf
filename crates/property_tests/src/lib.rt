// Property files by example: each fault with its place, each boundary of a word, and the degree of what is taken.
#![tactic(auto)]

#[cfg(test)]
mod atoms;
#[cfg(test)]
mod files;
#[cfg(test)]
mod lengths;
#[cfg(test)]
mod links;
#[cfg(test)]
mod paths;
