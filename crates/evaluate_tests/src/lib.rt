// Tests of the evaluation: the worked files move by move, recursion, negation, open inputs, and 64 worlds at once.
#![tactic(auto)]

#[cfg(test)]
mod forms;
#[cfg(test)]
mod models;
#[cfg(test)]
mod samples;
