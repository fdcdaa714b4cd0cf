// Tests of the trial: the worked plays, runs that end early, stuck positions, and the lent memories.
#![tactic(auto)]

#[cfg(test)]
mod memories;
#[cfg(test)]
mod plays;
#[cfg(test)]
mod samples;
