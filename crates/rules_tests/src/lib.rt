// Tests of the rule-file reader: the worked files, each fault, and each limit from both sides.
#![tactic(auto)]

#[cfg(test)]
mod files;
#[cfg(test)]
mod limits;
#[cfg(test)]
mod words;
