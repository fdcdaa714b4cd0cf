// Tests of plays given as bytes: each fault and each boundary.
#![tactic(auto)]

#[cfg(test)]
mod bytes;
