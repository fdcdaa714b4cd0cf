// Times opening and evaluation. What it measures goes to the error stream.
#![tactic(auto)]

mod evaluation;
mod opening;
mod timing;

use std::io;

fn main(rt: HostRuntime) -> io::Result<()> {
    opening::run(&rt)?;
    evaluation::run(&rt)
}
