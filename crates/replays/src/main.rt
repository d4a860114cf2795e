// Prints the report of each schedule that the arguments name, one after the other.
#![tactic(auto)]

use schedule::report_of;
use std::rt::{Env, Files};
use std::{env, fs};

fn run(rt: &(impl Env + Files + Print + AllocGlobal)) -> anyhow::Result<()> {
    // the first argument is the program's own name
    for name in env::args(rt)?.skip(1) {
        let text = fs::read(rt, name)?;
        rt.write_all(report_of(rt.alloc(), &text)?.as_bytes())?;
    }
    Ok(())
}

fn main(rt: HostRuntime) -> anyhow::Result<()> {
    run(&rt)
}
