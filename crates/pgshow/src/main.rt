//! The program `pgshow`: it prints the table that a script on standard input tells of.
#![tactic(auto)]

use pg_show::{Ending, Fault, run};
use std::process::ExitCode;
use std::rt::Env;
use std::{env, io};

// The arguments behind the program's name.
fn arguments(rt: &(impl Env + AllocGlobal)) -> io::Result<Vec<String>> {
    let words = env::args(rt)?.skip(1).collect(rt.alloc())?;
    Ok(words)
}

fn main(rt: HostRuntime) -> ExitCode {
    let (mut input, mut out, mut err) = (rt.stdin(), rt.stdout(), rt.stderr());
    let ending = match arguments(&rt) {
        Ok(words) => run(rt.alloc(), &words, &mut input, &mut out, &mut err),
        Err(error) => Ending::with_fault(Fault::of_arguments(&error), &mut err),
    };
    ExitCode::from(ending.status())
}
