//! The program `morph`: events as lines on standard input, each applied as one transaction, and the text of the results
//! on standard output.
//!
//! All that it does is [`morph_cli::program`], which `main` gives its arguments and the standard streams.
#![tactic(auto)]

use morph_base::OutOfMemory;
use morph_cli::program;
use morph_io::{StdSink, StdSource};
use std::alloc::Global;
use std::process::ExitCode;
use std::rt::Env;
use std::{env, io};

/// The program's arguments; none if one of them is not UTF-8.
fn arguments(rt: &(impl Env + Alloc<A = Global>)) -> Result<Vec<String>, OutOfMemory> {
    match env::args(rt) {
        Ok(args) => Ok(args.collect(rt.alloc())?),
        Err(error) if error.kind() == io::ErrorKind::OutOfMemory => Err(OutOfMemory),
        Err(_) => Ok(Vec::new(rt.alloc())),
    }
}

fn main(rt: HostRuntime) -> ExitCode {
    let args = arguments(&rt);
    let mut source = StdSource::new(rt.stdin());
    let mut sink = StdSink::new(rt.stdout());
    let mut notes = StdSink::new(rt.stderr());
    program(&rt, rt.alloc(), args, &mut source, &mut sink, &mut notes)
}
