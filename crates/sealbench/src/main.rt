// sealbench, the command line of Puligastru.
#![tactic(auto)]

mod digest;
mod example;
mod failure;
mod help;
mod labels;
mod options;

use failure::Failure;
use options::Command;
use std::env;
use std::process::ExitCode;

fn main(rt: HostRuntime) -> ExitCode {
    match run(&rt) {
        Ok(()) => ExitCode::SUCCESS,
        Err(Failure::Told) => ExitCode::FAILURE,
        Err(failure) => {
            let _ = eprintln!(rt; "sealbench: {failure}");
            ExitCode::FAILURE
        }
    }
}

fn run(rt: &HostRuntime) -> Result<(), Failure> {
    let heap = rt.alloc();
    let words: Vec<String> = env::args(rt)?.skip(1).collect(heap)?;
    match options::read(heap, &words)? {
        Command::Example => example::run(rt),
        Command::Help => help::print(rt),
        Command::Digest(options) => digest::run(rt, &options),
        Command::Label(file) => labels::run(rt, file.as_str()),
    }
}
