//! The program `history_picture`: it draws the newest history among the printed lines of `tasktree`, as one SVG, or with the word
//! `--html` as a page round that SVG which can be asked what each event came of.
//!
//! It reads standard input and writes to standard output. What went wrong stands on standard error, and the exit
//! status says which kind it was.
#![tactic(auto)]

#[cfg(test)]
mod tests;

use es_io::{StdSink, StdSource};
use picture_parts::{Fault, Wanted, draw_all};
use std::env;
use std::io::ErrorKind;
use std::process::ExitCode;
use std::rt::Env;

/// What the words after the program's name ask for.
fn asked_for<R: Env + AllocGlobal>(rt: &R) -> Result<Wanted, Fault> {
    let words: Vec<String> = match env::args(rt) {
        Ok(args) => args.skip(1).collect(rt.alloc())?,
        Err(error) if error.kind() == ErrorKind::OutOfMemory => return Err(Fault::Memory),
        Err(_) => return Err(Fault::Usage),
    };
    match words.as_slice() {
        [] => Ok(Wanted::Picture),
        [word] if word.as_str() == "--html" => Ok(Wanted::Page),
        _ => Err(Fault::Usage),
    }
}

fn run(rt: &HostRuntime) -> Result<(), Fault> {
    let wanted = asked_for(rt)?;
    let mut input = StdSource::new(rt.stdin());
    let mut out = StdSink::new(rt.stdout());
    draw_all(rt.alloc(), wanted, &mut input, &mut out)
}

fn main(rt: HostRuntime) -> ExitCode {
    match run(&rt) {
        Ok(()) => ExitCode::from(0),
        Err(fault) => {
            let _ = eprintln!(rt; "{fault}");
            ExitCode::from(fault.exit_code())
        }
    }
}
