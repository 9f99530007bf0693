//! The program `lab`: a companion of `tasktree` for those who write scripts. It walks through a script step by step, explains why an input is
//! refused, writes the schedule of a run out move by move, and makes a script smaller that shows something.
//!
//! It reads an input as `tasktree sim` does and runs it in its own process.
#![tactic(auto)]

mod broken;
mod explain;
mod fault;
mod input;
mod known;
mod lines;
mod linting;
mod replaying;
mod running;
mod scene;
mod schedule;
mod shrinking;
mod task;
mod walking;
mod wording;

use es_io::{ReadAll, StdSink, StdSource, read_all, write_all_of};
use fault::Fault;
use input::Input;
use linting::lint;
use replaying::replay;
use running::{Ran, run};
use shrinking::{Wanted, shrink};
use std::alloc::Global;
use std::env;
use std::io::ErrorKind;
use std::process::ExitCode;
use std::rt::Env;
use task_top::{Cause, Cluster, Plan, PlanError, Status, plan};
use walking::walk;
use wording::push_words;

/// The most bytes that an input has.
const MAX_INPUT: usize = 67_108_864;

/// The words after the program's name.
fn words<R: Env + AllocGlobal>(rt: &R) -> Result<Vec<String>, Fault> {
    let mut args = match env::args(rt) {
        Ok(args) => args,
        Err(error) if error.kind() == ErrorKind::OutOfMemory => return Err(Fault::Memory),
        Err(_) => return Err(Fault::Usage),
    };
    drop(args.next());
    Ok(args.collect(rt.alloc())?)
}

/// What the companion is asked for.
#[derive(Clone, Copy)]
enum Asked<'a> {
    Walk,
    Lint,
    Replay,
    /// With the text that is to be printed still.
    Shrink(&'a str),
}

/// What is shown, and the exit status after that.
#[derive(Drop)]
struct Output {
    text: Vec<u8>,
    status: u8,
}

/// The cluster that the words of `tasktree sim` set.
fn planned(alloc: Global, words: &[String]) -> Result<Cluster, Fault> {
    match plan(alloc, words) {
        Ok(Plan::Sim(cluster)) => Ok(cluster),
        Ok(Plan::Run(_) | Plan::Pool { .. } | Plan::Gen(_)) | Err(PlanError::Usage) => {
            Err(Fault::Usage)
        }
        Err(PlanError::Memory) => Err(Fault::Memory),
    }
}

/// The cluster that options set, as those of `sim`.
fn cluster_of(alloc: Global, options: &[String]) -> Result<Cluster, Fault> {
    let mut words = Vec::new(alloc);
    words.push(String::from_str(alloc, "sim")?)?;
    for option in options {
        words.push(option.clone()?)?;
    }
    planned(alloc, words.as_slice())
}

/// The cluster of the words that the program is to be given, if there are any.
fn cluster_for(alloc: Global, words: &[String]) -> Result<Cluster, Fault> {
    let cluster = match words {
        [] => cluster_of(alloc, &[]),
        _ => planned(alloc, words),
    };
    match cluster {
        Err(Fault::Usage) => Err(Fault::Words),
        other => other,
    }
}

/// What words ask for, and on which cluster.
fn asked_by(alloc: Global, words: &[String]) -> Result<(Asked<'_>, Cluster), Fault> {
    match words {
        [word, options @ ..] => match word.as_str() {
            "walk" => Ok((Asked::Walk, cluster_of(alloc, options)?)),
            "replay" => Ok((Asked::Replay, cluster_of(alloc, options)?)),
            "lint" => Ok((Asked::Lint, cluster_for(alloc, options)?)),
            "shrink" => match options {
                [text, options @ ..] => {
                    Ok((Asked::Shrink(text.as_str()), cluster_of(alloc, options)?))
                }
                [] => Err(Fault::Usage),
            },
            _ => Err(Fault::Usage),
        },
        [] => Err(Fault::Usage),
    }
}

/// A whole run of an input, which is neither refused nor comes to an early end.
fn whole_run(alloc: Global, cluster: &Cluster, bytes: &[u8]) -> Result<Ran, Fault> {
    let ran = run(alloc, cluster, bytes)?;
    match ran.status {
        Status::Done => Ok(ran),
        status => Err(Fault::Ran(status)),
    }
}

/// All faults of an input.
fn linted(alloc: Global, cluster: &Cluster, bytes: &[u8]) -> Result<Output, Fault> {
    let report = lint(alloc, cluster, bytes)?;
    Ok(Output {
        text: Vec::from_slice(alloc, report.text.as_bytes())?,
        status: if report.faults == 0 { 0 } else { 2 },
    })
}

/// What is shown of an input.
fn shown(
    alloc: Global,
    asked: Asked<'_>,
    cluster: &Cluster,
    bytes: &[u8],
) -> Result<Output, Fault> {
    if matches!(asked, Asked::Lint) {
        return linted(alloc, cluster, bytes);
    }
    let ran = whole_run(alloc, cluster, bytes)?;
    let input = Input::of(alloc, bytes)?;
    let text = match asked {
        Asked::Replay => replay(alloc, cluster, &input, &ran)?,
        Asked::Shrink(text) => {
            let wanted = Wanted {
                alloc,
                cluster,
                text: text.as_bytes(),
            };
            shrink(&wanted, bytes)?
        }
        Asked::Walk | Asked::Lint => {
            let text = walk(alloc, cluster, &input, &ran)?;
            Vec::from_slice(alloc, text.as_bytes())?
        }
    };
    Ok(Output { text, status: 0 })
}

/// What is wrong with the words that the program is to be given.
fn faulty_words(alloc: Global, words: &[String]) -> Result<Output, Fault> {
    let mut text = String::new(alloc);
    if let [_, words @ ..] = words {
        push_words(alloc, &mut text, words)?;
    }
    Ok(Output {
        text: Vec::from_slice(alloc, text.as_bytes())?,
        status: 1,
    })
}

/// The whole input.
fn read_input(rt: &HostRuntime) -> Result<Vec<u8>, Fault> {
    let mut source = StdSource::new(rt.stdin());
    match read_all(rt.alloc(), &mut source, MAX_INPUT) {
        Ok(bytes) => Ok(bytes),
        Err(ReadAll::ReadFault) => Err(Fault::ReadFault),
        Err(ReadAll::TooLong(_)) => Err(Fault::Ran(Status::Refused(0, Cause::TooLong))),
        Err(ReadAll::Memory) => Err(Fault::Memory),
    }
}

/// Does what the words ask for, and gives the exit status.
fn work(rt: &HostRuntime) -> Result<u8, Fault> {
    let words = words(rt)?;
    let output = match asked_by(rt.alloc(), words.as_slice()) {
        Ok((asked, cluster)) => {
            let bytes = read_input(rt)?;
            shown(rt.alloc(), asked, &cluster, bytes.as_slice())?
        }
        Err(Fault::Words) => faulty_words(rt.alloc(), words.as_slice())?,
        Err(fault) => return Err(fault),
    };
    let mut sink = StdSink::new(rt.stdout());
    match write_all_of(&mut sink, output.text.as_slice()) {
        Ok(()) => Ok(output.status),
        Err(_) => Err(Fault::WriteFault),
    }
}

fn main(rt: HostRuntime) -> ExitCode {
    match work(&rt) {
        Ok(status) => ExitCode::from(status),
        Err(fault) => {
            let _ = eprintln!(rt; "{fault}");
            ExitCode::from(fault.exit_code())
        }
    }
}
