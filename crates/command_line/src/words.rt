ghost use Rattle.std.specs.Prelude.{◌≡◌, map, string_bytes, codes, option_map, Some, IfSome, IsSome, IfOk, IfErr};
ghost use Rattle.clap.specs.Walk.{rows_of};
ghost use Rattle.clap.specs.Matches.{found_of};
ghost use Rattle.clap.specs.Simple.{subcommand_of, subcommand_rows_of};
ghost use Rattle.command_line.specs.Command.{tasktree};
ghost use Rattle.command_line.specs.Plan.{HasWorkers, Takes, asked, asked_in, asked_of, number_of, run_in, size_in, size_of};
ghost use Rattle.command_line.specs.Takes.{HasRun, HasSize, HasNumber, IsFound};

use crate::command::tasktree;
use crate::plans::{Plan, PlanError};
use clap::ArgMatches;
use clap::error::ErrorKind;
use std::alloc::Global;
use task_ids::Cluster;

/// The plan of the words after the program's name, as `clap` reads them by the definition of the program's command.
///
/// `sim` and `run` may have options in any order, each at most once: `--nodes N` from 1 to 15, or else 3; `--shards S` from 1 to 15,
/// or else 2; `--slots L` from 1 to 1,024, or else 256. `run` may also have `--data N` from 1 to 4, and then its plan is a pool of so many
/// data workers on each node. Each is two words or one, `--nodes=4`. `gen` has a number of 64 bits. All other words are `PlanError::Usage`.
pub fn plan(alloc: Global, words: &[String]) -> Result<Plan, PlanError>
    // It is what the words ask for.
    ensures plan { IfOk result (λ plan. asked (map string_bytes words.now) ≡ Some (asked_of plan)) }
    // The number of data workers is in its range.
    ensures workers { IfOk result HasWorkers }
    // They are faulty exactly where the command does not take them.
    ensures usage { IfErr result (λ error. error ≡ PlanError.Usage → Takes (map string_bytes words.now) → ⊥) }
{
    let matches = matches_of(alloc, words)?;
    match plan_in(&matches) {
        Some(plan) => Ok(plan),
        None => Err(PlanError::Usage),
    }
}

/// The matches of the program's command on the words.
fn matches_of<'a>(alloc: Global, words: &'a [String]) -> Result<ArgMatches<'a>, PlanError>
    ensures takes { IfOk result (λ _. Takes (map string_bytes words.now)) }
    ensures rows { IfOk result (λ matches. subcommand_rows_of matches ≡ subcommand_of tasktree (map string_bytes words.now)) }
    ensures usage { IfErr result (λ error. error ≡ PlanError.Usage → Takes (map string_bytes words.now) → ⊥) }
{
    match tasktree(alloc)?.try_get_matches_from(words) {
        Ok(matches) => Ok(matches),
        Err(error) => match error.kind() {
            ErrorKind::OutOfMemory => Err(PlanError::Memory),
            _ => Err(PlanError::Usage),
        },
    }
}

/// The plan that the subcommand asks for.
fn plan_in(matches: &ArgMatches<'_>) -> Option<Plan>
    requires found { IsFound (subcommand_rows_of matches.now) }
    ensures plan { IfSome result (λ plan. asked_in (subcommand_rows_of matches.now) ≡ Some (asked_of plan)) }
    ensures workers { IfSome result HasWorkers }
    ensures some { IsSome result }
{
    let (name, arguments) = matches.subcommand()?;
    match name {
        "sim" => Some(Plan::Sim(cluster_in(arguments)?)),
        "run" => Some(run_in(arguments)?),
        "gen" => Some(Plan::Gen(number_in(arguments)?)),
        _ => None,
    }
}

/// The run that the options of `run` ask for.
fn run_in(options: &ArgMatches<'_>) -> Option<Plan>
    requires run { HasRun (rows_of (found_of options.now)) }
    ensures plan { IfSome result (λ plan. run_in (rows_of (found_of options.now)) ≡ Some (asked_of plan)) }
    ensures workers { IfSome result HasWorkers }
    ensures some { IsSome result }
{
    let cluster = cluster_in(options)?;
    match options.get_one("data") {
        Some(workers) => Some(Plan::Pool { cluster, workers }),
        None => Some(Plan::Run(cluster)),
    }
}

/// The cluster that the options of a subcommand set.
fn cluster_in(options: &ArgMatches<'_>) -> Option<Cluster>
    requires sizes { HasSize (rows_of (found_of options.now)) }
    ensures { (size : _) × (option_map size_of result ≡ Some size) × (size_in (rows_of (found_of options.now)) ≡ Some size) }
{
    Some(Cluster {
        nodes: options.get_one("nodes")?,
        shards: options.get_one("shards")?,
        slots: options.get_one("slots")?,
    })
}

/// The number that follows a subcommand.
fn number_in(arguments: &ArgMatches<'_>) -> Option<u64>
    requires number { HasNumber (rows_of (found_of arguments.now)) }
    ensures { (number : _) × (result ≡ Some number) × (number_of (codes "number") (rows_of (found_of arguments.now)) ≡ Some number) }
{
    arguments.get_one("number")
}
