ghost use Rattle.std.specs.Prelude.{◌≡◌, false, IfOk};
ghost use Rattle.clap.specs.Walk.{rule_of};
ghost use Rattle.clap.specs.Simple.{app_of, shape_of};
ghost use Rattle.clap.specs.declared.builder.command.Command.TheViews.{out-Command};
ghost use Rattle.command_line.specs.Command.{number_option, optional_number, number_argument, cluster_command, run_command, gen_command, tasktree};

use clap::{Arg, Command, value_parser};
use std::alloc::{AllocError, Global};

/// The command line of the program: one of three subcommands, and no form that asks for help or the version.
pub(crate) fn tasktree<'a>(alloc: Global) -> Result<Command<'a>, AllocError>
    ensures { IfOk result (λ command. app_of command ≡ tasktree) }
{
    Command::new(alloc, "tasktree")
        .no_binary_name(true)
        .disable_help_flag(true)
        .disable_help_subcommand(true)
        .disable_version_flag(true)
        .subcommand_required(true)
        .subcommand(cluster_command(alloc, "sim")?)?
        .subcommand(run_command(alloc)?)?
        .subcommand(gen_command(alloc)?)
}

/// A subcommand with the size of a cluster.
fn cluster_command<'a>(alloc: Global, name: &'a str) -> Result<Command<'a>, AllocError>
    ensures shape { IfOk result (λ command. shape_of command ≡ cluster_command name.entry.now) }
    ensures local { IfOk result (λ command. (out-Command command).has_globals ≡ false) }
{
    Command::new(alloc, name)
        .arg(number_option(alloc, "nodes", 15, "3"))?
        .arg(number_option(alloc, "shards", 15, "2"))?
        .arg(number_option(alloc, "slots", 1024, "256"))
}

/// The subcommand `run`, with the size of a cluster, and how many data workers each node has.
fn run_command<'a>(alloc: Global) -> Result<Command<'a>, AllocError>
    ensures shape { IfOk result (λ command. shape_of command ≡ run_command) }
    ensures local { IfOk result (λ command. (out-Command command).has_globals ≡ false) }
{
    let command = cluster_command(alloc, "run")?;
    command.arg(optional_number(alloc, "data", 4))
}

/// An option with a number from 1 to `most`, which has a default.
fn number_option<'a>(alloc: Global, name: &'a str, most: u32, default: &'a str) -> Arg<'a>
    ensures rule { rule_of result ≡ number_option name.entry.now most default.entry.now }
    ensures local { result.global ≡ false }
{
    Arg::new(alloc, name)
        .long(name)
        .value_parser(value_parser!(u32).range(1..=i64::from(most)))
        .default_value(default)
}

/// An option with a number from 1 to `most`, which may be left out.
fn optional_number<'a>(alloc: Global, name: &'a str, most: u32) -> Arg<'a>
    ensures rule { rule_of result ≡ optional_number name.entry.now most }
    ensures local { result.global ≡ false }
{
    Arg::new(alloc, name)
        .long(name)
        .value_parser(value_parser!(u32).range(1..=i64::from(most)))
}

/// The subcommand with the number that makes an input.
fn gen_command<'a>(alloc: Global) -> Result<Command<'a>, AllocError>
    ensures shape { IfOk result (λ command. shape_of command ≡ gen_command) }
    ensures local { IfOk result (λ command. (out-Command command).has_globals ≡ false) }
{
    let number = Arg::new(alloc, "number")
        .required(true)
        .value_parser(value_parser!(u64));
    Command::new(alloc, "gen").arg(number)
}
