ghost use Rattle.std.specs.Prelude.{◌+◌, ◌<◌, ◌≤◌, [], length, IfOk, IsTrue};
ghost use Rattle.std.specs.Str.Lines.{lines};
ghost use Rattle.shard_docs.specs.Fault.{MayRunOut, OnMemory, Reads};
ghost use Rattle.shard_docs.specs.Json.{is_text, begins_with_text};
ghost use Rattle.script_lang.specs.Answers.{Gives, WhereShort};
ghost use Rattle.script_lang.specs.Fits.{AllFit};
ghost use Rattle.script_lang.specs.Script.{command_of, script_of};

use crate::command::{Command, Mode, Script};
use crate::commands::command_in;
use crate::error::ScriptError;
use shard_docs::{LineError, read_at, split_line, whole_value_of_line};
use std::alloc::Global;
use task_ids::{Cause, Cluster, Items};

/// How many commands a script has at most.
const MAX_COMMANDS: usize = 65_535;

/// The command of a line that is not empty, after other commands. Whatever memory there is, it is told where there
/// are too many commands and where the line is too long or not UTF-8; and once its JSON is read, each cause for which a command is refused.
#[tactic(auto, unfolding(crate::specs::Script::command_of, crate::specs::Script::max_commands))]
fn command_of_line(
    alloc: Global,
    mode: Mode,
    nodes: u32,
    before: &[Command],
    line: &[u8],
) -> Result<Command, LineError>
    requires { nodes ≤ 15 }
    ensures command { Reads (λ c. c) result (command_of mode nodes before.now line.now) }
    ensures memory { OnMemory result ((length before.now < 65535) × IsTrue (is_text line.now)) }
{
    if before.len() >= MAX_COMMANDS {
        return Err(LineError::Refused(Cause::TooManyLines));
    }
    let value = whole_value_of_line(alloc, line)?;
    command_in(alloc, mode, nodes, before, &value)
}

/// Reads the script of an input for a mode and a cluster. Its first line has this number over the whole input.
///
/// There are at most 67,108,864 bytes, and the number is at most 67,108,865. A line ends at a newline, with which one
/// carriage return before it is dropped. Empty lines are passed over; each other line is a command, an object of one key,
/// as `{"search":{"index":"a"}}`. The commands and their fields are this project's own; what they stand for is after
/// Elasticsearch's search, task management and cancellation APIs.
///
/// The error is the first bad line and the first of its causes in the order of `Cause`, over all fields of the line, or
/// want of memory, and the line at which it came. No line before that one is bad, and it isn't itself too long, not UTF-8 or one
/// too many, nor is the first line that is not empty too long or not UTF-8. A body may be any object.
pub fn read_script(
    alloc: Global,
    bytes: &[u8],
    line: u32,
    mode: Mode,
    cluster: &Cluster,
) -> Result<Script, ScriptError>
    requires bytes { length bytes.now ≤ 67108864 }
    requires number { line ≤ 67108865 }
    // The commands are those that the lines spell, and an error tells their first fault.
    ensures gives { Gives (λ script. script.commands) result (script_of mode cluster.now.nodes line (lines bytes.now)) }
    // Memory runs out at no line that is refused at sight, and at none after a bad one.
    ensures memory { WhereShort result (MayRunOut (script_of mode cluster.now.nodes line (lines bytes.now))) }
    ensures begins { WhereShort result (λ _. IsTrue (begins_with_text (lines bytes.now))) }

    // Each node is of the cluster, and each command that is named comes before and has what it is named for.
    ensures fits { IfOk result (λ script. AllFit cluster.now.nodes [] script.commands) }
    ensures few { IfOk result (λ script. length script.commands ≤ 65535) }
{
    let mut commands = Items::new(alloc);
    let mut number = line;
    let mut rest = bytes;
    while let Some((text, after)) = split_line(rest) {
        if !text.is_empty() {
            let before = commands.as_slice();
            let read = command_of_line(alloc, mode, cluster.nodes, before, text);
            let command = read_at(number, read)?;
            let Ok(()) = commands.push(command) else {
                return Err(ScriptError::Memory { line: number });
            };
        }
        number += 1;
        rest = after;
    }
    Ok(Script { commands })
}
