ghost use Rattle.std.specs.Prelude.{◌<◌, ◌≡◌, ◌≤◌, ◌↔◌, [], length, IfOk, IfSome, OnOk, Some};
ghost use Rattle.std.specs.Str.Lines.{lines};
ghost use Rattle.es_io.specs.Bytes.{IfGave};
ghost use Rattle.script_lang.specs.Answers.{Gives};
ghost use Rattle.script_lang.specs.Fits.{AllFit};
ghost use Rattle.top_parts.specs.Reading.{AnswersWith, max_input, read_lines};
ghost use Rattle.top_parts.specs.Status.{TellsFault};
ghost use Rattle.top_parts.specs.declared.reading.Unread.TheVariants.{ReadFault, Refused};

use es_io::{ReadAll, Source, read_all};
use script_lang::{Mode, Script, ScriptError, read_script};
use shard_docs::read_corpus;
use std::alloc::Global;
use task_ids::{Cause, Cluster, Corpus};

/// How many bytes an input has at most.
pub const MAX_INPUT: usize = 67_108_864;

/// The documents of an input and the script that follows them, in a mode and for a cluster.
///
/// The input is documents as Elasticsearch's bulk API takes them, a line `--`, and the lines of a script. The error is the first bad line
/// of the input and the first cause there, or want of memory.
#[tactic(auto, unfolding(crate::specs::Reading::read_lines, crate::specs::Reading::with_script))]
pub fn read_input(
    alloc: Global,
    mode: Mode,
    cluster: &Cluster,
    input: &[u8],
) -> Result<(Corpus, Script), ScriptError>
    requires { length input.now ≤ max_input }
    ensures gives { Gives (λ read. read) result (read_lines mode cluster.now.nodes (lines input.now)) }
    ensures fits { IfOk result (λ read. AllFit cluster.now.nodes [] read.1.commands) }
    ensures few { IfOk result (λ read. length read.1.commands ≤ 65535) }
{
    let read = read_corpus(alloc, input)?;
    let rest = &input[read.script_at..];
    let script = read_script(alloc, rest, read.script_line, mode, cluster)?;
    Ok((read.corpus, script))
}

/// Why an input was not read.
#[derive(Clone, Copy, Debug, PartialEq, Eq)]
pub enum Unread {
    /// It is refused at this line, counted from 1, or 0 where no line is to blame, for this cause.
    Refused { line: u32, cause: Cause },
    /// The source failed.
    ReadFault,
    /// Memory ran out.
    Memory,
}

/// Reads a source to its end: the documents of its input and the script that follows them, in a mode and for a cluster, or why it was not read.
pub fn read_whole<S: Source>(
    alloc: Global,
    mode: Mode,
    cluster: &Cluster,
    source: &mut S,
) -> Result<(Corpus, Script), Unread>
    // Where the source tells its bytes: they stand for what was read, or they are refused so.
    ensures input { IfSome (S.left source.old) (λ bytes. AnswersWith mode cluster.now bytes result) }
    // Where it was read, nothing of it is left.
    ensures ended { OnOk result (IfSome (S.left source.old) (λ _. S.left source.new ≡ Some [])) }
    // It is refused as too long exactly where the source gave more bytes than an input may have, whatever memory there was.
    ensures too_long { IfGave (S.left source.old) (S.left source.new) (λ n. (max_input < n) ↔ (result ≡ Err (Refused 0 Cause.TooLong))) }
    // That the source failed is told exactly where it has failed in this call, whatever memory there was.
    ensures told { TellsFault (S.faults source.old) (S.faults source.new) (result ≡ Err ReadFault) }
    ensures fits { IfOk result (λ read. AllFit cluster.now.nodes [] read.1.commands) }
    ensures few { IfOk result (λ read. length read.1.commands ≤ 65535) }
{
    let bytes = match read_all(alloc, source, MAX_INPUT) {
        Ok(bytes) => bytes,
        Err(ReadAll::ReadFault) => return Err(Unread::ReadFault),
        Err(ReadAll::TooLong(_)) => {
            return Err(Unread::Refused {
                line: 0,
                cause: Cause::TooLong,
            });
        }
        Err(ReadAll::Memory) => return Err(Unread::Memory),
    };
    match read_input(alloc, mode, cluster, bytes.as_slice()) {
        Ok(read) => Ok(read),
        Err(ScriptError::Bad { line, cause }) => Err(Unread::Refused { line, cause }),
        Err(ScriptError::Memory { .. }) => Err(Unread::Memory),
    }
}
