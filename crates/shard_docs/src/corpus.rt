ghost use Rattle.std.specs.Prelude.{◌≡◌, ◌+◌, ◌<◌, ◌≤◌, ◌^◌, [], drop, length, IfOk, IsTrue};
ghost use Rattle.std.specs.Str.Lines.{lines};
ghost use Rattle.shard_docs.specs.Corpus.{source_line, noted, document, next_document, corpus_of};
ghost use Rattle.shard_docs.specs.CorpusRead.{read_of};
ghost use Rattle.shard_docs.specs.Ends.{IsEndOf};
ghost use Rattle.shard_docs.specs.Fault.{Gives, MayRunOut, Reads, WhereShort};
ghost use Rattle.shard_docs.specs.Json.{is_text, begins_with_text};
ghost use Rattle.shard_docs.specs.Seen.{has_name, with_name};

use crate::action::{BulkAction, BulkKind, action_of_line};
use crate::fault::{CorpusError, LineError, read_at};
use crate::json_line::source_of_line;
use crate::lines::split_line;
use crate::seen::Seen;
use shared_value::Shared;
use std::alloc::{AllocError, Global};
use task_ids::{Cause, Corpus, CorpusLine, Doc, Items, Keys, Text};

/// The line between the documents and the script.
const DASHES: &str = "--";

/// What was read of an input up to its script.
#[derive(Drop)]
pub struct CorpusRead {
    /// The documents, in the order of the input.
    pub corpus: Corpus,
    /// Where the script begins in the bytes: after the line `--`, or at the end.
    pub script_at: usize,
    /// The number of the script's first line, counted from 1 over the whole input.
    pub script_line: u32,
}

/// The line of the source of an action at a line, and what follows it. It takes no memory.
fn source_after(number: u32, bytes: &[u8]) -> Result<(&[u8], &[u8]), CorpusError>
    ensures gives { Gives (λ source. (source.0.now, lines source.1.now)) result (source_line number (lines bytes.now)) }
    ensures memory { WhereShort result (λ _. ⊥) }
    ensures shorter { IfOk result (λ source. length source.1.now < length bytes.now) }
    ensures ends { IfOk result (λ source. IsEndOf source.1.now bytes.now) }
{
    let missing = CorpusError::Bad {
        line: number,
        cause: Cause::NoSource,
    };
    match split_line(bytes) {
        Some((line, _)) if line == DASHES.as_bytes() => Err(missing),
        Some(source) => Ok(source),
        None => Err(missing),
    }
}

/// The id of a document, which its copies share.
fn shared_id(alloc: Global, id: Text) -> Result<Shared<Text>, AllocError>
    ensures { IfOk result (λ shared. shared ≡ id) }
{
    Ok(Shared::new(alloc, id)?)
}

/// Notes the document of an action. To create one that is there is a conflict.
#[tactic(auto, unfolding(crate::specs::Corpus::noted))]
fn note(seen: &mut Seen, action: &BulkAction) -> Result<(), LineError>
    ensures reads { Reads (λ _. tt) result (noted (has_name action.now.index action.now.id seen.old) action.now) }
    ensures noted { IfOk result (λ _. seen.new ≡ with_name action.now.index action.now.id seen.old) }
{
    let is_new = seen.insert(action.index.as_str(), action.id.as_str())?;
    if action.kind == BulkKind::Create && !is_new {
        Err(LineError::Refused(Cause::Conflict))
    } else {
        Ok(())
    }
}

/// The document of an action at a line and of its source on the next line. It is noted. A source that is too long or not UTF-8 is told
/// whatever memory there is, once the document is noted.
#[tactic(auto, unfolding(crate::specs::Corpus::document))]
fn document_of(
    alloc: Global,
    seen: &mut Seen,
    keys: &mut Keys,
    number: u32,
    action: BulkAction,
    source: &[u8],
) -> Result<CorpusLine, CorpusError>
    requires { number + 1 < 2 ^ 32 }
    ensures gives { Gives (λ line. line) result (document number (has_name action.index action.id seen.old) action source.now) }
    ensures noted { IfOk result (λ line. seen.new ≡ with_name line.index line.doc.id seen.old) }
    ensures memory { WhereShort result (λ at. (at ≤ number + 1) × MayRunOut (document number (has_name action.index action.id seen.old) action source.now) at) }
{
    read_at(number, note(seen, &action))?;
    let source = read_at(number + 1, source_of_line(alloc, source, keys))?;
    let BulkAction { index, id, .. } = action;
    let Ok(id) = shared_id(alloc, id) else {
        return Err(CorpusError::Memory { line: number });
    };
    let doc = Doc { id, source };
    Ok(CorpusLine { index, doc })
}

/// The document of an action on a line and of its source on the next line, and what follows them. It is noted. An action's line that
/// is too long or not UTF-8 is told whatever memory there is.
#[tactic(auto, unfolding(crate::specs::Corpus::next_document))]
fn document_at<'a>(
    alloc: Global,
    seen: &mut Seen,
    keys: &mut Keys,
    number: u32,
    line: &[u8],
    after: &'a [u8],
) -> Result<(CorpusLine, &'a [u8]), CorpusError>
    requires { number + 1 < 2 ^ 32 }
    ensures gives { Gives (λ next. (next.0, lines next.1.now)) result (next_document number (λ index id. has_name index id seen.old) line.now (lines after.now)) }
    ensures noted { IfOk result (λ next. seen.new ≡ with_name next.0.index next.0.doc.id seen.old) }
    ensures memory { WhereShort result (λ at. (at ≤ number + 1) × IsTrue (is_text line.now) × MayRunOut (next_document number (λ index id. has_name index id seen.old) line.now (lines after.now)) at) }
    ensures shorter { IfOk result (λ next. length next.1.now < length after.now) }
    ensures ends { IfOk result (λ next. IsEndOf next.1.now after.now) }
{
    let action = read_at(number, action_of_line(alloc, number, line))?;
    let (source, left) = source_after(number, after)?;
    let document = document_of(alloc, seen, keys, number, action, source)?;
    Ok((document, left))
}

/// Reads the documents of an input, up to the line `--` or the end, and tells where the script begins and the number of
/// its first line.
fn read_documents(
    alloc: Global,
    found: &mut Items<CorpusLine>,
    seen: &mut Seen,
    keys: &mut Keys,
    bytes: &[u8],
) -> Result<(usize, u32), CorpusError>
    requires short { length bytes.now ≤ 67108864 }
    requires none_found { found.old ≡ [] }
    requires none_seen { seen.old ≡ [] }
    ensures gives { Gives (λ place. (found.new, place.1, lines (drop place.0 bytes.now))) result (corpus_of (lines bytes.now)) }
    ensures within { IfOk result (λ place. place.0 ≤ length bytes.now) }
    ensures memory { WhereShort result (MayRunOut (corpus_of (lines bytes.now))) }
    ensures begins { WhereShort result (λ _. IsTrue (begins_with_text (lines bytes.now))) }
{
    let mut number = 1;
    let mut rest = bytes;
    while let Some((line, after)) = split_line(rest) {
        if line.is_empty() {
            number += 1;
            rest = after;
            continue;
        }
        if line == DASHES.as_bytes() {
            return Ok((bytes.len() - after.len(), number + 1));
        }
        let (document, left) = document_at(alloc, seen, keys, number, line, after)?;
        let Ok(()) = found.push(document) else {
            return Err(CorpusError::Memory { line: number });
        };
        number += 2;
        rest = left;
    }
    Ok((bytes.len() - rest.len(), number))
}

/// Reads the documents of an input, where none was met before.
fn read_all_documents(
    alloc: Global,
    found: &mut Items<CorpusLine>,
    bytes: &[u8],
) -> Result<(usize, u32), CorpusError>
    requires short { length bytes.now ≤ 67108864 }
    requires none_found { found.old ≡ [] }
    ensures gives { Gives (λ place. (found.new, place.1, lines (drop place.0 bytes.now))) result (corpus_of (lines bytes.now)) }
    ensures within { IfOk result (λ place. place.0 ≤ length bytes.now) }
    ensures memory { WhereShort result (MayRunOut (corpus_of (lines bytes.now))) }
    ensures begins { WhereShort result (λ _. IsTrue (begins_with_text (lines bytes.now))) }
{
    let mut seen = Seen::new(alloc);
    let mut keys = Keys::new(alloc);
    read_documents(alloc, found, &mut seen, &mut keys, bytes)
}

/// Reads the documents of an input, up to the line `--` or the end. The input has at most 67,108,864 bytes.
///
/// A document is an action line and a line with its source, after Elasticsearch's bulk API: `{"index":{"_index":I}}` or
/// `{"create":{"_index":I}}`, maybe with an `_id`, a text or a whole number; without one its id is `auto-` and the number
/// of the action's line. The error is the first bad line and the first of its causes in the order of `Cause`, where an action
/// line without a source comes after its own causes; or want of memory, and the line at which it came. No line before that one
/// is bad, and it isn't too long or not UTF-8 itself, nor is the first line that is not empty.
pub fn read_corpus(alloc: Global, bytes: &[u8]) -> Result<CorpusRead, CorpusError>
    requires { length bytes.now ≤ 67108864 }
    ensures gives { Gives (read_of bytes.now) result (corpus_of (lines bytes.now)) }
    ensures within { IfOk result (λ read. read.script_at ≤ length bytes.now) }
    ensures memory { WhereShort result (MayRunOut (corpus_of (lines bytes.now))) }
    ensures begins { WhereShort result (λ _. IsTrue (begins_with_text (lines bytes.now))) }
{
    let mut found = Items::new(alloc);
    let (script_at, script_line) = read_all_documents(alloc, &mut found, bytes)?;
    let corpus = Corpus { lines: found };
    Ok(CorpusRead {
        corpus,
        script_at,
        script_line,
    })
}
