ghost use Rattle.std.specs.Prelude.{◌≡◌, ◌≤◌, ◌<◌, false, IfOk, IsTrue};
ghost use Rattle.serde_json.specs.Data.{depth};
ghost use Rattle.serde_json.specs.Read.{max_depth};
ghost use Rattle.serde_json.specs.View.{view};
ghost use Rattle.serde_json.specs.Written.{has_float};
ghost use Rattle.shard_docs.specs.Fault.{Reads, OnMemory};
ghost use Rattle.shard_docs.specs.Json.{is_text, json_of, whole_json_of, source_of};

use crate::fault::LineError;
use serde_json::Value;
use std::alloc::Global;
use task_ids::{Cause, DocSource, Keys, NotSource, is_whole};

/// How many bytes a line has at most, without its end.
const MAX_LINE: usize = 1_048_576;

/// The JSON of a line. It is refused, in this order, where it has more than 1,048,576 bytes,
/// where it is not UTF-8, and where it is not JSON that nests at most 127 deep. The first two are told whatever memory there is.
#[tactic(auto, unfolding(crate::specs::Json::json_of, crate::specs::Json::max_line, crate::specs::Json::is_text))]
fn value_of_line(alloc: Global, line: &[u8]) -> Result<Value, LineError>
    ensures value { Reads view result (json_of line.now) }
    ensures memory { OnMemory result (IsTrue (is_text line.now)) }
    ensures nests { IfOk result (λ value. depth (view value) ≤ max_depth) }
{
    if line.len() > MAX_LINE {
        return Err(LineError::Refused(Cause::LineTooLong));
    }
    let Ok(text) = str::from_utf8(line) else {
        return Err(LineError::Refused(Cause::BadUtf8));
    };
    match Value::from_str(alloc, text) {
        Ok(value) => Ok(value),
        Err(error) if error.is_memory() => Err(LineError::Memory),
        Err(_) => Err(LineError::Refused(Cause::BadJson)),
    }
}

/// The JSON of a line whose numbers are all whole. It is refused, in this order, where it has
/// more than 1,048,576 bytes, where it is not UTF-8, where it is not JSON that nests at most 127 deep, and where a number
/// is not whole. The first two are told whatever memory there is.
#[tactic(auto, unfolding(crate::specs::Json::whole_json_of))]
pub fn whole_value_of_line(alloc: Global, line: &[u8]) -> Result<Value, LineError>
    ensures value { Reads view result (whole_json_of line.now) }
    ensures memory { OnMemory result (IsTrue (is_text line.now)) }
    ensures nests { IfOk result (λ value. depth (view value) ≤ max_depth) }
    ensures whole { IfOk result (λ value. has_float (view value) ≡ false) }
{
    let value = value_of_line(alloc, line)?;
    if is_whole(&value) {
        Ok(value)
    } else {
        Err(LineError::Refused(Cause::NotWhole))
    }
}

/// The source of a document on a line. It shares its keys with those that are known. A line that is too long or not
/// UTF-8 is told whatever memory there is.
#[tactic(auto, unfolding(crate::specs::Json::whole_json_of, crate::specs::Json::source_of))]
pub(crate) fn source_of_line(
    alloc: Global,
    line: &[u8],
    keys: &mut Keys,
) -> Result<DocSource, LineError>
    ensures source { Reads (λ source. source) result (source_of line.now) }
    ensures memory { OnMemory result (IsTrue (is_text line.now)) }
{
    let value = value_of_line(alloc, line)?;
    match DocSource::new(alloc, value, keys) {
        Ok(source) => Ok(source),
        Err(NotSource::NotWhole) => Err(LineError::Refused(Cause::NotWhole)),
        Err(NotSource::NotObject) => Err(LineError::Refused(Cause::NotObject)),
        Err(NotSource::Memory) => Err(LineError::Memory),
    }
}
