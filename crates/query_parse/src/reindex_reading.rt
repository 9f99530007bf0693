//! Reading the body of a reindex from a JSON value.

ghost use Rattle.std.specs.Prelude.{◌≡◌, ◌≢◌, ◌≤◌, map, option_map, option_and_then, IfOk, IfSome};
ghost use Rattle.serde_json.specs.Find.{get_member, as_object, as_str};
ghost use Rattle.task_ids.specs.Json.{json_view, json_members};
ghost use Rattle.query_parse.specs.Reading.{under};
ghost use Rattle.query_parse.specs.Reindexes.{Gives, IsBad, refuses, first_unknown_in, fields_at, source_at, is_op_type, dest_at, query_of, batch_of, reading_at, known_reindex_at, reindex_at};

use crate::fault::ReindexError;
use crate::reading::read_query;
use crate::reindex_body::ReindexBody;
use crate::shape::{first_unknown, member};
use query_match::{Query, Text};
use std::alloc::{AllocError, Global};
use task_ids::{Json, JsonMember};

const DEFAULT_BATCH: u32 = 1000;

const GREATEST_BATCH: u64 = 10000;

/// The fields that a body can have, and those of its two parts.
const BODY_FIELDS: [&str; 2] = ["source", "dest"];

const SOURCE_FIELDS: [&str; 3] = ["index", "query", "size"];

const DEST_FIELDS: [&str; 2] = ["index", "op_type"];

/// The error of a missing or wrong field, or of want of memory.
fn bad(alloc: Global, path: &str) -> ReindexError
    ensures { IsBad result path.now }
{
    match Text::from_str(alloc, path) {
        Ok(path) => ReindexError::BadReindex(path),
        Err(_) => ReindexError::Memory,
    }
}

/// The path of a field of a part of the body.
fn path_in(alloc: Global, part: &str, field: &str) -> Result<Text, AllocError>
    ensures { IfOk result (λ path. path ≡ under part.now field.now) }
{
    let mut path = String::from_str(alloc, part)?;
    path.push_str(".")?;
    path.push_str(field)?;
    Ok(Text::new(path))
}

/// The object at a key.
fn part_of<'v>(members: &'v [JsonMember], name: &str) -> Option<&'v [JsonMember]>
    ensures { option_map (λ m. json_members m.now) result
        ≡ option_and_then as_object (get_member name.now (json_members members.now)) }
{
    match member(members, name) {
        Some(value) => value.as_object(),
        None => None,
    }
}

/// The text at a key.
fn text_of<'v>(members: &'v [JsonMember], name: &str) -> Option<&'v str>
    ensures { option_map (λ t. t.now) result
        ≡ option_and_then as_str (get_member name.now (json_members members.now)) }
{
    match member(members, name) {
        Some(value) => value.as_str(),
        None => None,
    }
}

/// No unknown field stands in a part of the body.
fn know_part(
    alloc: Global,
    members: &[JsonMember],
    part: &str,
    known: &[&str],
) -> Result<(), ReindexError>
    ensures { Gives (λ u. u) result
        (refuses (first_unknown_in part.now (map (λ n. n.now) known.now) (json_members members.now))) }
{
    let Some(inner) = part_of(members, part) else {
        return Ok(());
    };
    match first_unknown(inner, known) {
        Some(field) => Err(ReindexError::UnknownField(path_in(alloc, part, field)?)),
        None => Ok(()),
    }
}

/// No unknown field stands in the body, then in `source`, then in `dest`.
#[tactic(auto, unfolding(crate::specs::Reindexes::fields_at))]
fn know_fields(alloc: Global, members: &[JsonMember]) -> Result<(), ReindexError>
    ensures { Gives (λ u. u) result (fields_at (json_members members.now)) }
{
    if let Some(field) = first_unknown(members, &BODY_FIELDS) {
        return Err(ReindexError::UnknownField(Text::from_str(alloc, field)?));
    }
    know_part(alloc, members, "source", &SOURCE_FIELDS)?;
    know_part(alloc, members, "dest", &DEST_FIELDS)
}

/// The object at `source`, and its index.
#[tactic(auto, unfolding(crate::specs::Reindexes::source_at))]
fn read_source<'v>(
    alloc: Global,
    members: &'v [JsonMember],
) -> Result<(&'v [JsonMember], &'v str), ReindexError>
    ensures { Gives (λ s. (json_members s.0.now, s.1.now)) result
        (source_at (json_members members.now)) }
{
    let Some(part) = part_of(members, "source") else {
        return Err(bad(alloc, "source"));
    };
    match text_of(part, "index") {
        Some(index) => Ok((part, index)),
        None => Err(bad(alloc, "source.index")),
    }
}

/// Whether a document replaces another of its id, which `index` says and is the default.
fn is_op_type(value: Option<&Json>) -> bool
    ensures { result ≡ is_op_type (option_map (λ v. json_view v.now) value.entry) }
{
    match value {
        None => true,
        Some(value) => match value.as_str() {
            Some(name) => name == "index",
            None => false,
        },
    }
}

/// The index at `dest`, another one than the source's.
#[tactic(auto, unfolding(crate::specs::Reindexes::dest_at))]
fn read_dest<'v>(
    alloc: Global,
    source: &str,
    members: &'v [JsonMember],
) -> Result<&'v str, ReindexError>
    ensures value { Gives (λ d. d.now) result (dest_at source.now (json_members members.now)) }
    ensures apart { IfOk result (λ d. source.now ≢ d.now) }
{
    let Some(part) = part_of(members, "dest") else {
        return Err(bad(alloc, "dest"));
    };
    match text_of(part, "index") {
        Some(index) if index != source => {
            if is_op_type(member(part, "op_type")) {
                Ok(index)
            } else {
                Err(bad(alloc, "dest.op_type"))
            }
        }
        _ => Err(bad(alloc, "dest.index")),
    }
}

/// The query, which finds all documents where none is given.
#[tactic(auto, unfolding(crate::specs::Reindexes::query_of))]
fn query_or_all(alloc: Global, value: Option<&Json>) -> Result<Query, ReindexError>
    ensures { Gives (λ q. q) result (query_of (option_map (λ v. json_view v.now) value.entry)) }
{
    match value {
        None => Ok(Query::all(alloc)?),
        Some(value) => Ok(read_query(alloc, value)?),
    }
}

/// A whole number from 1 to 10,000, and 1,000 where none is given.
fn batch_of(value: Option<&Json>) -> Option<u32>
    ensures value { result ≡ batch_of (option_map (λ v. json_view v.now) value.entry) }
    ensures in_range { IfSome result (λ n. (1 ≤ n) × (n ≤ 10000)) }
{
    match value {
        None => Some(DEFAULT_BATCH),
        Some(value) => match value.as_u64() {
            Some(number) if 1 <= number && number <= GREATEST_BATCH => Some(number as u32),
            _ => None,
        },
    }
}

/// The query and the batch at `source`.
#[tactic(auto, unfolding(crate::specs::Reindexes::reading_at))]
fn read_reading(alloc: Global, source: &[JsonMember]) -> Result<(Query, u32), ReindexError>
    ensures value { Gives (λ r. r) result (reading_at (json_members source.now)) }
    ensures in_range { IfOk result (λ r. (1 ≤ r.1) × (r.1 ≤ 10000)) }
{
    let query = query_or_all(alloc, member(source, "query"))?;
    match batch_of(member(source, "size")) {
        Some(batch) => Ok((query, batch)),
        None => {
            drop(query);
            Err(bad(alloc, "source.size"))
        }
    }
}

/// A body without unknown fields.
#[tactic(auto, unfolding(crate::specs::Reindexes::known_reindex_at))]
fn read_known(alloc: Global, members: &[JsonMember]) -> Result<ReindexBody, ReindexError>
    ensures value { Gives (λ b. b) result (known_reindex_at (json_members members.now)) }
    ensures batch { IfOk result (λ b. (1 ≤ b.batch) × (b.batch ≤ 10000)) }
    ensures apart { IfOk result (λ b. b.source ≢ b.dest) }
{
    let (part, source) = read_source(alloc, members)?;
    let dest = read_dest(alloc, source, members)?;
    let source = Text::from_str(alloc, source)?;
    let dest = Text::from_str(alloc, dest)?;
    let (query, batch) = read_reading(alloc, part)?;
    Ok(ReindexBody {
        source,
        query,
        batch,
        dest,
    })
}

/// The body of a reindex that a JSON value is, after Elasticsearch's reindex API: `source` with `index`, `query` and `size`, and `dest` with `index` and `op_type`, of which `query`, `size` and `op_type` may be missing.
///
/// An error tells the first fault, looked for in the order of unknown fields (of the body, of `source`, of `dest`), `source` and its index, `dest`, its index and its `op_type`, the query, and `size`. `Memory` comes only for want of memory.
pub fn read_reindex(alloc: Global, value: &Json) -> Result<ReindexBody, ReindexError>
    ensures value { Gives (λ b. b) result (reindex_at (json_view value.now)) }
    ensures batch { IfOk result (λ b. (1 ≤ b.batch) × (b.batch ≤ 10000)) }
    ensures apart { IfOk result (λ b. b.source ≢ b.dest) }
{
    let Json::Object(members) = value else {
        return Err(bad(alloc, ""));
    };
    let members = members.as_slice();
    know_fields(alloc, members)?;
    read_known(alloc, members)
}
