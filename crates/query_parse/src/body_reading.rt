//! Reading the body of a search from a JSON value.

ghost use Rattle.std.specs.Prelude.{◌≡◌, option_map};
ghost use Rattle.task_ids.specs.Json.{json_view, json_members};
ghost use Rattle.query_parse.specs.Bodies.{Gives, count_of, count_or, from_of, size_of, unknown_field, query_of, window_at, hits_at, body_of, known_body_at, body_at};

use crate::fault::{BodyError, QueryFault};
use crate::reading::read_query;
use crate::shape::{first_unknown, member};
use crate::sort_reading::read_sort;
use query_match::{Items, Query, SearchBody, SortBy, Text};
use std::alloc::Global;
use task_ids::{Json, JsonMember};

const DEFAULT_SIZE: u32 = 10;

const GREATEST_WINDOW: u64 = 10000;

/// A whole number from 0 to 2^32-1.
fn count_of(value: &Json) -> Option<u32>
    ensures { result ≡ count_of (json_view value.now) }
{
    match value.as_u64() {
        Some(number) if number < 1 << 32 => Some(number as u32),
        _ => None,
    }
}

fn count_or(default: u32, value: Option<&Json>) -> Option<u32>
    ensures { result ≡ count_or default (option_map (λ v. json_view v.now) value.entry) }
{
    match value {
        None => Some(default),
        Some(value) => count_of(value),
    }
}

#[tactic(auto, unfolding(crate::specs::Bodies::from_of))]
fn read_from(alloc: Global, zero: bool, value: Option<&Json>) -> Result<u32, BodyError>
    ensures { Gives (λ n. n) result (from_of zero (option_map (λ v. json_view v.now) value.entry)) }
{
    match count_or(0, value) {
        Some(from) if !zero || from == 0 => Ok(from),
        _ => Err(BodyError::BadSize(Text::from_str(alloc, "from")?)),
    }
}

#[tactic(auto, unfolding(crate::specs::Bodies::size_of))]
fn read_size(alloc: Global, least: u32, value: Option<&Json>) -> Result<u32, BodyError>
    ensures { Gives (λ n. n) result (size_of least (option_map (λ v. json_view v.now) value.entry)) }
{
    match count_or(DEFAULT_SIZE, value) {
        Some(size) if least <= size => Ok(size),
        _ => Err(BodyError::BadSize(Text::from_str(alloc, "size")?)),
    }
}

/// The fields that a body can have.
const BODY_FIELDS: [&str; 5] = ["query", "sort", "from", "size", "track_total_hits"];

/// The first key that no body has.
fn unknown_field(members: &[JsonMember]) -> Option<&str>
    ensures { option_map (λ f. f.now) result ≡ unknown_field (json_members members.now) }
{
    first_unknown(members, &BODY_FIELDS)
}

#[tactic(auto, unfolding(crate::specs::Bodies::query_of))]
fn query_or_all(alloc: Global, value: Option<&Json>) -> Result<Query, BodyError>
    ensures { Gives (λ q. q) result (query_of (option_map (λ v. json_view v.now) value.entry)) }
{
    match value {
        None => Ok(Query::all(alloc)?),
        Some(value) => Ok(read_query(alloc, value)?),
    }
}

/// How many hits are passed over and how many are shown, 10,000 together at most.
#[tactic(auto, unfolding(crate::specs::Bodies::window_at))]
fn read_window(
    alloc: Global,
    members: &[JsonMember],
    zero: bool,
    least: u32,
) -> Result<(u32, u32), BodyError>
    ensures { Gives (λ w. w) result (window_at zero least (json_members members.now)) }
{
    let from = read_from(alloc, zero, member(members, "from"))?;
    let size = read_size(alloc, least, member(members, "size"))?;
    let window = from as u64 + size as u64;
    if window <= GREATEST_WINDOW {
        Ok((from, size))
    } else {
        Err(BodyError::WindowTooLarge(window))
    }
}

/// The sort of the hits, and their window.
#[tactic(auto, unfolding(crate::specs::Bodies::hits_at))]
fn read_hits(
    alloc: Global,
    members: &[JsonMember],
    zero: bool,
    least: u32,
) -> Result<(Items<SortBy>, (u32, u32)), BodyError>
    ensures { Gives (λ h. h) result (hits_at zero least (json_members members.now)) }
{
    let sort = read_sort(alloc, member(members, "sort"))?;
    match read_window(alloc, members, zero, least) {
        Ok(window) => Ok((sort, window)),
        Err(error) => {
            drop(sort);
            Err(error)
        }
    }
}

/// The body of this query that shows these hits.
fn body_of(query: Query, hits: (Items<SortBy>, (u32, u32))) -> SearchBody
    ensures { result ≡ body_of query hits }
{
    let (sort, (from, size)) = hits;
    SearchBody {
        query,
        sort,
        from,
        size,
    }
}

/// A body without unknown fields.
#[tactic(auto, unfolding(crate::specs::Bodies::known_body_at))]
fn read_known(
    alloc: Global,
    members: &[JsonMember],
    zero: bool,
    least: u32,
) -> Result<SearchBody, BodyError>
    ensures { Gives (λ b. b) result (known_body_at zero least (json_members members.now)) }
{
    let query = query_or_all(alloc, member(members, "query"))?;
    match read_hits(alloc, members, zero, least) {
        Ok(hits) => Ok(body_of(query, hits)),
        Err(error) => {
            drop(query);
            Err(error)
        }
    }
}

/// The body of a search that a JSON value is, after Elasticsearch's search body: `query`, `sort`, `from`, `size`, and `track_total_hits`, which is passed over.
///
/// `zero` says that `from` must be 0, and `least` is the least `size`: true and 1 for a scroll, else false and 0.
///
/// An error tells the first fault, looked for in the order of unknown fields, the query, the sort, `from`, `size` and the window. `Memory` comes only for want of memory.
#[tactic(auto, using(task_ids::proofs::Jsons::objects))]
pub fn read_body(
    alloc: Global,
    value: &Json,
    zero: bool,
    least: u32,
) -> Result<SearchBody, BodyError>
    ensures { Gives (λ b. b) result (body_at zero least (json_view value.now)) }
{
    let Json::Object(members) = value else {
        return Err(BodyError::BadQuery {
            path: Text::from_str(alloc, "")?,
            kind: QueryFault::BadValue,
        });
    };
    let members = members.as_slice();
    match unknown_field(members) {
        Some(field) => Err(BodyError::UnknownField(Text::from_str(alloc, field)?)),
        None => read_known(alloc, members, zero, least),
    }
}
