//! Reading a sort from a JSON value.

ghost use Rattle.std.specs.Prelude.{◌≡◌, option_map};
ghost use Rattle.task_ids.specs.Json.{json_view, json_items};
ghost use Rattle.query_parse.specs.Bodies.{Gives, direction_named, direction_of, named_entry, entry_of, entries_of, listed_entries, all_entries, is_doc_alone, without_doc, sort_of};

use crate::fault::BodyError;
use crate::shape::{only_member, only_named};
use query_match::{Items, SortBy, Text};
use std::alloc::Global;
use task_ids::Json;

const MOST_ENTRIES: usize = 8;

fn direction_named(name: &str) -> Option<bool>
    ensures { result ≡ direction_named name.now }
{
    match name {
        "asc" => Some(false),
        "desc" => Some(true),
        _ => None,
    }
}

/// Whether an entry descends, for `"asc"`, `"desc"` or one of them at the key `order` alone.
fn direction_of(value: &Json) -> Option<bool>
    ensures { result ≡ direction_of (json_view value.now) }
{
    match only_named("order", value) {
        Some(inner) => match inner.as_str() {
            Some(name) => direction_named(name),
            None => None,
        },
        None => match value.as_str() {
            Some(name) => direction_named(name),
            None => None,
        },
    }
}

/// The field that an entry names, and its direction, if that is one.
fn named_entry(value: &Json) -> Option<(&str, Option<bool>)>
    ensures { option_map (λ e. (e.0.now, e.1)) result ≡ named_entry (json_view value.now) }
{
    match value {
        Json::String(field) => Some((field.as_str(), Some(false))),
        Json::Object(_) => match only_member(value) {
            Some((field, inner)) => Some((field, direction_of(inner))),
            None => None,
        },
        _ => None,
    }
}

fn read_entry(alloc: Global, value: &Json) -> Result<SortBy, BodyError>
    ensures { Gives (λ e. e) result (entry_of (json_view value.now)) }
{
    match named_entry(value) {
        None => Err(BodyError::BadSort(Text::from_str(alloc, "sort")?)),
        Some((field, None)) => Err(BodyError::BadSort(Text::from_str(alloc, field)?)),
        Some((field, Some(descending))) => {
            let field = Text::from_str(alloc, field)?;
            if field.as_str() == "_score" {
                Err(BodyError::BadSort(field))
            } else {
                Ok(SortBy { field, descending })
            }
        }
    }
}

fn read_entries(alloc: Global, values: &[Json]) -> Result<Vec<SortBy>, BodyError>
    ensures { Gives (λ es. es.items) result (entries_of (json_items values.now)) }
{
    let mut entries = Vec::with_capacity(alloc, values.len())?;
    for value in values {
        entries.push(read_entry(alloc, value)?)?;
    }
    Ok(entries)
}

#[tactic(auto, using(crate::proofs::Entries::lengths))]
fn listed_entries(alloc: Global, values: &[Json]) -> Result<Vec<SortBy>, BodyError>
    ensures { Gives (λ es. es.items) result (listed_entries (json_items values.now)) }
{
    if values.len() <= MOST_ENTRIES {
        read_entries(alloc, values)
    } else {
        Err(BodyError::BadSort(Text::from_str(alloc, "sort")?))
    }
}

/// One entry, or a list of at most 8.
fn all_entries(alloc: Global, value: &Json) -> Result<Vec<SortBy>, BodyError>
    ensures { Gives (λ es. es.items) result (all_entries (json_view value.now)) }
{
    match value {
        Json::Array(values) => listed_entries(alloc, values.as_slice()),
        _ => {
            let entry = read_entry(alloc, value)?;
            let mut entries = Vec::with_capacity(alloc, 1)?;
            entries.push(entry)?;
            Ok(entries)
        }
    }
}

/// `_doc` alone is no sort.
fn without_doc(mut entries: Vec<SortBy>) -> Vec<SortBy>
    ensures { result.items ≡ without_doc entries.items }
{
    if is_doc_alone(&entries) {
        entries.clear();
    }
    entries
}

fn is_doc_alone(entries: &[SortBy]) -> bool
    ensures { result ≡ is_doc_alone entries.now }
{
    match entries {
        [entry] => entry.field.as_str() == "_doc",
        _ => false,
    }
}

/// The entries of a sort, none where there is no sort.
#[tactic(auto, unfolding(crate::specs::Bodies::sort_of))]
pub(crate) fn read_sort(alloc: Global, value: Option<&Json>) -> Result<Items<SortBy>, BodyError>
    ensures { Gives (λ es. es) result (sort_of (option_map (λ v. json_view v.now) value.entry)) }
{
    match value {
        None => Ok(Items::new(alloc)),
        Some(value) => {
            let entries = all_entries(alloc, value)?;
            Ok(Items::from_vec(without_doc(entries)))
        }
    }
}
