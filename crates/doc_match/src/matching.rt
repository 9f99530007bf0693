//! Whether a document matches a query.

ghost use Rattle.std.specs.Prelude.{◌≡◌, nat_le};
ghost use Rattle.std.specs.List.{list_any};
ghost use Rattle.serde_json.specs.View.{view, items_view, members_view};
ghost use Rattle.query_match.specs.Matching.{holds, matches, all_match, none_matches, match_count};
ghost use Rattle.task_ids.specs.Source.{members_in};
ghost use Rattle.query_match.specs.Values.{same_bytes, held_at, held_by_key, held_behind, held_behind_each};
ghost use Rattle.query_match.specs.View.{query_view, queries_view};

use crate::field::{after_key, member, value_at};
use crate::field_test::holds;
use query_match::{Node, Query, Test, Text, is_key};
use serde_json::{Map, Value};
use task_ids::{DocSource, Member};

/// Something that lies at the field of an object passes the test. A field without a dot is one look-up.
#[cycle(held)]
fn holds_at(test: &Test, field: &str, members: &Map<String, Value>) -> bool
    ensures { result ≡ list_any (holds test.now) (held_at field.now (members_view members.now.entries)) }
{
    if is_key(field) {
        return match member(members, field) {
            Some(value) => holds(test, value),
            None => false,
        };
    }
    holds_by_keys(test, field, members)
}

/// The same, found by a walk over all keys.
#[cycle(held)]
fn holds_by_keys(test: &Test, field: &str, members: &Map<String, Value>) -> bool
    ensures { result ≡ list_any (holds test.now) (held_at field.now (members_view members.now.entries)) }
{
    for (key, value) in members.iter() {
        if holds_by_key(test, field, key.as_str(), value) {
            return true;
        }
    }
    false
}

#[cycle(held)]
fn holds_by_key(test: &Test, field: &str, key: &str, value: &Value) -> bool
    ensures { result ≡ list_any (holds test.now) (held_by_key field.now key.now (view value.now)) }
{
    if field == key {
        return holds(test, value);
    }
    match after_key(key, field) {
        Some(rest) => holds_behind(test, rest, value),
        None => false,
    }
}

/// Something that lies at the field of an object passes the test, in one object or in a list of them.
#[cycle(held)]
fn holds_behind(test: &Test, field: &str, value: &Value) -> bool
    ensures { result ≡ list_any (holds test.now) (held_behind field.now (view value.now)) }
{
    match value {
        Value::Object(members) => holds_at(test, field, members),
        Value::Array(items) => holds_behind_one(test, field, items.as_slice()),
        _ => false,
    }
}

#[cycle(held)]
fn holds_behind_one(test: &Test, field: &str, items: &[Value]) -> bool
    ensures { result ≡ list_any (holds test.now) (held_behind_each field.now (items_view items.now)) }
{
    for item in items {
        if holds_behind(test, field, item) {
            return true;
        }
    }
    false
}

/// Something that lies at the field of a document passes the test. A field without a dot is one look-up.
fn holds_in(test: &Test, field: &str, source: &DocSource) -> bool
    ensures { result ≡ list_any (holds test.now) (held_behind field.now source.now) }
{
    if is_key(field) {
        return match value_at(source, field) {
            Some(value) => holds(test, value),
            None => false,
        };
    }
    holds_in_members(test, field, source.members())
}

/// The same, found by a walk over all keys.
fn holds_in_members(test: &Test, field: &str, members: &[Member]) -> bool
    ensures { result ≡ list_any (holds test.now) (held_at field.now (members_in members.now)) }
{
    for member in members {
        if holds_by_key(test, field, member.key.get().as_str(), &member.value) {
            return true;
        }
    }
    false
}

fn is_one_of(id: &[u8], ids: &[Text]) -> bool
    ensures { result ≡ list_any (same_bytes id.now) ids.now }
{
    ids.iter().any(|other| id == other.as_str().as_bytes())
}

#[cycle(matching)]
fn node_matches(node: &Node, id: &[u8], source: &DocSource) -> bool
    ensures { result ≡ matches (query_view node.now) id.now source.now }
{
    match node {
        Node::All => true,
        Node::Nothing => false,
        Node::Field(field, test) => holds_in(test, field.as_str(), source),
        Node::Ids(ids) => is_one_of(id, ids.as_slice()),
        Node::Bool {
            must,
            filter,
            should,
            must_not,
            least,
        } => {
            all_match(must, id, source)
                && all_match(filter, id, source)
                && none_matches(must_not, id, source)
                && enough_match(should, *least, id, source)
        }
    }
}

#[cycle(matching)]
fn all_match(nodes: &[Node], id: &[u8], source: &DocSource) -> bool
    ensures { result ≡ all_match (queries_view nodes.now) id.now source.now }
{
    for node in nodes {
        if !node_matches(node, id, source) {
            return false;
        }
    }
    true
}

#[cycle(matching)]
fn none_matches(nodes: &[Node], id: &[u8], source: &DocSource) -> bool
    ensures { result ≡ none_matches (queries_view nodes.now) id.now source.now }
{
    for node in nodes {
        if node_matches(node, id, source) {
            return false;
        }
    }
    true
}

/// At least so many of the queries match.
#[cycle(matching)]
fn enough_match(nodes: &[Node], least: u32, id: &[u8], source: &DocSource) -> bool
    ensures { result ≡ nat_le least (match_count (queries_view nodes.now) id.now source.now) }
{
    let mut missing = least;
    for node in nodes {
        if missing == 0 {
            return true;
        }
        if node_matches(node, id, source) {
            missing -= 1;
        }
    }
    missing == 0
}

/// Whether the document of this id and source matches.
///
/// It takes no memory, and looks once into the source for each field without a dot that the query names; for one with dots it walks the keys. A number with a fraction or an exponent is no value.
pub fn matches(query: &Query, id: &[u8], source: &DocSource) -> bool
    ensures { result ≡ matches query.now id.now source.now }
{
    node_matches(query.node(), id, source)
}
