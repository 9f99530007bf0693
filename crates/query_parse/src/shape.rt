//! The shapes of JSON values that bodies are made of.

ghost use Rattle.std.specs.Prelude.{◌≡◌, map, option_map, find, not};
ghost use Rattle.std.specs.List.{list_all};
ghost use Rattle.serde_json.specs.Find.{get_member};
ghost use Rattle.task_ids.specs.Json.{json_view, json_members};
ghost use Rattle.query_match.specs.Found.{found_view};
ghost use Rattle.query_match.specs.Values.{value_of};
ghost use Rattle.query_parse.specs.Paths.{path_text};
ghost use Rattle.query_parse.specs.Reading.{only_entry, only_member, only_named, unwrapped, member_keys, is_one_of, is_bound_name, is_clause_name};

use crate::path::Path;
use query_match::Found;
use task_ids::{Json, JsonMember};

/// The key and the value, where there is one key.
pub(crate) fn only_entry(members: &[JsonMember]) -> Option<(&str, &Json)>
    ensures { option_map (λ m. (m.0.now, json_view m.1.now)) result ≡ only_entry (json_members members.now) }
{
    match members {
        [member] => Some((member.key.as_str(), &member.value)),
        _ => None,
    }
}

/// The key and the value of an object with one key.
#[tactic(auto, using(task_ids::proofs::Jsons::objects))]
pub(crate) fn only_member(value: &Json) -> Option<(&str, &Json)>
    ensures { option_map (λ m. (m.0.now, json_view m.1.now)) result ≡ only_member (json_view value.now) }
{
    match value {
        Json::Object(members) => only_entry(members.as_slice()),
        _ => None,
    }
}

/// The value of an object with this key alone.
pub(crate) fn only_named<'v>(name: &str, value: &'v Json) -> Option<&'v Json>
    ensures { option_map (λ v. json_view v.now) result ≡ only_named name.now (json_view value.now) }
{
    match only_member(value) {
        Some((key, inner)) if key == name => Some(inner),
        _ => None,
    }
}

/// The value of the first member of this name, if there is one.
pub(crate) fn member<'v>(members: &'v [JsonMember], name: &str) -> Option<&'v Json>
    ensures { option_map (λ v. json_view v.now) result ≡ get_member name.now (json_members members.now) }
{
    for member in members {
        if name == member.key.as_str() {
            return Some(&member.value);
        }
    }
    None
}

/// The value that a JSON value is. A number with a fraction or an exponent is none, as null, a list and an object are.
pub(crate) fn value_in(value: &Json) -> Option<Found<'_>>
    ensures { option_map found_view result ≡ value_of (json_view value.now) }
{
    match value {
        Json::Bool(truth) => Some(Found::Bool(*truth)),
        Json::Number(number) => match number.as_i128() {
            Some(whole) => Some(Found::Whole(whole)),
            None => None,
        },
        Json::String(text) => Some(Found::Text(text.as_str())),
        Json::Null | Json::Array(_) | Json::Object(_) => None,
    }
}

/// `v` and its path, for `v` or `{"value": v}` at a path.
pub(crate) fn unwrapped<'a>(path: &'a Path<'a>, value: &'a Json) -> (Path<'a>, &'a Json)
    ensures path { path_text result.0 ≡ (unwrapped (path_text path.now) (json_view value.now)).0 }
    ensures value { json_view result.1.now ≡ (unwrapped (path_text path.now) (json_view value.now)).1 }
{
    match only_named("value", value) {
        Some(inner) => (path.key("value"), inner),
        None => (*path, value),
    }
}

/// Whether a name is one of some.
pub(crate) fn is_one_of(name: &str, names: &[&str]) -> bool
    ensures { result ≡ is_one_of (map (λ n. n.now) names.now) name.now }
{
    for other in names {
        if name == *other {
            return true;
        }
    }
    false
}

/// The first key that is none of some names.
pub(crate) fn first_unknown<'v>(members: &'v [JsonMember], names: &[&str]) -> Option<&'v str>
    ensures { option_map (λ f. f.now) result
        ≡ find (λ k. not (is_one_of (map (λ n. n.now) names.now) k)) (member_keys (json_members members.now)) }
{
    for member in members {
        let key = member.key.as_str();
        if !is_one_of(key, names) {
            return Some(key);
        }
    }
    None
}

/// Whether each key is one of some names.
fn has_these_alone(members: &[JsonMember], names: &[&str]) -> bool
    ensures { result ≡ list_all (is_one_of (map (λ n. n.now) names.now)) (member_keys (json_members members.now)) }
{
    for member in members {
        if !is_one_of(member.key.as_str(), names) {
            return false;
        }
    }
    true
}

/// The bounds that a range can have.
const BOUND_NAMES: [&str; 4] = ["gt", "gte", "lt", "lte"];

/// The keys that a `bool` can have.
const CLAUSE_NAMES: [&str; 5] = [
    "filter",
    "minimum_should_match",
    "must",
    "must_not",
    "should",
];

pub(crate) fn has_bounds_alone(members: &[JsonMember]) -> bool
    ensures { result ≡ list_all is_bound_name (member_keys (json_members members.now)) }
{
    has_these_alone(members, &BOUND_NAMES)
}

pub(crate) fn has_clauses_alone(members: &[JsonMember]) -> bool
    ensures { result ≡ list_all is_clause_name (member_keys (json_members members.now)) }
{
    has_these_alone(members, &CLAUSE_NAMES)
}
