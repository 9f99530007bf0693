//! Queries that hold no query.

ghost use Rattle.std.specs.Prelude.{◌≡◌, option_map, Ok};
ghost use Rattle.serde_json.specs.Find.{as_str};
ghost use Rattle.task_ids.specs.Json.{json_view, json_items, json_members};
ghost use Rattle.query_parse.specs.Answers.{Gives};
ghost use Rattle.query_match.specs.Found.{found_view};
ghost use Rattle.query_parse.specs.Paths.{path_text};
ghost use Rattle.query_parse.specs.Reading.{each_at, empty_at, equals_at, one_of_at, bound_of, bound_at, side_at, range_of, bounds_at, within_at, starts_at, test_at, field_at, exists_at, ids_at, leaf_at};
ghost use Rattle.query_match.specs.Query.{field};
ghost use Rattle.query_match.specs.Values.{value_of};
ghost use Rattle.query_match.specs.View.{query_view};

use crate::fault::{QueryError, QueryFault};
use crate::form::Form;
use crate::path::Path;
use crate::shape::{has_bounds_alone, member, only_member, only_named, unwrapped, value_in};
use query_match::{Found, Items, Node, Range, Scalar, Test, Text};
use std::alloc::Global;
use task_ids::{Json, JsonMember};

/// What a query asks of a field.
#[derive(Clone, Copy)]
enum Asked {
    Equal,
    OneOf,
    Within,
    Start,
}

/// The query that something at a field passes a test.
fn on_field(alloc: Global, name: &str, test: Test) -> Result<Node, QueryError>
    ensures { Gives query_view result (Ok (field name.now test)) }
{
    match Text::from_str(alloc, name) {
        Ok(name) => Ok(Node::Field(name, test)),
        Err(_) => {
            drop(test);
            Err(QueryError::Memory)
        }
    }
}

/// `v` or `{"value": v}`, at the path of a field.
#[tactic(auto, unfolding(crate::specs::Reading::equals_at))]
fn read_equals(alloc: Global, path: &Path<'_>, value: &Json) -> Result<Test, QueryError>
    ensures { Gives (λ t. t) result (equals_at (path_text path.now) (json_view value.now)) }
{
    let (path, value) = unwrapped(path, value);
    match value_in(value) {
        Some(found) => Ok(Test::Equals(found.kept(alloc)?)),
        None => Err(path.fault(alloc, QueryFault::BadValue)),
    }
}

fn read_scalars(
    alloc: Global,
    path: &Path<'_>,
    values: &[Json],
) -> Result<Items<Scalar>, QueryError>
    ensures { Gives (λ xs. xs) result (each_at value_of (path_text path.now) 0 (json_items values.now)) }
{
    let mut read = Vec::with_capacity(alloc, values.len())?;
    for (i, value) in values.iter().enumerate() {
        match value_in(value) {
            Some(found) => read.push(found.kept(alloc)?)?,
            None => return Err(path.place(i).fault(alloc, QueryFault::BadValue)),
        }
    }
    Ok(Items::from_vec(read))
}

fn read_texts(alloc: Global, path: &Path<'_>, values: &[Json]) -> Result<Items<Text>, QueryError>
    ensures { Gives (λ xs. xs) result (each_at as_str (path_text path.now) 0 (json_items values.now)) }
{
    let mut read = Vec::with_capacity(alloc, values.len())?;
    for (i, value) in values.iter().enumerate() {
        match value.as_str() {
            Some(text) => read.push(Text::from_str(alloc, text)?)?,
            None => return Err(path.place(i).fault(alloc, QueryFault::BadValue)),
        }
    }
    Ok(Items::from_vec(read))
}

/// `[v, v]`, at the path of a field.
#[tactic(auto, unfolding(crate::specs::Reading::one_of_at))]
fn read_one_of(alloc: Global, path: &Path<'_>, value: &Json) -> Result<Test, QueryError>
    ensures { Gives (λ t. t) result (one_of_at (path_text path.now) (json_view value.now)) }
{
    match value.as_array() {
        Some(values) => Ok(Test::OneOf(read_scalars(alloc, path, values)?)),
        None => Err(path.fault(alloc, QueryFault::BadValue)),
    }
}

/// A whole number or a text.
fn bound_in(value: &Json) -> Option<Found<'_>>
    ensures { option_map found_view result ≡ bound_of (json_view value.now) }
{
    match value {
        Json::Bool(_) => None,
        _ => value_in(value),
    }
}

#[tactic(auto, unfolding(crate::specs::Reading::bound_at))]
fn read_bound(
    alloc: Global,
    path: &Path<'_>,
    name: &str,
    members: &[JsonMember],
) -> Result<Option<Scalar>, QueryError>
    ensures { Gives (λ x. x) result
        (bound_at (path_text path.now) name.now (json_members members.now)) }
{
    match member(members, name) {
        None => Ok(None),
        Some(value) => match bound_in(value) {
            Some(found) => Ok(Some(found.kept(alloc)?)),
            None => Err(path.key(name).fault(alloc, QueryFault::BadValue)),
        },
    }
}

/// The strict and the weak bound of one side, each if it is there.
#[tactic(auto, unfolding(crate::specs::Reading::side_at))]
fn read_side(
    alloc: Global,
    path: &Path<'_>,
    strict: &str,
    weak: &str,
    members: &[JsonMember],
) -> Result<(Option<Scalar>, Option<Scalar>), QueryError>
    ensures { Gives (λ s. s) result
        (side_at (path_text path.now) strict.now weak.now (json_members members.now)) }
{
    let first = read_bound(alloc, path, strict, members)?;
    match read_bound(alloc, path, weak, members) {
        Ok(second) => Ok((first, second)),
        Err(error) => {
            drop(first);
            Err(error)
        }
    }
}

#[tactic(auto, unfolding(crate::specs::Reading::bounds_at))]
fn read_bounds(alloc: Global, path: &Path<'_>, members: &[JsonMember]) -> Result<Range, QueryError>
    ensures { Gives (λ x. x) result (bounds_at (path_text path.now) (json_members members.now)) }
{
    if !has_bounds_alone(members) {
        return Err(path.fault(alloc, QueryFault::BadValue));
    }
    let low = read_side(alloc, path, "gt", "gte", members)?;
    match read_side(alloc, path, "lt", "lte", members) {
        Ok(high) => Ok(range_of(low, high)),
        Err(error) => {
            drop(low);
            Err(error)
        }
    }
}

/// The range with these bounds below and above.
fn range_of(low: (Option<Scalar>, Option<Scalar>), high: (Option<Scalar>, Option<Scalar>)) -> Range
    ensures { result ≡ range_of low high }
{
    Range {
        above: low.0,
        from: low.1,
        below: high.0,
        to: high.1,
    }
}

/// `{"gte", "gt", "lte", "lt"}`, at the path of a field.
#[tactic(auto, unfolding(crate::specs::Reading::within_at))]
fn read_within(alloc: Global, path: &Path<'_>, value: &Json) -> Result<Test, QueryError>
    ensures { Gives (λ t. t) result (within_at (path_text path.now) (json_view value.now)) }
{
    match value.as_object() {
        Some(members) => Ok(Test::Within(read_bounds(alloc, path, members)?)),
        None => Err(path.fault(alloc, QueryFault::BadValue)),
    }
}

/// `t` or `{"value": t}`, at the path of a field.
#[tactic(auto, unfolding(crate::specs::Reading::starts_at))]
fn read_starts(alloc: Global, path: &Path<'_>, value: &Json) -> Result<Test, QueryError>
    ensures { Gives (λ t. t) result (starts_at (path_text path.now) (json_view value.now)) }
{
    let (path, value) = unwrapped(path, value);
    match value.as_str() {
        Some(front) => Ok(Test::Starts(Text::from_str(alloc, front)?)),
        None => Err(path.fault(alloc, QueryFault::BadValue)),
    }
}

/// What a query asks of a field, from what stands at the field.
fn read_test(alloc: Global, asked: Asked, path: &Path<'_>, value: &Json) -> Result<Test, QueryError>
    ensures { Gives (λ t. t) result (test_at asked (path_text path.now) (json_view value.now)) }
{
    match asked {
        Asked::Equal => read_equals(alloc, path, value),
        Asked::OneOf => read_one_of(alloc, path, value),
        Asked::Within => read_within(alloc, path, value),
        Asked::Start => read_starts(alloc, path, value),
    }
}

/// A query of one field, the key of its object.
#[tactic(auto, unfolding(crate::specs::Reading::field_at))]
fn read_field(
    alloc: Global,
    asked: Asked,
    path: &Path<'_>,
    value: &Json,
) -> Result<Node, QueryError>
    ensures { Gives query_view result (field_at asked (path_text path.now) (json_view value.now)) }
{
    match only_member(value) {
        None => Err(path.fault(alloc, QueryFault::BadValue)),
        Some((field, inner)) => match read_test(alloc, asked, &path.key(field), inner) {
            Ok(test) => on_field(alloc, field, test),
            Err(error) => Err(error),
        },
    }
}

/// `{"field": f}`.
#[tactic(auto, unfolding(crate::specs::Reading::exists_at))]
fn read_exists(alloc: Global, path: &Path<'_>, value: &Json) -> Result<Node, QueryError>
    ensures { Gives query_view result (exists_at (path_text path.now) (json_view value.now)) }
{
    let Some(inner) = only_named("field", value) else {
        return Err(path.fault(alloc, QueryFault::BadValue));
    };
    match inner.as_str() {
        Some(field) => Ok(Node::Field(Text::from_str(alloc, field)?, Test::Exists)),
        None => Err(path.key("field").fault(alloc, QueryFault::BadValue)),
    }
}

/// `{"values": [t, t]}`.
#[tactic(auto, unfolding(crate::specs::Reading::ids_at))]
fn read_ids(alloc: Global, path: &Path<'_>, value: &Json) -> Result<Node, QueryError>
    ensures { Gives query_view result (ids_at (path_text path.now) (json_view value.now)) }
{
    let Some(inner) = only_named("values", value) else {
        return Err(path.fault(alloc, QueryFault::BadValue));
    };
    let at_values = path.key("values");
    let Some(values) = inner.as_array() else {
        return Err(at_values.fault(alloc, QueryFault::BadValue));
    };
    Ok(Node::Ids(read_texts(alloc, &at_values, values)?))
}

#[tactic(auto, unfolding(crate::specs::Reading::empty_at))]
fn read_empty(alloc: Global, path: &Path<'_>, value: &Json) -> Result<(), QueryError>
    ensures { Gives (λ x. x) result (empty_at (path_text path.now) (json_view value.now)) }
{
    match value {
        Json::Object(members) => {
            if members.is_empty() {
                Ok(())
            } else {
                Err(path.fault(alloc, QueryFault::BadValue))
            }
        }
        _ => Err(path.fault(alloc, QueryFault::BadValue)),
    }
}

/// A query of a kind that holds no query, from what stands at its key.
pub(crate) fn read_leaf(
    alloc: Global,
    form: Option<Form>,
    path: &Path<'_>,
    value: &Json,
) -> Result<Node, QueryError>
    ensures { Gives query_view result (leaf_at form (path_text path.now) (json_view value.now)) }
{
    let Some(form) = form else {
        return Err(path.fault(alloc, QueryFault::UnknownQuery));
    };
    match form {
        Form::All => {
            read_empty(alloc, path, value)?;
            Ok(Node::All)
        }
        Form::Nothing => {
            read_empty(alloc, path, value)?;
            Ok(Node::Nothing)
        }
        Form::Term => read_field(alloc, Asked::Equal, path, value),
        Form::Terms => read_field(alloc, Asked::OneOf, path, value),
        Form::Range => read_field(alloc, Asked::Within, path, value),
        Form::Prefix => read_field(alloc, Asked::Start, path, value),
        Form::Exists => read_exists(alloc, path, value),
        Form::Ids => read_ids(alloc, path, value),
        Form::Bool => Err(path.fault(alloc, QueryFault::BadValue)),
    }
}
