//! Reading a query from a JSON value.

ghost use Rattle.std.specs.Prelude.{◌≡◌, [], ◌∷◌, Ok, codes};
ghost use Rattle.task_ids.specs.Json.{json_view, json_items, json_members};
ghost use Rattle.query_parse.specs.Answers.{Gives};
ghost use Rattle.query_parse.specs.Paths.{path_text};
ghost use Rattle.query_parse.specs.Reading.{query_at, query_in, query_of, are_none, least_of, bool_at, clause_in, clause_at, queries_at, minimum_at};
ghost use Rattle.query_match.specs.View.{query_view, queries_view};

use crate::fault::{QueryError, QueryFault};
use crate::form::Form;
use crate::leaf::read_leaf;
use crate::path::Path;
use crate::shape::{has_clauses_alone, member, only_entry};
use query_match::{Node, Query};
use std::alloc::Global;
use task_ids::{Json, JsonMember};

/// A whole number from 0 to 1,024 at `minimum_should_match`, if it is there.
#[tactic(auto, unfolding(crate::specs::Reading::minimum_at))]
fn read_minimum(
    alloc: Global,
    path: &Path<'_>,
    members: &[JsonMember],
) -> Result<Option<u32>, QueryError>
    ensures { Gives (λ x. x) result (minimum_at (path_text path.now) (json_members members.now)) }
{
    match member(members, "minimum_should_match") {
        None => Ok(None),
        Some(value) => match value.as_u64() {
            Some(number) if number <= 1024 => Ok(Some(number as u32)),
            _ => Err(
                path.key("minimum_should_match")
                    .fault(alloc, QueryFault::BadValue),
            ),
        },
    }
}

fn are_none(nodes: &[Node]) -> bool
    ensures { result ≡ are_none (queries_view nodes.now) }
{
    nodes.is_empty()
}

/// How many of should have to match: the given minimum, else 1 with a should and neither must nor filter, else 0.
fn least_of(minimum: Option<u32>, must: &[Node], filter: &[Node], should: &[Node]) -> u32
    ensures { result ≡ least_of minimum (queries_view must.now) (queries_view filter.now) (queries_view should.now) }
{
    match minimum {
        Some(least) => least,
        None => {
            if are_none(must) && are_none(filter) && !are_none(should) {
                1
            } else {
                0
            }
        }
    }
}

/// A list of one query.
fn one_node(alloc: Global, node: Node) -> Result<Vec<Node>, QueryError>
    ensures { Gives (λ ns. ns.items) result (Ok (node ∷ [])) }
{
    let mut nodes = match Vec::with_capacity(alloc, 1) {
        Ok(nodes) => nodes,
        Err(_) => {
            drop(node);
            return Err(QueryError::Memory);
        }
    };
    nodes.push(node)?;
    Ok(nodes)
}

/// A query.
#[cycle(read)]
#[tactic(auto, using(task_ids::proofs::Jsons::objects))]
fn read_node(alloc: Global, path: &Path<'_>, value: &Json) -> Result<Node, QueryError>
    ensures { Gives query_view result (query_at (path_text path.now) (json_view value.now)) }
{
    match value {
        Json::Object(members) => read_entry(alloc, path, members.as_slice()),
        _ => Err(path.fault(alloc, QueryFault::BadValue)),
    }
}

/// A query, from its object.
#[cycle(read)]
fn read_entry(alloc: Global, path: &Path<'_>, members: &[JsonMember]) -> Result<Node, QueryError>
    ensures { Gives query_view result (query_in (path_text path.now) (json_members members.now)) }
{
    match only_entry(members) {
        None => Err(path.fault(alloc, QueryFault::NotOneKey)),
        Some((name, value)) => read_named(alloc, &(&*path).key(name), Form::named(name), value),
    }
}

/// A query, from what stands at its key.
#[cycle(read)]
#[tactic(auto, using(task_ids::proofs::Jsons::objects))]
fn read_named(
    alloc: Global,
    path: &Path<'_>,
    form: Option<Form>,
    value: &Json,
) -> Result<Node, QueryError>
    ensures { Gives query_view result (query_of form (path_text path.now) (json_view value.now)) }
{
    match (form, value) {
        (Some(Form::Bool), Json::Object(members)) => read_bool(alloc, path, members.as_slice()),
        _ => read_leaf(alloc, form, path, value),
    }
}

#[cycle(read)]
#[tactic(auto, unfolding(crate::specs::Reading::bool_of))]
fn read_bool(alloc: Global, path: &Path<'_>, members: &[JsonMember]) -> Result<Node, QueryError>
    ensures { Gives query_view result (bool_at (path_text path.now) (json_members members.now)) }
{
    if !has_clauses_alone(members) {
        return Err(path.fault(alloc, QueryFault::BadValue));
    }
    let filter = read_clause(alloc, path, "filter", members)?;
    let minimum = read_minimum(alloc, path, members)?;
    let must = read_clause(alloc, path, "must", members)?;
    let must_not = read_clause(alloc, path, "must_not", members)?;
    let should = read_clause(alloc, path, "should", members)?;
    let least = least_of(minimum, &must, &filter, &should);
    Ok(Node::Bool {
        must,
        filter,
        should,
        must_not,
        least,
    })
}

/// The queries at a key, of which there are none where the key is absent.
#[cycle(read)]
fn read_clause(
    alloc: Global,
    path: &Path<'_>,
    name: &str,
    members: &[JsonMember],
) -> Result<Vec<Node>, QueryError>
    ensures { Gives (λ ns. queries_view ns.items) result
        (clause_in (path_text path.now) name.now (json_members members.now)) }
{
    match member(members, name) {
        None => Ok(Vec::new(alloc)),
        Some(value) => read_queries(alloc, &(&*path).key(&*name), value),
    }
}

/// One query or a list of them.
#[cycle(read)]
#[tactic(auto, using(task_ids::proofs::Jsons::objects))]
fn read_queries(alloc: Global, path: &Path<'_>, value: &Json) -> Result<Vec<Node>, QueryError>
    ensures { Gives (λ ns. queries_view ns.items) result (clause_at (path_text path.now) (json_view value.now)) }
{
    match value {
        Json::Object(members) => one_node(alloc, read_entry(alloc, path, members.as_slice())?),
        Json::Array(values) => read_list(alloc, path, values.as_slice()),
        _ => Err(path.fault(alloc, QueryFault::BadValue)),
    }
}

#[cycle(read)]
fn read_list(alloc: Global, path: &Path<'_>, values: &[Json]) -> Result<Vec<Node>, QueryError>
    ensures { Gives (λ ns. queries_view ns.items) result (queries_at (path_text path.now) 0 (json_items values.now)) }
{
    let mut nodes = Vec::with_capacity(alloc, values.len())?;
    for (i, value) in values.iter().enumerate() {
        let node = read_node(alloc, &(&*path).place(i), value)?;
        nodes.push(node)?;
    }
    Ok(nodes)
}

/// The query that a JSON value is, after Elasticsearch's Query DSL.
///
/// An error tells the first fault: depth first, an object's keys in the order of their bytes. `Memory` comes only for want of memory. A number with a fraction or an exponent is a wrong value.
pub fn read_query(alloc: Global, value: &Json) -> Result<Query, QueryError>
    ensures { Gives (λ q. q) result (query_at (codes "query") (json_view value.now)) }
{
    Ok(Query::new(alloc, read_node(alloc, &Path::Query, value)?)?)
}
