//! What a query picks: a value that every document that matches it has.

ghost use Rattle.std.specs.Prelude.{◌≡◌, ◌==◌, not, option_map, true};
ghost use Rattle.std.specs.List.{list_any};
ghost use Rattle.query_match.specs.Picks.{picked, term_pick, first_pick, pick_of, is_its_pick};
ghost use Rattle.query_match.specs.Values.{is_key};
ghost use Rattle.query_match.specs.View.{query_view, queries_view};

use crate::query::{Node, Query, Test};
use crate::scalar::Scalar;
use crate::text::Text;

/// A value at a field without a dot in its name. It lies in the query that it was picked from.
#[derive(Clone, Copy)]
pub struct Pick<'q> {
    pub field: &'q Text,
    pub value: &'q Scalar,
}

/// Whether a field has no dot in its name, so that nothing lies at it but what is at the key of that name.
pub fn is_key(field: &str) -> bool
    ensures { result ≡ is_key field.now }
{
    !field.as_bytes().contains(&b'.')
}

fn term_pick(node: &Node) -> Option<Pick<'_>>
    ensures { option_map picked result ≡ term_pick (query_view node.now) }
{
    match node {
        Node::Field(field, Test::Equals(value)) if is_key(field.as_str()) => {
            Some(Pick { field, value })
        }
        _ => None,
    }
}

fn first_pick(nodes: &[Node]) -> Option<Pick<'_>>
    ensures { option_map picked result ≡ first_pick (queries_view nodes.now) }
{
    for node in nodes {
        let pick = term_pick(node);
        if pick.is_some() {
            return pick;
        }
    }
    None
}

impl Query {
    /// A value that every document that matches the query has at a field: that of a `term` on a field without a dot,
    /// and of a `bool` that of the first of its clauses, `must` before `filter`, which is itself such a term. Other
    /// queries pick nothing.
    pub fn pick(&self) -> Option<Pick<'_>>
        ensures { option_map picked result ≡ pick_of self.now }
    {
        match self.node() {
            Node::Bool { must, filter, .. } => {
                first_pick(must.as_slice()).or(first_pick(filter.as_slice()))
            }
            node => term_pick(node),
        }
    }

    /// Whether the query matches each document that has what it picks.
    pub fn is_its_pick(&self) -> bool
        ensures { result ≡ is_its_pick self.now }
    {
        match self.node() {
            Node::All => true,
            Node::Field(field, Test::Equals(_)) => is_key(field.as_str()),
            _ => false,
        }
    }
}
