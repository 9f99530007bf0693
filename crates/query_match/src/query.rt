ghost use Rattle.std.specs.Prelude.{◌≡◌, IfOk};

use crate::items::Items;
use crate::scalar::Scalar;
use crate::text::Text;
use shared_value::Shared;
use std::alloc::{AllocError, Global};
use std::marker::Model;

/// A query of a search. It is never changed, and its copies are other owners of the same tree.
#[derive(Drop)]
pub struct Query {
    node: Shared<Node>,
}

impl Model for Query {
    ghost use Rattle.query_match.specs.Query.{Query};
    ghost use Rattle.query_match.specs.Stored.{query_code};

    ghost Value = { Query };

    ghost coded = { query_code };

    ghost use Rattle.query_match.specs.View.{query_view};

    ghost view = { λ a. query_view a.node };
}

impl Query {
    ghost use Rattle.query_match.specs.Query.{match_all};
    ghost use Rattle.query_match.specs.View.{query_view};

    /// The query that a tree stands for, which moves in. It fails only for want of memory.
    pub fn new(alloc: Global, node: Node) -> Result<Query, AllocError>
        ensures { IfOk result (λ query. query ≡ query_view node) }
    {
        Ok(Query {
            node: Shared::new(alloc, node)?,
        })
    }

    /// The tree, borrowed.
    pub fn node(&self) -> &Node
        ensures { query_view result.now ≡ self.now }
    {
        self.node.get()
    }

    /// The query that every document matches. It fails only for want of memory.
    pub fn all(alloc: Global) -> Result<Query, AllocError>
        ensures { IfOk result (λ query. query ≡ match_all) }
    {
        Query::new(alloc, Node::All)
    }

    /// An equal query, which takes no memory. It fails only where there are 2^63 of them.
    pub fn copy(&self) -> Result<Query, AllocError>
        ensures { IfOk result (λ query. query ≡ self.now) }
    {
        Ok(Query {
            node: self.node.copy()?,
        })
    }
}

/// A query as a tree.
#[derive(Drop)]
pub enum Node {
    /// Every document.
    All,
    /// No document.
    Nothing,
    /// Something at the field, a name with dots, passes the test.
    Field(Text, Test),
    /// The id is one of these.
    Ids(Items<Text>),
    /// All of `must` and `filter`, none of `must_not`, and at least so many of `should`.
    Bool {
        must: Vec<Node>,
        filter: Vec<Node>,
        should: Vec<Node>,
        must_not: Vec<Node>,
        least: u32,
    },
}

/// What is asked of what lies at a field.
#[derive(Drop)]
pub enum Test {
    /// A value that is equal to this one.
    Equals(Scalar),
    /// A value that is equal to one of these.
    OneOf(Items<Scalar>),
    /// A value within the bounds, of their kind.
    Within(Range),
    /// A text that begins with this one.
    Starts(Text),
    /// Any value.
    Exists,
}

/// Bounds, each a whole number or a text.
#[derive(Drop)]
pub struct Range {
    /// `gt`.
    pub above: Option<Scalar>,
    /// `gte`.
    pub from: Option<Scalar>,
    /// `lt`.
    pub below: Option<Scalar>,
    /// `lte`.
    pub to: Option<Scalar>,
}

/// Which bound of a range.
#[derive(Clone, Copy)]
pub enum Side {
    /// `gt`.
    Above,
    /// `gte`.
    From,
    /// `lt`.
    Below,
    /// `lte`.
    To,
}
