// Letters, which keep what their run asks of them.
ghost use Rattle.std.specs.Prelude.{◌≡◌};
ghost use Rattle.node_link.specs.Lawful.{IsLawful};

use crate::body::Body;
use crate::name::RunName;
use std::marker::{Model, PhantomData};

/// A letter of a run. Contracts see what it says.
///
/// Its type keeps that what it says is lawful: nodes are 1 to 15, commands and cancellations 1 to 65,535, and each cancellation is one
/// that the boards of the run may be told of. So whoever takes a letter can tell its board of a ban or a mark with the number in it.
/// It keeps besides what the run's name asks.
#[derive(Drop)]
pub struct Letter<N: RunName> {
    body: Body,
    of: PhantomData<N>,
}

impl<N: RunName> Model for Letter<N> {
    ghost use Rattle.node_link.specs.contracts.body.Body as body_row;
    ghost use Rattle.node_link.specs.declared.body.Body.{Body};

    ghost Value = { Body };

    ghost coded = { body_row.the_row.coded };

    ghost use Rattle.node_link.specs.Lawful.{IsLawful};

    ghost view = { λ l. l.body };

    ghost invariant = { λ l. IsLawful N.allowed l.body × N.asks l.body };
}

impl<N: RunName> Letter<N> {
    /// A letter that says this.
    pub fn new(body: Body) -> Letter<N>
        requires lawful { IsLawful N.allowed body }
        requires asked { N.asks body }
        ensures { result ≡ body }
    {
        Letter {
            body,
            of: PhantomData,
        }
    }

    /// What it says, which stays.
    pub fn body(&self) -> &Body
        ensures same { result.now ≡ self.now }
        ensures lawful { IsLawful N.allowed result.now }
        ensures asked { N.asks result.now }
    {
        &self.body
    }

    /// What it says, which moves out.
    pub fn into_body(self) -> Body
        ensures same { result ≡ self }
        ensures lawful { IsLawful N.allowed result }
        ensures asked { N.asks result }
    {
        let Letter { body, of: _ } = self;
        body
    }
}
