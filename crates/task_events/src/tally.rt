ghost use Rattle.std.specs.Prelude.{◌≡◌, IfOk};
ghost use Rattle.task_events.specs.NoCounts.{no_counts};

use crate::reply::Counts;
use shared_value::Shared;
use std::alloc::{AllocError, Global};
use std::marker::Model;

/// What a task has counted, in two words, which keeps what holds it small. Most tasks count nothing, and then it takes no memory. Its
/// copies are other owners of the same counts. Contracts see the counts.
#[derive(Drop)]
pub struct Tally {
    /// None where nothing was counted.
    counts: Option<Shared<Counts>>,
}

impl Model for Tally {
    ghost use Rattle.std.specs.Prelude.{unwrap_or};
    ghost use Rattle.task_events.specs.NoCounts.{no_counts};
    ghost use Rattle.task_events.specs.contracts.reply.Counts as counts_row;
    ghost use Rattle.task_events.specs.declared.reply.Counts.{Counts};

    ghost Value = { Counts };

    ghost coded = { counts_row.the_row.coded };

    ghost view = { λ t. unwrap_or t.counts no_counts };
}

impl Tally {
    /// Nothing was counted. It takes no memory.
    pub fn none() -> Tally
        ensures { result ≡ no_counts }
    {
        Tally { counts: None }
    }

    /// These counts. It fails only for want of memory.
    pub fn of(alloc: Global, counts: Counts) -> Result<Tally, AllocError>
        ensures { IfOk result (λ tally. tally ≡ counts) }
    {
        if counts == Counts::none() {
            return Ok(Tally::none());
        }
        let counts = Shared::new(alloc, counts)?;
        Ok(Tally {
            counts: Some(counts),
        })
    }

    /// The counts.
    pub fn get(&self) -> Counts
        ensures { result ≡ self.now }
    {
        match &self.counts {
            Some(counts) => *counts.get(),
            None => Counts::none(),
        }
    }

    /// Equal counts, which take no memory. It fails only where there are 2^63 owners of them.
    pub fn copy(&self) -> Result<Tally, AllocError>
        ensures { IfOk result (λ tally. tally ≡ self.now) }
    {
        let counts = match &self.counts {
            Some(counts) => Some(counts.copy()?),
            None => None,
        };
        Ok(Tally { counts })
    }
}
