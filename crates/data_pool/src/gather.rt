//! The parts of a list of tasks, one from each data worker of a node.
ghost use Rattle.std.specs.Prelude.{◌≡◌, true, [], IfOk, OnOk, OnErr, option_map};
ghost use Rattle.data_pool.specs.Gathered as gathered;

use std::alloc::{AllocError, Global};
use std::marker::Model;
use std::mem;
use task_ids::TaskInfo;

/// A list of tasks to which each of so many workers gives one part.
#[derive(Drop)]
pub struct Gather {
    // Of each worker, whether its part has come.
    given: Vec<bool>,
    // The rows of the parts that have come, in the order in which they came.
    rows: Vec<TaskInfo>,
}

impl Model for Gather {
    ghost use Rattle.data_pool.specs.Gathered.{Gathered, coded_gathered};

    ghost Value = { Gathered };

    ghost coded = { coded_gathered };

    ghost view = { λ g. record { given = g.given.items; rows = g.rows.items } };
}

impl Gather {
    /// A list to which so many workers, numbered from 0, are to give their parts. It fails only for want of memory.
    pub fn new(alloc: Global, parts: u32) -> Result<Gather, AllocError>
        ensures { IfOk result (λ gather. gather ≡ gathered.nothing_given parts) }
    {
        Ok(Gather {
            given: vec![in alloc; false; parts as usize]?,
            rows: Vec::new(alloc),
        })
    }

    /// Whether a worker is one of those that give parts, and has not given its own.
    pub fn takes(&self, worker: u32) -> bool
        ensures { result ≡ gathered.takes self.now worker }
    {
        self.given.get(worker as usize).is_some_and(|given| !*given)
    }

    /// Takes in the part of a worker. With the last part it gives the rows of all parts by ascending id, those of one id in the order in
    /// which they came, and keeps none; before, it gives none. It fails only for want of memory, and then nothing has changed.
    pub fn part(
        &mut self,
        worker: u32,
        rows: Vec<TaskInfo>,
    ) -> Result<Option<Vec<TaskInfo>>, AllocError>
        requires { gathered.takes self.old worker ≡ true }
        ensures answer { IfOk result (λ answer. option_map (λ rows. rows.items) answer ≡ gathered.answer_of (gathered.with_part self.old worker rows.items)) }
        ensures after { OnOk result (self.new ≡ gathered.left_by (gathered.with_part self.old worker rows.items)) }
        ensures err { OnErr result (self.new ≡ self.old) }
    {
        let before = self.rows.len();
        let mut rows = rows;
        self.rows.append(&mut rows)?;
        self.given[worker as usize] = true;
        if !self.is_whole() {
            return Ok(None);
        }
        match self.take_all() {
            Ok(all) => Ok(Some(all)),
            Err(full) => {
                self.given[worker as usize] = false;
                self.rows.truncate(before);
                Err(full)
            }
        }
    }

    // Whether each part has come.
    fn is_whole(&self) -> bool
        ensures { result ≡ gathered.is_whole self.now }
    {
        self.given.iter().all(|given| *given)
    }

    // The rows that have come, by ascending id. Where it fails nothing has changed.
    fn take_all(&mut self) -> Result<Vec<TaskInfo>, AllocError>
        ensures all { IfOk result (λ rows. rows.items ≡ gathered.in_id_order self.old.rows) }
        ensures after { OnOk result (self.new ≡ record self.old { rows = [] }) }
        ensures err { OnErr result (self.new ≡ self.old) }
    {
        self.rows.sort_by_key(|row| row.id)?;
        let none = Vec::new(*self.rows.allocator());
        Ok(mem::replace(&mut self.rows, none))
    }
}
