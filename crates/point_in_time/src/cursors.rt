//! The cursors that searches leave at points in time.
ghost use Rattle.std.specs.Prelude.{◌≡◌, None, OnOk, OnErr, option_copied};
ghost use Rattle.std.specs.FinMap as finite;
ghost use Rattle.point_in_time.specs.Pits.{cursors_at, cursor_at};

use query_match::{Items, SortBy};
use std::alloc::{AllocError, Global};
use std::collections::BTreeMap;
use std::marker::Model;
use task_events::HitKey;
use task_ids::TaskId;

/// Where a search at a point in time ended, so that another with the same sort can go on there.
#[derive(Drop)]
pub struct Cursor {
    /// The search that left it.
    pub search: TaskId,
    /// The sort of that search.
    pub sort: Items<SortBy>,
    /// The last row that it showed.
    pub key: HitKey,
}

/// The cursors of one point in time. Contracts see a map from the searches that left them.
#[derive(Drop)]
pub(crate) struct Cursors {
    left: BTreeMap<TaskId, Cursor>,
}

impl Model for Cursors {
    ghost use Rattle.std.specs.FinMap as finite;
    ghost use Rattle.task_ids.specs.TaskIdOrder.{task_id_cmp, coded_task_id};
    ghost use Rattle.point_in_time.specs.declared.cursors.Cursor.{Cursor};
    ghost use Rattle.point_in_time.specs.contracts.cursors.Cursor as cursor_row;

    ghost Value = { finite.FinMap task_id_cmp Cursor };

    ghost coded = { finite.code coded_task_id cursor_row.the_row.coded };

    ghost view = { λ a. finite.from_entries a.left.entries };
}

impl Cursors {
    /// None yet, which takes no memory.
    fn new(alloc: Global) -> Cursors
        ensures { result ≡ finite.empty }
    {
        Cursors {
            left: BTreeMap::new(alloc),
        }
    }

    /// One more, or another of the same search. Where memory runs out nothing has changed.
    fn put(&mut self, cursor: Cursor) -> Result<(), AllocError>
        ensures ok { OnOk result (self.new ≡ finite.insert self.old cursor.search cursor) }
        ensures err { OnErr result (self.new ≡ self.old) }
    {
        let search = cursor.search;
        self.left.insert(search, cursor)?;
        Ok(())
    }

    /// The cursor that a search left, where it left one.
    fn get(&self, search: &TaskId) -> Option<&Cursor>
        ensures { option_copied result ≡ finite.get self.now search.now }
    {
        self.left.get(search)
    }
}

/// The cursors of all points in time. Contracts see a map from those that have some to the cursors of each.
#[derive(Drop)]
pub(crate) struct CursorTable {
    alloc: Global,
    by_pit: BTreeMap<TaskId, Cursors>,
}

impl Model for CursorTable {
    ghost use Rattle.std.specs.FinMap as finite;
    ghost use Rattle.task_ids.specs.TaskIdOrder.{task_id_cmp};
    ghost use Rattle.point_in_time.specs.Pits.{CursorsOfAll, coded_cursors};

    ghost Value = { CursorsOfAll };

    ghost coded = { coded_cursors };

    ghost view = { λ a. finite.from_entries a.by_pit.entries };
}

impl CursorTable {
    /// None yet, which takes no memory.
    pub(crate) fn new(alloc: Global) -> CursorTable
        ensures { result ≡ finite.empty }
    {
        CursorTable {
            alloc,
            by_pit: BTreeMap::new(alloc),
        }
    }

    /// One more at a point in time, or another of the same search. Where memory runs out nothing has changed.
    pub(crate) fn put(&mut self, pit: TaskId, cursor: Cursor) -> Result<(), AllocError>
        ensures ok { OnOk result (self.new
            ≡ finite.insert self.old pit (finite.insert (cursors_at pit self.old) cursor.search cursor)) }
        ensures err { OnErr result (self.new ≡ self.old) }
    {
        if let Some(cursors) = self.by_pit.get_mut(&pit) {
            cursors.put(cursor)?;
            return Ok(());
        }
        let mut cursors = Cursors::new(self.alloc);
        cursors.put(cursor)?;
        self.by_pit.insert(pit, cursors)?;
        Ok(())
    }

    /// The cursor that a search left at a point in time, where it left one.
    pub(crate) fn get(&self, pit: &TaskId, search: &TaskId) -> Option<&Cursor>
        ensures { option_copied result ≡ cursor_at pit.now search.now self.now }
    {
        match self.by_pit.get(pit) {
            Some(cursors) => cursors.get(search),
            None => None,
        }
    }

    /// A point in time is gone, and its cursors with it. It takes no memory.
    pub(crate) fn remove(&mut self, pit: &TaskId)
        ensures { self.new ≡ finite.remove self.old pit.now }
    {
        self.by_pit.remove(pit);
    }
}
