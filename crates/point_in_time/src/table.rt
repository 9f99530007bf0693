ghost use Rattle.std.specs.Prelude.{◌≡◌, ◌≢◌, ◌↔◌, ◌+◌, ◌≤◌, None, Some, Err, true, false, is_some, IsOk, IfOk, IfSome, IfNone, OnOk, OnErr, option_copied, length, if◌then◌else◌};
ghost use Rattle.std.specs.BTreeMap as tree;
ghost use Rattle.std.specs.BTreeMap.{is_at};
ghost use Rattle.std.specs.FinMap as finite;
ghost use Rattle.task_ids.specs.TaskIdOrder.{task_id_cmp};
ghost use Rattle.task_ids.specs.declared.task_id.TaskId.{TaskId};
ghost use Rattle.task_events.specs.declared.context.Context.{Context};
ghost use Rattle.task_events.specs.Contexts.{unexpired};
ghost use Rattle.scroll_table.specs.Contexts.{oldest_of};
ghost use Rattle.scroll_table.specs.Ends as ends;
ghost use Rattle.scroll_table.specs.Ends.{AreEndsOf};
ghost use Rattle.scroll_table.specs.Versions.{AreVersionsOf};
ghost use Rattle.point_in_time.specs.declared.cursors.Cursor.{Cursor};
ghost use Rattle.point_in_time.specs.Pits.{no_pits, as_context, found, read_at, gone_by, cursors_at, cursor_at};

use crate::cursors::{Cursor, CursorTable};
use crate::pit::{Missing, Pit, unexpired};
use crate::sorts::is_same_sort;
use query_match::SortBy;
use scroll_table::{Ends, Versions, end_of};
use std::alloc::{AllocError, Global};
use std::collections::BTreeMap;
use std::marker::Model;
use task_events::{Context, HitKey};
use task_ids::TaskId;

/// The points in time of one node, and the cursors that searches left there. Contracts see two maps: from the tasks that opened them to the
/// points in time that stand, each as a context; and from these tasks to the cursors left there.
#[derive(Drop)]
pub struct PitTable {
    contexts: BTreeMap<TaskId, Context>,
    /// When each of them expires.
    ends: Ends,
    /// What they keep of shards.
    versions: Versions,
    cursors: CursorTable,
}

impl Model for PitTable {
    ghost use Rattle.std.specs.FinMap as finite;
    ghost use Rattle.scroll_table.specs.Ends.{AreEndsOf};
    ghost use Rattle.scroll_table.specs.Versions.{AreVersionsOf};
    ghost use Rattle.point_in_time.specs.Pits.{Pits, coded_pits};

    ghost Value = { Pits };

    ghost coded = { coded_pits };

    ghost view = { λ a. record { standing = finite.from_entries a.contexts.entries; cursors = a.cursors } };

    ghost invariant = { λ a. AreEndsOf a.ends a.contexts × AreVersionsOf a.versions a.contexts };
}

impl PitTable {
    /// None yet, which takes no memory.
    pub fn new(alloc: Global) -> PitTable
        ensures { result ≡ no_pits }
    {
        PitTable {
            contexts: BTreeMap::new(alloc),
            ends: Ends::new(alloc),
            versions: Versions::new(alloc),
            cursors: CursorTable::new(alloc),
        }
    }

    /// A point in time stands from now on. Where memory runs out nothing has changed.
    pub fn start(&mut self, pit: Pit) -> Result<(), AllocError>
        requires fresh { finite.get self.old.standing pit.id ≡ None }
        ensures ok { OnOk result (self.new ≡ record self.old { standing = finite.insert self.old.standing pit.id (as_context pit) }) }
        ensures err { OnErr result (self.new ≡ self.old) }
    {
        let id = pit.id;
        let context = pit.into_context();
        self.ends.add(id, end_of(&context))?;
        match put_in(&mut self.contexts, &mut self.versions, id, context) {
            Ok(()) => Ok(()),
            Err(_) => {
                self.ends.remove(&id);
                Err(AllocError)
            }
        }
    }

    /// The point in time of that id, where it stands: also one that has expired and was not taken away yet.
    pub fn get(&self, id: TaskId) -> Option<&Context>
        ensures { option_copied result ≡ finite.get self.now.standing id }
    {
        self.contexts.get(&id)
    }

    /// The point in time of that id, where it stands and has not expired at this moment, in milliseconds. It changes nothing.
    pub fn peek(&self, id: TaskId, now: u64) -> Result<&Context, Missing>
        ensures { found result ≡ unexpired now (finite.get self.now.standing id) }
    {
        match self.get(id) {
            Some(context) => unexpired(context, now),
            None => Err(Missing),
        }
    }

    /// A search reads a point in time: this is its last use, where `peek` gives it, and it has another keep-alive where one is given. It takes no
    /// memory. Where there is none nothing has changed.
    pub fn take(&mut self, id: TaskId, now: u64, keep: Option<u64>) -> Result<(), Missing>
        ensures there { IsOk result ↔ (unexpired now (finite.get self.old.standing id) ≢ None) }
        ensures taken { (c : Context) → unexpired now (finite.get self.old.standing id) ≡ Some c
            → self.new ≡ record self.old { standing = finite.insert self.old.standing id (read_at now keep c) } }
        ensures err { OnErr result (self.new ≡ self.old) }
    {
        if let Err(missing) = self.peek(id, now) {
            return Err(missing);
        }
        let end = note_use(&mut self.contexts, &id, now, keep);
        self.ends.set(&id, end);
        Ok(())
    }

    /// Takes a point in time away with its cursors, and says whether it was there. It takes no memory.
    pub fn close(&mut self, id: TaskId) -> bool
        ensures stood { result ≡ is_some (finite.get self.old.standing id) }
        ensures gone { self.new ≡ record { standing = finite.remove self.old.standing id; cursors = finite.remove self.old.cursors id } }
    {
        let stood = take_out(&mut self.contexts, &mut self.versions, &id);
        self.ends.remove(&id);
        self.cursors.remove(&id);
        stood
    }

    /// Takes each point in time away that was not used for its keep-alive, with its cursors, and says how many these are. It looks at no other,
    /// and takes no memory.
    pub fn expire(&mut self, now: u64) -> u64
        ensures left { (id : TaskId) → finite.get self.new.standing id ≡ unexpired now (finite.get self.old.standing id) }
        ensures cursors { (id : TaskId) → finite.get self.new.cursors id
            ≡ (if gone_by now (finite.get self.old.standing id) then None else finite.get self.old.cursors id) }
        ensures count { finite.len self.new.standing + result ≡ finite.len self.old.standing }
    {
        let before = self.contexts.len();
        take_expired(
            &mut self.contexts,
            &mut self.ends,
            &mut self.versions,
            &mut self.cursors,
            now,
        );
        (before - self.contexts.len()) as u64
    }

    /// The least version that a point in time keeps of a shard of an index, where one keeps one. It looks at no point in time.
    pub fn oldest(&self, index: &str, shard: u32) -> Option<u32>
        ensures { result ≡ oldest_of index.now shard self.now.standing }
    {
        self.versions.oldest(index, shard)
    }

    /// A search leaves its cursor at a point in time, in the place of one that it left there before, and is told whether the point in time is
    /// still there; where it is not, nothing has changed. Where memory runs out nothing has changed.
    pub fn keep_cursor(&mut self, id: TaskId, cursor: Cursor) -> Result<bool, AllocError>
        ensures there { IfOk result (λ kept. kept ≡ is_some (finite.get self.old.standing id)) }
        ensures kept { IfOk result (λ kept. kept ≡ true
            → self.new ≡ record self.old { cursors = finite.insert self.old.cursors id (finite.insert (cursors_at id self.old.cursors) cursor.search cursor) }) }
        ensures gone { IfOk result (λ kept. kept ≡ false → self.new ≡ self.old) }
        ensures err { OnErr result (self.new ≡ self.old) }
    {
        if !self.contexts.contains_key(&id) {
            return Ok(false);
        }
        self.cursors.put(id, cursor)?;
        Ok(true)
    }

    /// The row after which a search with this sort goes on that follows another: the last one that the other showed at this point in time,
    /// where it left it there and had an equal sort.
    pub fn cursor(&self, id: TaskId, search: TaskId, sort: &[SortBy]) -> Option<&HitKey>
        ensures left { IfSome result (λ key. (c : Cursor) × (cursor_at id search self.now.cursors ≡ Some c) × (c.key ≡ key.now) × (c.sort ≡ sort.now)) }
        ensures none { IfNone result ((c : Cursor) → cursor_at id search self.now.cursors ≡ Some c → c.sort ≢ sort.now) }
    {
        let cursor = self.cursors.get(&id, &search)?;
        if is_same_sort(cursor.sort.as_slice(), sort) {
            Some(&cursor.key)
        } else {
            None
        }
    }
}

/// One more point in time, and what it keeps. Where memory runs out nothing has changed.
fn put_in(
    contexts: &mut BTreeMap<TaskId, Context>,
    versions: &mut Versions,
    id: TaskId,
    context: Context,
) -> Result<(), AllocError>
    requires fresh { tree.get task_id_cmp contexts.old id ≡ None }
    requires versions { AreVersionsOf versions.old contexts.old }
    ensures versions { AreVersionsOf versions.new contexts.new }
    ensures ok { OnOk result ((q : TaskId) → tree.get task_id_cmp contexts.new q
        ≡ (if is_at (task_id_cmp id) q then Some context else tree.get task_id_cmp contexts.old q)) }
    ensures err { OnErr result (contexts.new.entries ≡ contexts.old.entries) }
{
    versions.add(id, &context)?;
    match contexts.insert(id, context) {
        Ok(_) => Ok(()),
        Err(refused) => {
            versions.remove(id, &refused.value.1);
            Err(AllocError)
        }
    }
}

/// A search reads a point in time that is there. Answers when it expires.
fn note_use(
    contexts: &mut BTreeMap<TaskId, Context>,
    id: &TaskId,
    now: u64,
    keep: Option<u64>,
) -> Option<u64>
    requires { tree.get task_id_cmp contexts.old id.now ≢ None }
    ensures end { (c : Context) → tree.get task_id_cmp contexts.old id.now ≡ Some c
        → result ≡ ends.end_of (read_at now keep c) }
    ensures read { (c : Context) → tree.get task_id_cmp contexts.old id.now ≡ Some c
        → (q : TaskId) → tree.get task_id_cmp contexts.new q
        ≡ (if is_at (task_id_cmp id.now) q
        then Some (read_at now keep c)
        else tree.get task_id_cmp contexts.old q) }
{
    let Some(context) = contexts.get_mut(id) else {
        unreachable!()
    };
    context.keep_ms = keep.or(context.keep_ms);
    context.last_ms = now;
    end_of(context)
}

/// Takes a point in time away, and what it keeps, and says whether it was there.
fn take_out(contexts: &mut BTreeMap<TaskId, Context>, versions: &mut Versions, id: &TaskId) -> bool
    requires { AreVersionsOf versions.old contexts.old }
    ensures versions { AreVersionsOf versions.new contexts.new }
    ensures stood { result ≡ is_some (tree.get task_id_cmp contexts.old id.now) }
    ensures gone { (q : TaskId) → tree.get task_id_cmp contexts.new q
        ≡ (if is_at (task_id_cmp id.now) q then None else tree.get task_id_cmp contexts.old q) }
    ensures fewer { length contexts.new.entries ≤ length contexts.old.entries }
{
    match contexts.remove(id) {
        Some(context) => {
            versions.remove(*id, &context);
            true
        }
        None => false,
    }
}

/// Takes away the points in time that have expired, each with its cursors.
fn take_expired(
    contexts: &mut BTreeMap<TaskId, Context>,
    ends: &mut Ends,
    versions: &mut Versions,
    cursors: &mut CursorTable,
    now: u64,
)
    requires ends { AreEndsOf ends.old contexts.old }
    requires versions { AreVersionsOf versions.old contexts.old }
    ensures ends { AreEndsOf ends.new contexts.new }
    ensures versions { AreVersionsOf versions.new contexts.new }
    ensures left { (id : TaskId) → tree.get task_id_cmp contexts.new id
        ≡ unexpired now (tree.get task_id_cmp contexts.old id) }
    ensures cursors { (id : TaskId) → finite.get cursors.new id
        ≡ (if gone_by now (tree.get task_id_cmp contexts.old id) then None else finite.get cursors.old id) }
    ensures fewer { length contexts.new.entries ≤ length contexts.old.entries }
{
    while let Some(id) = ends.take_due(now) {
        take_out(contexts, versions, &id);
        cursors.remove(&id);
    }
}
