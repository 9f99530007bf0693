ghost use Rattle.std.specs.Prelude.{◌≡◌, ◌↔◌, ◌+◌, ◌≤◌, None, Some, Ok, Err, true, false, IsSome, IsSomeAnd, OnOk, OnErr, option_copied, length, if◌then◌else◌};
ghost use Rattle.std.specs.BTreeMap as tree;
ghost use Rattle.std.specs.BTreeMap.{is_at};
ghost use Rattle.std.specs.FinMap as finite;
ghost use Rattle.task_ids.specs.TaskIdOrder.{task_id_cmp};
ghost use Rattle.task_ids.specs.declared.task_id.TaskId.{TaskId};
ghost use Rattle.task_events.specs.declared.context.Context.{Context};
ghost use Rattle.scroll_table.specs.declared.context.PageError.{PageError};
ghost use Rattle.scroll_table.specs.Ends as ends;
ghost use Rattle.scroll_table.specs.Ends.{AreEndsOf};
ghost use Rattle.scroll_table.specs.Owners.{AreOwnersOf};
ghost use Rattle.scroll_table.specs.Versions.{AreVersionsOf};
ghost use Rattle.task_events.specs.Contexts.{with_use, given_back, can_clear, is_expired, unexpired, without_owned};
ghost use Rattle.scroll_table.specs.Contexts.{answer_for, lent, oldest_of};

use crate::context::{PageError, answer, end_of};
use crate::ends::Ends;
use crate::owners::Owners;
use crate::versions::Versions;
use std::alloc::{AllocError, Global};
use std::collections::BTreeMap;
use std::marker::Model;
use task_events::{Context, HitKey};
use task_ids::TaskId;

/// The contexts that stand on one node. Contracts see a map from the searches that opened them.
#[derive(Drop)]
pub struct ScrollTable {
    contexts: BTreeMap<TaskId, Context>,
    /// When each of them expires.
    ends: Ends,
    /// Those that belong to a task.
    owners: Owners,
    /// What they keep of shards.
    versions: Versions,
}

impl Model for ScrollTable {
    ghost use Rattle.std.specs.FinMap as finite;
    ghost use Rattle.task_ids.specs.TaskIdOrder.{task_id_cmp, coded_task_id};
    ghost use Rattle.task_events.specs.declared.context.Context.{Context};
    ghost use Rattle.task_events.specs.contracts.context.Context as context_row;

    ghost Value = { finite.FinMap task_id_cmp Context };

    ghost coded = { finite.code coded_task_id context_row.the_row.coded };

    ghost use Rattle.scroll_table.specs.Ends.{AreEndsOf};
    ghost use Rattle.scroll_table.specs.Owners.{AreOwnersOf};
    ghost use Rattle.scroll_table.specs.Versions.{AreVersionsOf};

    ghost view = { λ a. finite.from_entries a.contexts.entries };

    ghost invariant = { λ a. AreEndsOf a.ends a.contexts × AreOwnersOf a.owners a.contexts × AreVersionsOf a.versions a.contexts };
}

impl ScrollTable {
    /// No context yet, which takes no memory.
    pub fn new(alloc: Global) -> ScrollTable
        ensures { result ≡ finite.empty }
    {
        ScrollTable {
            contexts: BTreeMap::new(alloc),
            ends: Ends::new(alloc),
            owners: Owners::new(alloc),
            versions: Versions::new(alloc),
        }
    }

    /// A search opens its context. Where memory runs out nothing has changed.
    pub fn start(&mut self, context: Context) -> Result<(), AllocError>
        requires fresh { finite.get self.old context.id ≡ None }
        ensures ok { OnOk result (self.new ≡ finite.insert self.old context.id context) }
        ensures err { OnErr result (self.new ≡ self.old) }
    {
        let id = context.id;
        let owner = context.owner;
        self.ends.add(id, end_of(&context))?;
        let Ok(()) = self.owners.add(owner, id) else {
            self.ends.remove(&id);
            return Err(AllocError);
        };
        match put_in(&mut self.contexts, &mut self.versions, id, context) {
            Ok(()) => Ok(()),
            Err(_) => {
                self.owners.remove(owner, id);
                self.ends.remove(&id);
                Err(AllocError)
            }
        }
    }

    /// The context of that id, where one is there. A task that uses it reads it so.
    pub fn get(&self, id: TaskId) -> Option<&Context>
        ensures { option_copied result ≡ finite.get self.now id }
    {
        self.contexts.get(&id)
    }

    /// The context of that id, where a task of this owner may use it now. It changes nothing.
    pub fn peek(&self, id: TaskId, by: Option<TaskId>, now: u64) -> Result<&Context, PageError>
        ensures { lent result ≡ answer_for by now (finite.get self.now id) }
    {
        match self.get(id) {
            Some(context) => answer(context, by, now),
            None => Err(PageError::Missing),
        }
    }

    /// A task uses the context of that id from now on, where `peek` gives it, and the context has another keep-alive where one is given.
    /// It takes no memory. Where the task may not use it nothing has changed.
    pub fn page(
        &mut self,
        id: TaskId,
        by: Option<TaskId>,
        now: u64,
        keep: Option<u64>,
        user: TaskId,
    ) -> Result<(), PageError>
        ensures refused { (e : PageError) → (result ≡ Err e)
            ↔ (answer_for by now (finite.get self.old id) ≡ Err e) }
        ensures used { (c : Context) → answer_for by now (finite.get self.old id) ≡ Ok c
            → self.new ≡ finite.insert self.old id (with_use now keep user c) }
        ensures err { OnErr result (self.new ≡ self.old) }
    {
        if let Err(error) = self.peek(id, by, now) {
            return Err(error);
        }
        note_use(&mut self.contexts, &id, now, keep, user);
        self.ends.set(&id, None);
        Ok(())
    }

    /// The task that uses a context gives it back, with another cursor where one is given. It takes no memory.
    pub fn give_back(&mut self, id: TaskId, after: Option<HitKey>, now: u64)
        requires busy { IsSomeAnd (finite.get self.old id) (λ c. IsSome c.busy) }
        ensures { (c : Context) → finite.get self.old id ≡ Some c
            → self.new ≡ finite.insert self.old id (given_back after now c) }
    {
        let end = note_return(&mut self.contexts, &id, after, now);
        self.ends.set(&id, end);
    }

    /// Takes a context away, unless a task uses it, and says whether it was there.
    pub fn clear(&mut self, id: TaskId, by: Option<TaskId>) -> bool
        ensures can { result ≡ can_clear by (finite.get self.old id) }
        ensures cleared { self.new ≡ (if result then finite.remove self.old id else self.old) }
    {
        clear_one(
            &mut self.contexts,
            &mut self.ends,
            &mut self.owners,
            &mut self.versions,
            id,
            by,
        )
    }

    /// Takes each context away that belongs to this task, unless a task uses it. It looks at no other, and takes no memory. It is called
    /// whenever a task ends, and mostly no context belongs to any task: then it searches for none.
    pub fn clear_owned(&mut self, owner: TaskId)
        ensures { (id : TaskId) → finite.get self.new id ≡ without_owned owner (finite.get self.old id) }
    {
        if self.owners.is_empty() {
            return;
        }
        clear_each(
            &mut self.contexts,
            &mut self.ends,
            &mut self.owners,
            &mut self.versions,
            owner,
        );
    }

    /// The least version that a context keeps of a shard of an index, where one keeps one. It looks at no
    /// context.
    pub fn oldest(&self, index: &str, shard: u32) -> Option<u32>
        ensures { result ≡ oldest_of index.now shard self.now }
    {
        self.versions.oldest(index, shard)
    }

    /// Takes away each context that was not used for its keep-alive, unless a task uses it, and says how many these are. It looks at no
    /// other, and takes no memory.
    pub fn expire(&mut self, now: u64) -> u64
        ensures left { (id : TaskId) → finite.get self.new id ≡ unexpired now (finite.get self.old id) }
        ensures count { finite.len self.new + result ≡ finite.len self.old }
    {
        let before = self.contexts.len();
        take_expired(
            &mut self.contexts,
            &mut self.ends,
            &mut self.owners,
            &mut self.versions,
            now,
        );
        (before - self.contexts.len()) as u64
    }
}

/// One more context, and what it keeps. Where memory runs out nothing has changed.
fn put_in(
    contexts: &mut BTreeMap<TaskId, Context>,
    versions: &mut Versions,
    id: TaskId,
    context: Context,
) -> Result<(), AllocError>
    requires fresh { tree.get task_id_cmp contexts.old id ≡ None }
    requires versions { AreVersionsOf versions.old contexts.old }
    ensures versions { AreVersionsOf versions.new contexts.new }
    ensures ok { OnOk result ((q : TaskId) → tree.get task_id_cmp contexts.new q
        ≡ (if is_at (task_id_cmp id) q then Some context else tree.get task_id_cmp contexts.old q)) }
    ensures err { OnErr result (contexts.new.entries ≡ contexts.old.entries) }
{
    versions.add(id, &context)?;
    match contexts.insert(id, context) {
        Ok(_) => Ok(()),
        Err(refused) => {
            versions.remove(id, &refused.value.1);
            Err(AllocError)
        }
    }
}

/// A task uses a context.
fn note_use(
    contexts: &mut BTreeMap<TaskId, Context>,
    id: &TaskId,
    now: u64,
    keep: Option<u64>,
    user: TaskId,
)
    ensures { (c : Context) → tree.get task_id_cmp contexts.old id.now ≡ Some c
        → (q : TaskId) → tree.get task_id_cmp contexts.new q
        ≡ (if is_at (task_id_cmp id.now) q
        then Some (with_use now keep user c)
        else tree.get task_id_cmp contexts.old q) }
{
    if let Some(context) = contexts.get_mut(id) {
        context.keep_ms = keep.or(context.keep_ms);
        context.last_ms = now;
        context.busy = Some(user);
    }
}

/// The task that uses a context gives it back. Answers when the context expires.
fn note_return(
    contexts: &mut BTreeMap<TaskId, Context>,
    id: &TaskId,
    after: Option<HitKey>,
    now: u64,
) -> Option<u64>
    requires { IsSome (tree.get task_id_cmp contexts.old id.now) }
    ensures end { (c : Context) → tree.get task_id_cmp contexts.old id.now ≡ Some c
        → result ≡ ends.end_of (given_back after now c) }
    ensures returned { (c : Context) → tree.get task_id_cmp contexts.old id.now ≡ Some c
        → (q : TaskId) → tree.get task_id_cmp contexts.new q
        ≡ (if is_at (task_id_cmp id.now) q
        then Some (given_back after now c)
        else tree.get task_id_cmp contexts.old q) }
{
    let Some(context) = contexts.get_mut(id) else {
        unreachable!()
    };
    if after.is_some() {
        context.after = after;
    }
    context.last_ms = now;
    context.busy = None;
    end_of(context)
}

/// Whether a context is there that belongs to this task, or to none where this is none, and that no task uses.
fn may_clear(contexts: &BTreeMap<TaskId, Context>, id: &TaskId, by: Option<TaskId>) -> bool
    ensures { result ≡ can_clear by (tree.get task_id_cmp contexts.now id.now) }
{
    match contexts.get(id) {
        Some(context) => context.is_owned_by(by) && context.busy.is_none(),
        None => false,
    }
}

/// Takes a context away, also from those of its owner, and what it keeps.
fn take_out(
    contexts: &mut BTreeMap<TaskId, Context>,
    owners: &mut Owners,
    versions: &mut Versions,
    id: &TaskId,
)
    requires owners { AreOwnersOf owners.old contexts.old }
    requires versions { AreVersionsOf versions.old contexts.old }
    ensures owners { AreOwnersOf owners.new contexts.new }
    ensures versions { AreVersionsOf versions.new contexts.new }
    ensures gone { (q : TaskId) → tree.get task_id_cmp contexts.new q
        ≡ (if is_at (task_id_cmp id.now) q then None else tree.get task_id_cmp contexts.old q) }
    ensures fewer { length contexts.new.entries ≤ length contexts.old.entries }
{
    if let Some(context) = contexts.remove(id) {
        owners.remove(context.owner, *id);
        versions.remove(*id, &context);
    }
}

/// Takes a context away that belongs to this task, or to none where this is none, unless a task uses it, and says whether
/// it was there.
fn clear_one(
    contexts: &mut BTreeMap<TaskId, Context>,
    ends: &mut Ends,
    owners: &mut Owners,
    versions: &mut Versions,
    id: TaskId,
    by: Option<TaskId>,
) -> bool
    requires ends { AreEndsOf ends.old contexts.old }
    requires owners { AreOwnersOf owners.old contexts.old }
    requires versions { AreVersionsOf versions.old contexts.old }
    ensures ends { AreEndsOf ends.new contexts.new }
    ensures owners { AreOwnersOf owners.new contexts.new }
    ensures versions { AreVersionsOf versions.new contexts.new }
    ensures can { result ≡ can_clear by (tree.get task_id_cmp contexts.old id) }
    ensures gone { result ≡ true → (q : TaskId) → tree.get task_id_cmp contexts.new q
        ≡ (if is_at (task_id_cmp id) q then None else tree.get task_id_cmp contexts.old q) }
    ensures stays { result ≡ false → contexts.new ≡ contexts.old }
{
    if !may_clear(contexts, &id, by) {
        return false;
    }
    take_out(contexts, owners, versions, &id);
    ends.remove(&id);
    true
}

/// Takes each context away that belongs to this task, unless a task uses it.
fn clear_each(
    contexts: &mut BTreeMap<TaskId, Context>,
    ends: &mut Ends,
    owners: &mut Owners,
    versions: &mut Versions,
    owner: TaskId,
)
    requires ends { AreEndsOf ends.old contexts.old }
    requires owners { AreOwnersOf owners.old contexts.old }
    requires versions { AreVersionsOf versions.old contexts.old }
    ensures ends { AreEndsOf ends.new contexts.new }
    ensures owners { AreOwnersOf owners.new contexts.new }
    ensures versions { AreVersionsOf versions.new contexts.new }
    ensures left { (id : TaskId) → tree.get task_id_cmp contexts.new id
        ≡ without_owned owner (tree.get task_id_cmp contexts.old id) }
{
    let mut after = None;
    while let Some(id) = owners.next(owner, after) {
        clear_one(contexts, ends, owners, versions, id, Some(owner));
        after = Some(id);
    }
}

/// Takes away the contexts that have expired.
fn take_expired(
    contexts: &mut BTreeMap<TaskId, Context>,
    ends: &mut Ends,
    owners: &mut Owners,
    versions: &mut Versions,
    now: u64,
)
    requires ends { AreEndsOf ends.old contexts.old }
    requires owners { AreOwnersOf owners.old contexts.old }
    requires versions { AreVersionsOf versions.old contexts.old }
    ensures ends { AreEndsOf ends.new contexts.new }
    ensures owners { AreOwnersOf owners.new contexts.new }
    ensures versions { AreVersionsOf versions.new contexts.new }
    ensures left { (id : TaskId) → tree.get task_id_cmp contexts.new id
        ≡ unexpired now (tree.get task_id_cmp contexts.old id) }
    ensures fewer { length contexts.new.entries ≤ length contexts.old.entries }
{
    while let Some(id) = ends.take_due(now) {
        take_out(contexts, owners, versions, &id);
    }
}
