ghost use Rattle.std.specs.Prelude.{◌≡◌, ◌≢◌, ◌≤◌, ◌<◌, ◌^◌, ◌+◌, ◌||◌, true, option_and_then, option_map, List, [], ◌∷◌, ◌++◌, length, Ok, Err, Some, None, OnOk, OnErr, IfOk, IfErr, IfSome, ℕ};
ghost use Rattle.task_events.specs.declared.history.TheConstants.{MAX_EVENTS};
ghost use Rattle.std.specs.List.{list_any};
ghost use Rattle.std.specs.Str.{bytes_eq};
ghost use Rattle.task_ids.specs.declared.corpus.Corpus.{Corpus};
ghost use Rattle.task_events.specs.Lawful.{Lawful};
ghost use Rattle.task_events.specs.Cancels.{last_command};
ghost use Rattle.task_events.specs.Laws.{IsDrained};
ghost use Rattle.task_events.specs.Messages.{in_flight};
ghost use Rattle.task_events.specs.Clock.{clock};
ghost use Rattle.task_events.specs.Summaries.{summary_of};
ghost use Rattle.task_events.specs.Tasks.{is_live};
ghost use Rattle.tasks_api.specs.Lists.{list_text, task_text};
ghost use Rattle.task_events.specs.TaskRows.{row_of};
ghost use Rattle.task_results.specs.Stands.{is_stored, results_at};
ghost use Rattle.std.specs.FinMap.{keys};
ghost use Rattle.command_roots.specs.Results.{found_of, has_result, keeping, status_of, task_named};
ghost use Rattle.task_events.specs.Contexts.{can_clear, context_at};
ghost use Rattle.command_roots.specs.Known.{dests_of, is_known};
ghost use Rattle.corpus_shards.specs.Stored.{ShownFrom, HasWritten, AllNoted, NoneMade, was_there};
ghost use Rattle.command_roots.specs.Roots.{context_named, page_answer, rows_of, scripted};
ghost use Rattle.world_moves.specs.Cancels.{AllAnswered};
ghost use Rattle.world_moves.specs.Listings.{ListSteps, AnswersListing};
ghost use Rattle.world_moves.specs.Moves.{Delivers, IsPartly, StopsDelivery, StopsMove};
ghost use Rattle.world_moves.specs.Owning.{OneAtATime};
ghost use Rattle.world_moves.specs.Plain.{AnswersPlainly};
ghost use Rattle.world_steps.specs.Runs.{Steps, AnswersStep, Settles, PartlySettles, StopsSettling};
ghost use Rattle.world_steps.specs.Shuffling.{Shuffles, PartlyShuffles, StopsShuffling};
ghost use Rattle.world_steps.specs.Scripts.{CanRun, error_in, Commands, PartlyCommands, Drains, PartlyDrains, IsTurn, closing, StopsCommand, StopsDrain};
ghost use Rattle.task_ids.specs.Limits.{IsNode, IsSlotCount};
ghost use Rattle.task_table.specs.Table.{new_table};
ghost use Rattle.world_steps.specs.Waits.{EachWaits};
ghost use Rattle.world_steps.specs.World.{tables_from, cores_from, no_bans, no_contexts};

use crate::acting::Stepped;
use crate::ready::Ready;
use crate::{commands, moving, results, scrolls, shuffling};
use ban_table::BanTable;
use cancel_core::CancelCore;
use command_roots::{TaskFound, dests_of};
use corpus_shards::Shards;
use node_parts::listing::Listing;
use ranked::RankedSet;
use script_lang::{ContextTarget, Script, TaskTarget};
use scroll_table::{PageError, ScrollTable};
use std::alloc::{AllocError, Global};
use std::collections::BTreeMap;
use std::marker::Model;
use task_events::{Counts, History, Stop, Summary};
use task_ids::{Cluster, Corpus, TaskId};
use task_table::TaskTable;
use tasks_api::{Filter, GroupBy, list_line, task_line};
use world_moves::flight::Flight;
use world_moves::listings::ListStep;
use world_moves::rows::{row, rows};
use world_moves::state::State;

/// The serial world: a cluster of nodes that runs a script, one event at a time.
#[derive(Drop)]
pub struct World<'a> {
    state: State<'a>,
    /// Which live tasks do not wait, for which moments others wait, and which results stand.
    ready: Ready,
    stopped: Option<Stop>,
}

impl<'a> Model for World<'a> {
    ghost use Rattle.world_steps.specs.World.{WorldView, view_of, IsWorld};
    ghost use Rattle.std.specs.Coded.{codes};
    ghost use Rattle.task_ids.specs.contracts.corpus.Corpus as corpus;
    ghost use Rattle.script_lang.specs.contracts.command.Script as script;
    ghost use Rattle.task_events.specs.contracts.event.Event as event;

    ghost Value = { WorldView };

    ghost coded = { Prim.hlevel (codes, corpus.the_row.coded, script.the_row.coded, event.the_row.coded) };

    ghost view = { λ w. view_of w.state w.stopped };

    ghost invariant = { λ w. IsWorld w.state w.ready w.stopped };
}

/// What came of a delivery.
#[derive(Clone, Copy, PartialEq, Eq)]
pub enum Delivered {
    /// The message was delivered.
    Done,
    /// There is no message at that place; so many are in flight.
    NoSuch(u64),
}

/// Adds the table of a node, on which nothing runs yet.
fn add_table(
    tables: &mut Vec<TaskTable>,
    alloc: Global,
    node: u32,
    slots: u32,
) -> Result<(), AllocError>
    requires node { IsNode node }
    requires slots { IsSlotCount slots }
    ensures { OnOk result (tables.new.items ≡ tables.old.items ++ new_table node slots ∷ []) }
{
    tables.push(TaskTable::new(alloc, node, slots)?)?;
    Ok(())
}

/// Adds the table of each node of a cluster to none.
fn add_tables(
    tables: &mut Vec<TaskTable>,
    alloc: Global,
    cluster: &Cluster,
) -> Result<(), AllocError>
    requires { tables.old.items ≡ [] }
    ensures { OnOk result (tables.new.items ≡ tables_from 0 cluster.now.nodes cluster.now.slots) }
{
    for place in 0..cluster.nodes {
        add_table(tables, alloc, place + 1, cluster.slots)?;
    }
    Ok(())
}

/// The table of each node of a cluster, on which nothing runs yet.
fn new_tables(alloc: Global, cluster: &Cluster) -> Result<Vec<TaskTable>, AllocError>
    ensures { IfOk result (λ tables. tables.items ≡ tables_from 0 cluster.now.nodes cluster.now.slots) }
{
    let mut tables = Vec::with_capacity(alloc, cluster.nodes as usize)?;
    match add_tables(&mut tables, alloc, cluster) {
        Ok(()) => Ok(tables),
        Err(error) => {
            drop(tables);
            Err(error)
        }
    }
}

/// The core of each node, in which nothing is cancelled yet.
fn new_cores(alloc: Global, nodes: u32) -> Result<Vec<CancelCore>, AllocError>
    requires { nodes ≤ 15 }
    ensures { IfOk result (λ cores. cores.items ≡ cores_from 0 nodes) }
{
    let mut cores = Vec::with_capacity(alloc, nodes as usize)?;
    for place in 0..nodes {
        cores.push(CancelCore::new(alloc, place + 1))?;
    }
    Ok(cores)
}

/// The table of contexts of each node, in which none stands yet.
fn new_contexts(alloc: Global, nodes: u32) -> Result<Vec<ScrollTable>, AllocError>
    ensures { IfOk result (λ contexts. contexts.items ≡ no_contexts nodes) }
{
    let mut contexts = Vec::with_capacity(alloc, nodes as usize)?;
    for place in 0..nodes {
        contexts.push(ScrollTable::new(alloc))?;
    }
    Ok(contexts)
}

/// The ban table of each node, in which no ban stands yet.
fn new_bans(alloc: Global, nodes: u32) -> Result<Vec<BanTable>, AllocError>
    ensures { IfOk result (λ bans. bans.items ≡ no_bans nodes) }
{
    let mut bans = Vec::with_capacity(alloc, nodes as usize)?;
    for place in 0..nodes {
        bans.push(BanTable::new(alloc))?;
    }
    Ok(bans)
}

/// Makes the indices known to which the reindexes of a script write.
fn know_dests(shards: &mut Shards, alloc: Global, script: &Script) -> Result<(), AllocError>
    requires none_made { NoneMade shards.old }
    ensures known { OnOk result ((index : List ℕ) → was_there shards.new index ≡ (was_there shards.old index || list_any (bytes_eq index) (dests_of script.now.commands))) }
    ensures written { (corpus : Corpus) (count : ℕ) (oldest : ShownFrom) → HasWritten corpus count oldest shards.old → HasWritten corpus count oldest shards.new }
    ensures noted { AllNoted shards.old → AllNoted shards.new }
{
    let dests = dests_of(alloc, script.commands.as_slice())?;
    shards.know_all(alloc, dests.as_slice())
}

/// The shards of the documents that are there at first, and of the indices to which the reindexes of a script write.
fn new_shards(
    alloc: Global,
    corpus: &Corpus,
    script: &Script,
    count: u32,
) -> Result<Shards, AllocError>
    requires { 0 < count }
    ensures written { IfOk result (λ shards. HasWritten corpus.now count (λ _ _. 0) shards) }
    ensures from_start { IfOk result (λ shards. (index : List ℕ) → was_there shards index ≡ is_known corpus.now script.now.commands index) }
    ensures noted { IfOk result (λ shards. AllNoted shards) }
{
    let mut shards = Shards::new(alloc, corpus, count)?;
    match know_dests(&mut shards, alloc, script) {
        Ok(()) => Ok(shards),
        Err(error) => {
            drop(shards);
            Err(error)
        }
    }
}

impl<'a> World<'a> {
    /// A world in which nothing has happened yet. It copies the documents into their shards, and reads the script where
    /// it stands. The indices are known from now on that some document is of, and those that a reindex of the script writes
    /// to whose body has no fault. It fails only for want of memory.
    pub fn new(
        alloc: Global,
        cluster: Cluster,
        corpus: &'a Corpus,
        script: &'a Script,
    ) -> Result<World<'a>, AllocError>
        requires can { CanRun cluster.nodes script.now.commands }
        requires few { length script.now.commands ≤ 65535 }
        ensures { IfOk result (λ world. world ≡ record { cluster = cluster; corpus = corpus.now; script = script.now; past = []; stopped = None }) }
    {
        let tables = new_tables(alloc, &cluster)?;
        let Ok(bans) = new_bans(alloc, cluster.nodes) else {
            drop(tables);
            return Err(AllocError);
        };
        let Ok(cores) = new_cores(alloc, cluster.nodes) else {
            drop(tables);
            drop(bans);
            return Err(AllocError);
        };
        let Ok(contexts) = new_contexts(alloc, cluster.nodes) else {
            drop(tables);
            drop(bans);
            drop(cores);
            return Err(AllocError);
        };
        let Ok(shards) = new_shards(alloc, corpus, script, cluster.shards) else {
            drop(tables);
            drop(bans);
            drop(cores);
            drop(contexts);
            return Err(AllocError);
        };
        let state = State {
            alloc,
            cluster,
            corpus,
            shards,
            script,
            history: History::new(alloc),
            clock: 0,
            tasks: BTreeMap::new(alloc),
            tables,
            flight: Flight::new(alloc),
            roots: BTreeMap::new(alloc),
            contexts,
            bans,
            cores,
            left: BTreeMap::new(alloc),
            listings: RankedSet::new(alloc),
        };
        Ok(World {
            state,
            ready: Ready::new(alloc),
            stopped: None,
        })
    }

    /// What has happened so far.
    pub fn history(&self) -> &History
        ensures past { result.now ≡ self.now.past }
        ensures lawful { Lawful self.now.cluster self.now.past }
        ensures plain { AnswersPlainly self.now.cluster self.now.corpus self.now.script self.now.past }
        ensures alone { OneAtATime (scripted self.now.script) self.now.past }
    {
        &self.state.history
    }

    /// How many tasks, bans and writes came and went so far. It is kept, and counts nothing anew.
    pub fn summary(&self) -> Summary
        ensures { result ≡ summary_of self.now.past }
    {
        self.state.history.summary()
    }

    /// How many messages are in flight. The world has not come to an early end.
    pub fn in_flight(&self) -> u64
        requires { self.now.stopped ≡ None }
        ensures { result ≡ length (in_flight self.now.past) }
    {
        self.state.flight.len() as u64
    }

    /// Whether a task is live. The world has not come to an early end.
    pub fn is_live(&self, task: TaskId) -> bool
        requires { self.now.stopped ≡ None }
        ensures { result ≡ is_live task self.now.past }
    {
        self.state.tasks.get(&task).is_some()
    }

    /// The line of a task list, as the live tasks are now. The world has not come to an early end, and the closing drain has not
    /// begun, which moves the clock on as far as tasks wait. It fails only for want of memory (`Memory`).
    pub fn list(&self, wanted: &Filter, group: GroupBy, detailed: bool) -> Result<Vec<u8>, Stop>
        requires goes_on { self.now.stopped ≡ None }
        requires before { last_command self.now.past ≤ length self.now.script.commands }
        ensures line { IfOk result (λ line. line.items ≡ list_text group detailed (clock self.now.past) wanted.now (rows_of self.now.cluster self.now.script self.now.past)) }
        ensures memory { IfErr result (λ stop. stop ≡ Stop.Memory) }
    {
        let rows = rows(&self.state, wanted)?;
        let line = list_line(
            self.state.alloc,
            rows.as_slice(),
            wanted,
            group,
            detailed,
            self.state.clock,
        );
        drop(rows);
        match line {
            Ok(line) => Ok(line),
            Err(_) => Err(Stop::Memory),
        }
    }

    /// The moment, in milliseconds: below 2^43 until the closing drain begins. The world has not come to an early end.
    pub fn now(&self) -> u64
        requires { self.now.stopped ≡ None }
        ensures now { result ≡ clock self.now.past }
        ensures low { last_command self.now.past ≤ length self.now.script.commands → result < 2 ^ 43 }
    {
        self.state.clock
    }

    /// The context that a command is about, by its id. The world has not come to an early end.
    pub fn context(&self, target: &ContextTarget) -> Option<TaskId>
        requires { self.now.stopped ≡ None }
        ensures { result ≡ context_named target.now self.now.past }
    {
        scrolls::named(&self.state, target)
    }

    /// Why a command has no page of the context that it is about, if it has none: the context is missing or busy. The world has not
    /// come to an early end.
    pub fn no_page(&self, target: &ContextTarget) -> Option<PageError>
        requires { self.now.stopped ≡ None }
        ensures { result ≡ error_in (page_answer self.now.script target.now self.now.past) }
    {
        scrolls::no_page(&self.state, target)
    }

    /// Whether a command frees the context that it is about. The world has not come to an early end.
    pub fn can_clear(&self, target: &ContextTarget) -> bool
        requires { self.now.stopped ≡ None }
        ensures { result ≡ can_clear None (option_and_then (λ id. context_at (scripted self.now.script) id self.now.past) (context_named target.now self.now.past)) }
    {
        scrolls::can_clear(&self.state, target)
    }

    /// What a command finds that is about a task. The world has not come to an early end.
    pub fn find(&self, target: &TaskTarget) -> TaskFound
        requires { self.now.stopped ≡ None }
        ensures { result ≡ found_of self.now.script target.now self.now.past }
    {
        results::find(&self.state, &self.ready.results, target)
    }

    /// Whether the result of the task stands that a command is about. The world has not come to an early end.
    pub fn has_result(&self, target: &TaskTarget) -> bool
        requires { self.now.stopped ≡ None }
        ensures { result ≡ has_result self.now.script (task_named target.now self.now.past) self.now.past }
    {
        results::has_result(&self.ready.results, target)
    }

    /// Whether the reply of a task is stored as it ends. The world has not come to an early end.
    pub fn is_stored(&self, task: TaskId) -> bool
        requires { self.now.stopped ≡ None }
        ensures { result ≡ is_stored (keeping self.now.script) task self.now.past }
    {
        results::is_stored(&self.ready.results, task)
    }

    /// The tasks whose results stand, ascending. The world has not come to an early end. It fails only for want of memory (`Memory`).
    pub fn results(&self) -> Result<Vec<TaskId>, Stop>
        requires { self.now.stopped ≡ None }
        ensures ids { IfOk result (λ ids. ids.items ≡ keys (results_at (keeping self.now.script) self.now.past)) }
        ensures memory { IfErr result (λ stop. stop ≡ Stop.Memory) }
    {
        results::standing(&self.ready.results)
    }

    /// What a live task has done so far, where it is the root of a reindex. The world has not come to an early end.
    pub fn status(&self, task: TaskId) -> Option<Counts>
        requires goes_on { self.now.stopped ≡ None }
        requires live { is_live task self.now.past ≡ true }
        ensures { result ≡ status_of self.now.script task self.now.past }
    {
        results::status(&self.state, task)
    }

    /// A live task as a detailed list shows it, JSON. The world has not come to an early end, and the closing drain has not begun. It fails
    /// only for want of memory (`Memory`).
    pub fn task_line(&self, task: TaskId) -> Result<Option<Vec<u8>>, Stop>
        requires goes_on { self.now.stopped ≡ None }
        requires live { is_live task self.now.past ≡ true }
        requires before { last_command self.now.past ≤ length self.now.script.commands }
        ensures line { IfOk result (λ line. option_map (λ text. text.items) line ≡ option_map (task_text (clock self.now.past)) (row_of (scripted self.now.script) task self.now.past)) }
        ensures memory { IfErr result (λ stop. stop ≡ Stop.Memory) }
    {
        let Some(row) = row(&self.state, task) else {
            return Ok(None);
        };
        match task_line(self.state.alloc, row, self.state.clock) {
            Ok(line) => Ok(Some(line)),
            Err(_) => Err(Stop::Memory),
        }
    }

    /// Gives the history away. What is live or in flight is given up.
    pub fn finish(self) -> History
        ensures past { result ≡ self.entry.past }
        ensures lawful { Lawful self.entry.cluster self.entry.past }
        ensures plain { AnswersPlainly self.entry.cluster self.entry.corpus self.entry.script self.entry.past }
        ensures alone { OneAtATime (scripted self.entry.script) self.entry.past }
    {
        self.state.history
    }

    /// Begins a command of the script, the next in order, and does what it says. Commands are numbered from 1.
    ///
    /// A search starts at its node, or is rejected there, where its body has no fault and its index is known; a scroll so at the
    /// node of its context, where that stands and no task uses it; a reindex so at its node, where its body has no fault and the
    /// index that it reads is known; a clear takes its context away as it begins; a tick
    /// moves the clock, by a day at most, and takes away each context that was not used for its keep-alive; a cancel names and
    /// marks its task where it is live, or the live tasks that its filter lets through; a `deliver`, a `step`, a `list_step` and a
    /// `settle` make their moves where there are such; `list` and `history` make none.
    ///
    /// Once it has come to an early end, the world answers that for ever and keeps its past, which is that of a first part
    /// of the command.
    pub fn command(&mut self, k: u32) -> Result<(), Stop>
        requires next { last_command self.old.past + 1 ≡ k }
        requires there { k ≤ length self.old.script.commands }
        ensures done { OnOk result (Commands self.old.cluster self.old.corpus self.old.script k self.old.past self.new.past) }
        ensures turn { OnOk result (IsTurn k self.old.past self.new.past) }
        ensures number { OnOk result (last_command self.new.past ≡ k) }
        ensures goes_on { OnOk result (self.new.stopped ≡ None) }
        ensures part { OnErr result (PartlyCommands self.old.cluster self.old.corpus self.old.script k self.old.past self.new.past) }
        ensures stop { IfErr result (λ stop. self.new.stopped ≡ Some stop) }
        ensures stopped { IfSome self.old.stopped (λ stop. (result ≡ Err stop) × (self.new.past ≡ self.old.past)) }
        ensures cause { IfErr result (λ stop. self.old.stopped ≡ None → StopsCommand self.old.cluster self.old.corpus self.old.script k self.old.past self.new.past stop) }
        ensures keeps { self.new ≡ record self.old { past = self.new.past; stopped = self.new.stopped } }
    {
        if let Some(stop) = self.stopped {
            return Err(stop);
        }
        match commands::command(&mut self.state, &mut self.ready, k) {
            Ok(()) => Ok(()),
            Err(stop) => {
                self.stopped = Some(stop);
                Err(stop)
            }
        }
    }

    /// Settles once all commands have begun, and for as long as a task is live moves the clock on to the soonest moment for which one
    /// waits and settles again. It is the last that happens. Nothing is live, in flight or listed after that, and every cancel has its
    /// answer.
    ///
    /// Once it has come to an early end, the world answers that for ever and keeps its past.
    pub fn drain(&mut self) -> Result<(), Stop>
        requires last { last_command self.old.past ≡ length self.old.script.commands }
        ensures drained { OnOk result (Drains self.old.cluster self.old.corpus self.old.script self.old.past self.new.past) }
        ensures goes_on { OnOk result (self.new.stopped ≡ None) }
        ensures over { OnOk result (IsDrained self.new.past) }
        ensures answered { OnOk result (AllAnswered self.new.past) }
        ensures turn { OnOk result (IsTurn (closing self.old.script) self.old.past self.new.past) }
        ensures part { OnErr result (PartlyDrains self.old.cluster self.old.corpus self.old.script self.old.past self.new.past) }
        ensures stop { IfErr result (λ stop. self.new.stopped ≡ Some stop) }
        ensures stopped { IfSome self.old.stopped (λ stop. (result ≡ Err stop) × (self.new.past ≡ self.old.past)) }
        ensures cause { IfErr result (λ stop. self.old.stopped ≡ None → StopsDrain self.old.cluster self.old.corpus self.old.script self.old.past self.new.past stop) }
        ensures keeps { self.new ≡ record self.old { past = self.new.past; stopped = self.new.stopped } }
    {
        if let Some(stop) = self.stopped {
            return Err(stop);
        }
        match commands::drain(&mut self.state, &mut self.ready) {
            Ok(()) => Ok(()),
            Err(stop) => {
                self.stopped = Some(stop);
                Err(stop)
            }
        }
    }

    /// Delivers the message of this place among those in flight, from 0.
    ///
    /// Once it has come to an early end, the world answers that for ever and keeps its past.
    pub fn deliver(&mut self, nth: u64) -> Result<Delivered, Stop>
        ensures goes_on { OnOk result (self.new.stopped ≡ None) }
        ensures done { result ≡ Ok Delivered.Done → Delivers self.old.cluster self.old.past nth self.new.past }
        ensures no_such { (n : ℕ) → result ≡ Ok (Delivered.NoSuch n) → (n ≡ length (in_flight self.old.past)) × (n ≤ nth) × (self.new.past ≡ self.old.past) }
        ensures part { OnErr result (IsPartly (λ h new. Delivers self.old.cluster h nth new) self.old.past self.new.past) }
        ensures stop { IfErr result (λ stop. self.new.stopped ≡ Some stop) }
        ensures stopped { IfSome self.old.stopped (λ stop. (result ≡ Err stop) × (self.new.past ≡ self.old.past)) }
        ensures cause { IfErr result (λ stop. self.old.stopped ≡ None → StopsDelivery self.old.cluster self.old.past nth self.new.past stop) }
        ensures keeps { self.new ≡ record self.old { past = self.new.past; stopped = self.new.stopped } }
    {
        if let Some(stop) = self.stopped {
            return Err(stop);
        }
        let in_flight = self.state.flight.len() as u64;
        if nth >= in_flight {
            return Ok(Delivered::NoSuch(in_flight));
        }
        match moving::deliver_and_refresh(&mut self.state, &mut self.ready, nth as usize) {
            Ok(()) => Ok(Delivered::Done),
            Err(stop) => {
                self.stopped = Some(stop);
                Err(stop)
            }
        }
    }

    /// A task makes its next step.
    ///
    /// Once it has come to an early end, the world answers that for ever and keeps its past.
    pub fn step(&mut self, task: TaskId) -> Result<Stepped, Stop>
        ensures goes_on { OnOk result (self.new.stopped ≡ None) }
        ensures stepped { IfOk result (λ stepped. AnswersStep self.old.cluster self.old.corpus self.old.script task self.old.past stepped self.new.past) }
        ensures part { OnErr result (IsPartly (Steps self.old.cluster self.old.corpus self.old.script task) self.old.past self.new.past) }
        ensures stop { IfErr result (λ stop. self.new.stopped ≡ Some stop) }
        ensures stopped { IfSome self.old.stopped (λ stop. (result ≡ Err stop) × (self.new.past ≡ self.old.past)) }
        ensures cause { IfErr result (λ stop. self.old.stopped ≡ None → StopsMove (Steps self.old.cluster self.old.corpus self.old.script task) self.old.past self.new.past stop) }
        ensures memory { self.old.stopped ≡ None → result ≡ Err Stop.Memory → length self.old.past ≢ MAX_EVENTS }
        ensures keeps { self.new ≡ record self.old { past = self.new.past; stopped = self.new.stopped } }
    {
        if let Some(stop) = self.stopped {
            return Err(stop);
        }
        match moving::step_and_refresh(&mut self.state, &mut self.ready, task) {
            Ok(stepped) => Ok(stepped),
            Err(stop) => {
                self.stopped = Some(stop);
                Err(stop)
            }
        }
    }

    /// The listing of a task's children on a node makes its next step: the lowest live child without a mark is marked, or
    /// where there is none the listing ends. Where it is not open, as on a node outside the cluster, nothing happens.
    ///
    /// Once it has come to an early end, the world answers that for ever and keeps its past.
    pub fn list_step(&mut self, node: u32, parent: TaskId) -> Result<ListStep, Stop>
        ensures stepped { IfOk result (λ stepped. AnswersListing (record { node = node; parent = parent }) self.old.past stepped self.new.past) }
        ensures goes_on { OnOk result (self.new.stopped ≡ None) }
        ensures part { OnErr result (IsPartly (ListSteps (record { node = node; parent = parent })) self.old.past self.new.past) }
        ensures stop { IfErr result (λ stop. self.new.stopped ≡ Some stop) }
        ensures stopped { IfSome self.old.stopped (λ stop. (result ≡ Err stop) × (self.new.past ≡ self.old.past)) }
        ensures cause { IfErr result (λ stop. self.old.stopped ≡ None → StopsMove (ListSteps (record { node = node; parent = parent })) self.old.past self.new.past stop) }
        ensures keeps { self.new ≡ record self.old { past = self.new.past; stopped = self.new.stopped } }
    {
        if let Some(stop) = self.stopped {
            return Err(stop);
        }
        let listing = Listing { node, parent };
        match moving::list_and_refresh(&mut self.state, &mut self.ready, listing) {
            Ok(stepped) => Ok(stepped),
            Err(stop) => {
                self.stopped = Some(stop);
                Err(stop)
            }
        }
    }

    /// Makes so many moves that look like chance, or as many as there are: each is chosen among all messages in flight, open listings and
    /// live tasks that do not wait, by a number that the seed determines. The same seed makes the same moves.
    ///
    /// Once it has come to an early end, the world answers that for ever and keeps its past.
    pub fn shuffle(&mut self, seed: u64, moves: u32) -> Result<(), Stop>
        ensures goes_on { OnOk result (self.new.stopped ≡ None) }
        ensures shuffled { OnOk result (Shuffles self.old.cluster self.old.corpus self.old.script seed moves self.old.past self.new.past) }
        ensures part { OnErr result (PartlyShuffles self.old.cluster self.old.corpus self.old.script seed moves self.old.past self.new.past) }
        ensures stop { IfErr result (λ stop. self.new.stopped ≡ Some stop) }
        ensures stopped { IfSome self.old.stopped (λ stop. (result ≡ Err stop) × (self.new.past ≡ self.old.past)) }
        ensures cause { IfErr result (λ stop. self.old.stopped ≡ None → StopsShuffling self.old.cluster self.old.corpus self.old.script seed moves self.old.past self.new.past stop) }
        ensures keeps { self.new ≡ record self.old { past = self.new.past; stopped = self.new.stopped } }
    {
        if let Some(stop) = self.stopped {
            return Err(stop);
        }
        match shuffling::shuffle(&mut self.state, &mut self.ready, seed, moves) {
            Ok(()) => Ok(()),
            Err(stop) => {
                self.stopped = Some(stop);
                Err(stop)
            }
        }
    }

    /// Makes first moves for as long as there are any: the oldest message is delivered; where none is in flight the first
    /// open listing makes a step; where there is none either, the lowest task that does not wait. Nothing is in flight or listed after
    /// that, and each live task waits: for a moment, or for a live descendant that does.
    ///
    /// Once it has come to an early end, the world answers that for ever and keeps its past.
    pub fn settle(&mut self) -> Result<(), Stop>
        ensures goes_on { OnOk result (self.new.stopped ≡ None) }
        ensures settled { OnOk result (Settles self.old.cluster self.old.corpus self.old.script self.old.past self.new.past) }
        ensures waits { OnOk result (EachWaits self.old.cluster self.old.corpus self.old.script self.new.past) }
        ensures part { OnErr result (PartlySettles self.old.cluster self.old.corpus self.old.script self.old.past self.new.past) }
        ensures stop { IfErr result (λ stop. self.new.stopped ≡ Some stop) }
        ensures stopped { IfSome self.old.stopped (λ stop. (result ≡ Err stop) × (self.new.past ≡ self.old.past)) }
        ensures cause { IfErr result (λ stop. self.old.stopped ≡ None → StopsSettling self.old.cluster self.old.corpus self.old.script self.old.past self.new.past stop) }
        ensures keeps { self.new ≡ record self.old { past = self.new.past; stopped = self.new.stopped } }
    {
        if let Some(stop) = self.stopped {
            return Err(stop);
        }
        match moving::settle(&mut self.state, &mut self.ready) {
            Ok(()) => {
                // What a history can take besides says how many events it has at most.
                let _left = self.state.history.left();
                Ok(())
            }
            Err(stop) => {
                self.stopped = Some(stop);
                Err(stop)
            }
        }
    }
}
