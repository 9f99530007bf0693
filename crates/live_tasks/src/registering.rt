//! The registration of tasks.
ghost use Rattle.std.specs.Prelude.{◌≡◌, ◌+◌, ℕ, true, false, Ok, Err, None, Some, Option, is_some, IfOk, IfErr, OnErr};
ghost use Rattle.task_ids.specs.declared.task_id.TaskId.{TaskId};
ghost use Rattle.child_track.specs.Token.{Token, token_parent};
ghost use Rattle.child_track.specs.Track.{unanswered};
ghost use Rattle.node_boards.specs.Seats.{HasTicket, OneLess, KeepsOthers};
ghost use Rattle.task_work.specs.Works.{is_page};
ghost use Rattle.node_boards.specs.Calls as call;
ghost use Rattle.live_tasks.specs.declared.entry.Entry.{Entry};
ghost use Rattle.live_tasks.specs.Chains.{Chain};
ghost use Rattle.live_tasks.specs.Live.{entry_at, number_at, count, ChangesAt, SameCore, SameTasks};
ghost use Rattle.live_tasks.specs.Registers.{IsNewEntry, drawing, registering, is_task, new_entry};
ghost use Rattle.live_tasks.specs.Ties.{Together};

use crate::entry::Entry;
use crate::live::LiveTasks;
use crate::table::put;
use crate::wanted::{Parts, Wanted};
use child_track::AskToken;
use node_boards::DataBoard;
use task_events::Stop;
use task_ids::{BoardName, Cluster, TaskId};
use task_table::Full;

/// What came of a registration.
pub enum Registered {
    /// The task with this id is live.
    Task(TaskId),
    /// No slot was found free. The token comes back.
    Full(Option<AskToken>),
}

/// A token that goes nowhere is spent.
fn let_go(token: Option<AskToken>) {
    if let Some(token) = token {
        let _ = token.reject();
    }
}

/// The task whose token it is.
fn parent_of(token: &Option<AskToken>) -> Option<TaskId>
    ensures { result ≡ token_parent token.now }
{
    match token {
        Some(token) => Some(token.parent()),
        None => None,
    }
}

impl LiveTasks {
    /// The id of the next task: with the number that is left unused, or else with one that is drawn. It fails exactly where the draw
    /// told that none is left (`NumbersSpent`).
    fn next_id<N: BoardName, B: DataBoard<N>>(&mut self, board: &mut B) -> Result<TaskId, Stop>
        requires together { Together (B.node board.old) (B.has board.old) (B.drawn board.old) (B.clear board.old) self.old }
        ensures together { Together (B.node board.new) (B.has board.new) (B.drawn board.new) (B.clear board.new) self.new }
        ensures id { IfOk result (λ id. (id.node ≡ self.old.node) × (self.new.drawn ≡ Some id.number)) }
        ensures calls { IfOk result (λ id. Chain B.rests board.old (drawing self.old.drawn id.number) board.new) }
        ensures spent { IfErr result (λ stop. (stop ≡ Stop.NumbersSpent) × (self.old.drawn ≡ None) × (self.new.drawn ≡ None) × B.rests board.old board.new (call.draw None)) }
        ensures same { SameTasks self.old self.new }
        ensures core { SameCore self.old self.new }
    {
        if let Some(number) = self.drawn {
            return Ok(TaskId {
                node: self.node,
                number,
            });
        }
        match board.draw() {
            Some(number) => {
                self.drawn = Some(number);
                Ok(TaskId {
                    node: self.node,
                    number,
                })
            }
            None => Err(Stop::NumbersSpent),
        }
    }

    /// The task is claimed at the board, and kept. Where it cannot be kept for want of memory (`Memory`), it has ended at the board and
    /// makes no receipt.
    fn claim<N: BoardName, B: DataBoard<N>>(
        &mut self,
        board: &mut B,
        id: TaskId,
        token: Option<AskToken>,
        parts: Parts,
    ) -> Result<Registered, Stop>
        requires id { (id.node ≡ self.old.node) × (self.old.drawn ≡ Some id.number) }
        requires place { number_at self.old parts.place ≡ None }
        requires together { Together (B.node board.old) (B.has board.old) (B.drawn board.old) (B.clear board.old) self.old }
        ensures together { Together (B.node board.new) (B.has board.new) (B.drawn board.new) (B.clear board.new) self.new }
        ensures task { (t : TaskId) → result ≡ Ok (Registered.Task t) → (t ≡ id) × (self.new.drawn ≡ None) }
        ensures entry { (t : TaskId) → result ≡ Ok (Registered.Task t) → ChangesAt (entry_at self.old) (entry_at self.new) id.number (Some (new_entry (record { id = id; token = token }) parts)) }
        ensures placed { (t : TaskId) → result ≡ Ok (Registered.Task t) → ChangesAt (number_at self.old) (number_at self.new) parts.place (Some id.number) }
        ensures more { (t : TaskId) → result ≡ Ok (Registered.Task t) → count self.new ≡ count self.old + 1 }
        ensures full { (t : Option Token) → result ≡ Ok (Registered.Full t) → (t ≡ token) × (self.new.drawn ≡ self.old.drawn) × SameTasks self.old self.new }
        ensures calls { IfOk result (λ r. B.rests board.old board.new (call.claim id.number (token_parent token) (is_task r))) }
        ensures memory { IfErr result (λ stop. stop ≡ Stop.Memory) }
        ensures err { OnErr result (SameTasks self.old self.new) }
        ensures core { SameCore self.old self.new }
    {
        match board.claim(id.number, parent_of(&token), token) {
            Err(Full(token)) => {
                drop(parts);
                Ok(Registered::Full(token))
            }
            Ok(ticket) => {
                self.drawn = None;
                let entry = parts.into_entry(self.alloc, ticket);
                match put(
                    self.alloc,
                    &mut self.tasks,
                    &mut self.places,
                    id.number,
                    entry,
                ) {
                    Ok(()) => Ok(Registered::Task(id)),
                    Err(entry) => {
                        end_unkept(board, entry);
                        Err(Stop::Memory)
                    }
                }
            }
        }
    }

    /// Registers a task with the node's board, which from then on is live here: a root without a token, or the child of the token's ask.
    /// A root has passed; a child is new, and its check is still to come. It starts at this moment, in milliseconds.
    ///
    /// It fails where the board's draw tells that no number is left (`NumbersSpent`), and exactly there, and where memory runs out
    /// (`Memory`). Then the token is spent, and the same tasks are live as before.
    pub fn register<N: BoardName, B: DataBoard<N>>(
        &mut self,
        board: &mut B,
        token: Option<AskToken>,
        wanted: &Wanted<'_>,
        cluster: &Cluster,
        now: u64,
    ) -> Result<Registered, Stop>
        requires place { number_at self.old wanted.now.place ≡ None }
        requires context { is_some wanted.now.context ≡ is_page wanted.now.request.now }
        requires together { Together (B.node board.old) (B.has board.old) (B.drawn board.old) (B.clear board.old) self.old }
        ensures together { Together (B.node board.new) (B.has board.new) (B.drawn board.new) (B.clear board.new) self.new }

        // A task is live.
        ensures task { (id : TaskId) → result ≡ Ok (Registered.Task id) → (id.node ≡ self.old.node) × (self.new.drawn ≡ None) }
        ensures entry { (id : TaskId) → result ≡ Ok (Registered.Task id) → (e : Entry)
            × IsNewEntry id token wanted.now cluster.now.shards now e × ChangesAt (entry_at self.old) (entry_at self.new) id.number (Some e) }
        ensures placed { (id : TaskId) → result ≡ Ok (Registered.Task id) → ChangesAt (number_at self.old) (number_at self.new) wanted.now.place (Some id.number) }
        ensures more { (id : TaskId) → result ≡ Ok (Registered.Task id) → count self.new ≡ count self.old + 1 }
        ensures calls { (id : TaskId) → result ≡ Ok (Registered.Task id) → Chain B.rests board.old (registering self.old.drawn id.number (token_parent token) true) board.new }

        // No slot was free, and the number is left unused.
        ensures full { (t : Option Token) → result ≡ Ok (Registered.Full t) → (t ≡ token) × SameTasks self.old self.new }
        ensures full_calls { (t : Option Token) → result ≡ Ok (Registered.Full t) → (n : ℕ) × (self.new.drawn ≡ Some n)
            × Chain B.rests board.old (registering self.old.drawn n (token_parent token) false) board.new }

        ensures spent { result ≡ Err Stop.NumbersSpent → (self.old.drawn ≡ None) × (self.new.drawn ≡ None) × B.rests board.old board.new (call.draw None) }
        ensures history { result ≡ Err Stop.HistoryFull → ⊥ }
        ensures err { OnErr result (SameTasks self.old self.new) }
        ensures core { SameCore self.old self.new }
    {
        match self.next_id(board) {
            Ok(id) => self.enter(board, id, token, wanted, cluster, now),
            Err(stop) => {
                let_go(token);
                Err(stop)
            }
        }
    }

    /// What is wanted is made under this id, and claimed, as `register` says.
    fn enter<N: BoardName, B: DataBoard<N>>(
        &mut self,
        board: &mut B,
        id: TaskId,
        token: Option<AskToken>,
        wanted: &Wanted<'_>,
        cluster: &Cluster,
        now: u64,
    ) -> Result<Registered, Stop>
        requires id { (id.node ≡ self.old.node) × (self.old.drawn ≡ Some id.number) }
        requires place { number_at self.old wanted.now.place ≡ None }
        requires context { is_some wanted.now.context ≡ is_page wanted.now.request.now }
        requires together { Together (B.node board.old) (B.has board.old) (B.drawn board.old) (B.clear board.old) self.old }
        ensures together { Together (B.node board.new) (B.has board.new) (B.drawn board.new) (B.clear board.new) self.new }
        ensures task { (t : TaskId) → result ≡ Ok (Registered.Task t) → (t ≡ id) × (self.new.drawn ≡ None) }
        ensures entry { (t : TaskId) → result ≡ Ok (Registered.Task t) → (e : Entry)
            × IsNewEntry id token wanted.now cluster.now.shards now e × ChangesAt (entry_at self.old) (entry_at self.new) id.number (Some e) }
        ensures placed { (t : TaskId) → result ≡ Ok (Registered.Task t) → ChangesAt (number_at self.old) (number_at self.new) wanted.now.place (Some id.number) }
        ensures more { (t : TaskId) → result ≡ Ok (Registered.Task t) → count self.new ≡ count self.old + 1 }
        ensures full { (t : Option Token) → result ≡ Ok (Registered.Full t) → (t ≡ token) × (self.new.drawn ≡ self.old.drawn) × SameTasks self.old self.new }
        ensures calls { IfOk result (λ r. B.rests board.old board.new (call.claim id.number (token_parent token) (is_task r))) }
        ensures memory { IfErr result (λ stop. stop ≡ Stop.Memory) }
        ensures err { OnErr result (SameTasks self.old self.new) }
        ensures core { SameCore self.old self.new }
    {
        let parent = parent_of(&token);
        match Parts::of(self.alloc, id, parent, wanted, cluster, now) {
            Ok(parts) => self.claim(board, id, token, parts),
            Err(_) => {
                let_go(token);
                Err(Stop::Memory)
            }
        }
    }
}

/// A task that was claimed and cannot be kept ends at the board. Its receipt goes nowhere.
fn end_unkept<N: BoardName, B: DataBoard<N>>(board: &mut B, entry: Entry)
    requires ticket { HasTicket (B.has board.old) entry.running.ticket }
    requires track { (entry.running.track.task ≡ entry.running.ticket.id) × (unanswered entry.running.track ≡ 0) }
    ensures gone { OneLess (B.has board.old) (B.has board.new) entry.running.ticket.id.number }
    ensures others { KeepsOthers (B.clear board.old) (B.clear board.new) entry.running.ticket.id.number }
    ensures kept { (B.drawn board.new ≡ B.drawn board.old) × (B.node board.new ≡ B.node board.old) }
{
    let (ticket, track, left) = entry.into_parts();
    drop(left);
    board.end(ticket, track);
}
