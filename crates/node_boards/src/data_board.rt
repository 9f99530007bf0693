//! A board as a data worker asks it.
ghost use Rattle.std.specs.Prelude.{◌≡◌, true, is_ok, is_none, None, Some, IfOk, IfErr, IfSome, OnOk, OnErr};
ghost use Rattle.child_track.specs.Token.{token_parent};
ghost use Rattle.child_track.specs.Track.{unanswered, sealed};
ghost use Rattle.task_ids.specs.Limits.{IsNode, IsNumber};
ghost use Rattle.race_board.specs.Keys.{parent_key};
ghost use Rattle.race_board.specs.Checks.{BannedBy, CancelledBy};
ghost use Rattle.node_boards.specs.Calls.{draw, claim, check, track, untrack, look, end};
ghost use Rattle.node_boards.specs.Seats.{HasTicket, SameTickets, OneMore, OneLess, Keeps, KeepsOthers};

use child_track::{AskToken, ChildTrack};
use task_ids::{BoardName, TaskId};
use task_table::{Check, Ended, Full, Ticket, Track};

/// What a data worker asks of its node's board, by a seat of its own. No call takes memory.
///
/// A proof knows what the seat itself knows, and what was answered: nothing is known of a value behind a lock from one
/// call to the next, nor of words that others write.
pub trait DataBoard<N: BoardName> {
    ghost use Rattle.std.specs.Prelude.{ℕ, Bool, Option};
    ghost use Rattle.node_boards.specs.Calls.{DataCall};

    /// The node whose board it is.
    ghost node: { Self → ℕ };

    /// The seat has a ticket of this number, whose parent has this key.
    ghost has: { Self → ℕ → ℕ → Type 0 };

    /// The number that the seat drew and has not used.
    ghost drawn: { Self → Option ℕ };

    /// Whether a draw told the seat that no number is left.
    ghost told: { Self → Bool };

    /// The check of the ticket of this number was clear.
    ghost clear: { Self → ℕ → Type 0 };

    /// What the answer of a call rests on, by the board's own steps: the seat before it and after it.
    ghost rests: { Self → Self → DataCall → Type 0 };

    /// The next number of the node, or none where 1,048,575 was given. A seat that was told so is told so again.
    fn draw(&mut self) -> Option<u32>
        requires free { drawn self.old ≡ None }
        ensures rests { rests self.old self.new (draw result) }
        ensures drawn { drawn self.new ≡ result }
        ensures number { IfSome result IsNumber }
        ensures told { told self.new ≡ is_none result }
        ensures for_good { told self.old ≡ true → result ≡ None }
        ensures tickets { SameTickets (has self.old) (has self.new) × Keeps (clear self.old) (clear self.new) }
        ensures node { node self.new ≡ node self.old };

    /// Registers a task under a number that this seat drew and has not used, and gives its ticket. A token goes with
    /// it exactly where it has a parent, and is that parent's.
    ///
    /// It is full where no slot was found free. Then the number stays unused, and the token comes back.
    fn claim(
        &mut self,
        number: u32,
        parent: Option<TaskId>,
        token: Option<AskToken>,
    ) -> Result<Ticket, Full>
        requires drawn { drawn self.old ≡ Some number }
        requires token { token_parent token ≡ parent }
        ensures rests { rests self.old self.new (claim number parent (is_ok result)) }
        ensures ticket { IfOk result (λ t. (t.id.node ≡ node self.old) × (t.id.number ≡ number) × (t.token ≡ token)) }
        ensures more { OnOk result ((drawn self.new ≡ None) × OneMore (has self.old) (has self.new) number (parent_key parent)) }
        ensures root { OnOk result (parent ≡ None → clear self.new number) }
        ensures full { OnErr result ((drawn self.new ≡ Some number) × SameTickets (has self.old) (has self.new) × Keeps (clear self.old) (clear self.new)) }
        ensures given_back { IfErr result (λ full. full.0 ≡ token) }
        ensures others { KeepsOthers (clear self.old) (clear self.new) number }
        ensures kept { (told self.new ≡ told self.old) × (node self.new ≡ node self.old) };

    /// Looks for a ban of the task's parent. A root is clear.
    fn check(&mut self, ticket: &Ticket) -> Check
        requires ticket { HasTicket (has self.old) ticket.now }
        ensures rests { rests self.old self.new (check ticket.now result) }
        ensures root { token_parent ticket.now.token ≡ None → result ≡ Check.Clear }
        ensures allowed { BannedBy N.allowed result }
        ensures clear { result ≡ Check.Clear → clear self.new ticket.now.id.number }
        ensures others { KeepsOthers (clear self.old) (clear self.new) ticket.now.id.number }
        ensures tickets { SameTickets (has self.old) (has self.new) }
        ensures kept { (drawn self.new ≡ drawn self.old) × (told self.new ≡ told self.old) × (node self.new ≡ node self.old) };

    /// Notes in the task's mask that it will ask on the node, and looks after that whether it is marked.
    fn track(&mut self, ticket: &Ticket, to: u32) -> Track
        requires ticket { HasTicket (has self.old) ticket.now }
        requires clear { clear self.old ticket.now.id.number }
        requires node { IsNode to }
        ensures rests { rests self.old self.new (track ticket.now to result) }
        ensures allowed { CancelledBy N.allowed result }
        ensures tickets { SameTickets (has self.old) (has self.new) × Keeps (clear self.old) (clear self.new) }
        ensures kept { (drawn self.new ≡ drawn self.old) × (told self.new ≡ told self.old) × (node self.new ≡ node self.old) };

    /// Takes the node out of the task's mask. The caller sees to it that no unanswered ask of the task goes there.
    fn untrack(&mut self, ticket: &Ticket, to: u32)
        requires ticket { HasTicket (has self.old) ticket.now }
        requires node { IsNode to }
        ensures rests { rests self.old self.new (untrack ticket.now to) }
        ensures tickets { SameTickets (has self.old) (has self.new) × Keeps (clear self.old) (clear self.new) }
        ensures kept { (drawn self.new ≡ drawn self.old) × (told self.new ≡ told self.old) × (node self.new ≡ node self.old) };

    /// The task's mark.
    fn look(&mut self, ticket: &Ticket) -> Option<u32>
        requires ticket { HasTicket (has self.old) ticket.now }
        ensures rests { rests self.old self.new (look ticket.now result) }
        ensures allowed { IfSome result N.allowed }
        ensures tickets { SameTickets (has self.old) (has self.new) × Keeps (clear self.old) (clear self.new) }
        ensures kept { (drawn self.new ≡ drawn self.old) × (told self.new ≡ told self.old) × (node self.new ≡ node self.old) };

    /// Ends the task, which frees its slot, and gives its mark. The ticket and the track, in which nothing is
    /// unanswered, are spent.
    fn end(&mut self, ticket: Ticket, track: ChildTrack) -> Ended
        requires ticket { HasTicket (has self.old) ticket }
        requires track { track.task ≡ ticket.id }
        requires answered { unanswered track ≡ 0 }
        ensures rests { rests self.old self.new (end ticket result.mark) }
        ensures receipt { result.receipt ≡ sealed track ticket.token }
        ensures allowed { IfSome result.mark N.allowed }
        ensures gone { OneLess (has self.old) (has self.new) ticket.id.number }
        ensures others { KeepsOthers (clear self.old) (clear self.new) ticket.id.number }
        ensures kept { (drawn self.new ≡ drawn self.old) × (told self.new ≡ told self.old) × (node self.new ≡ node self.old) };
}
