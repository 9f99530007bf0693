//! What a data worker asks of a plain board.
ghost use Rattle.std.specs.Prelude.{◌≡◌, false, None};
ghost use Rattle.child_track.specs.Token.{token_parent};
ghost use Rattle.race_board.specs.Checks.{BannedBy};
ghost use Rattle.node_boards.specs.PlainNew.{IsNewData};
ghost use Rattle.node_boards.specs.PlainSeats.{KeepsTicket};
ghost use Rattle.node_boards.specs.Seats.{IsFresh};

use crate::data_board::DataBoard;
use crate::plain_board::PlainBoard;
use crate::plain_data::PlainDataSeat;
use child_track::{AskToken, ChildTrack};
use std::sync::Wait;
use task_ids::{BoardName, TaskId};
use task_table::{Check, Ended, Full, Ticket, Track};

/// A data seat of a plain board with its board, and the handle by which it waits for the board's lock.
#[derive(Drop)]
pub struct PlainData<'b, N: BoardName, R> {
    rt: &'b R,
    board: &'b PlainBoard<N>,
    seat: PlainDataSeat<N>,
}

impl<'b, N: BoardName, R> PlainData<'b, N, R> {
    /// A new seat of this board.
    pub fn new(rt: &'b R, board: &'b PlainBoard<N>, seat: PlainDataSeat<N>) -> PlainData<'b, N, R>
        requires { IsNewData seat }
        ensures is { (result.board.now ≡ board.now) × (result.seat ≡ seat) }
        ensures fresh { IsFresh (KeepsTicket result.seat.tickets.items) result.seat.drawn }
        ensures told { result.seat.told ≡ false }
    {
        PlainData { rt, board, seat }
    }
}

impl<'b, N: BoardName, R: Wait> PlainData<'b, N, R> {
    // Whether a ban of the task's parent stands. A root has no parent.
    fn ban_of(&self, ticket: &Ticket) -> Check
        ensures root { token_parent ticket.now.token ≡ None → result ≡ Check.Clear }
        ensures allowed { BannedBy N.allowed result }
    {
        match ticket.parent() {
            Some(parent) => self.board.table.lock(self.rt).check(parent),
            None => Check::Clear,
        }
    }
}

impl<'b, N: BoardName, R: Wait> DataBoard<N> for PlainData<'b, N, R> {
    ghost use Rattle.node_boards.specs.PlainSeats.{KeepsTicket, KeepsClear};

    ghost node = { λ s. s.board.now.node };

    ghost has = { λ s. KeepsTicket s.seat.tickets.items };

    ghost drawn = { λ s. s.seat.drawn };

    ghost told = { λ s. s.seat.told };

    ghost clear = { λ s. KeepsClear s.seat.tickets.items };

    // Nothing is known of what lies under the lock from one call to the next.
    ghost rests = { λ s t call. Unit {0} };

    fn draw(&mut self) -> Option<u32> {
        if self.seat.told {
            return None;
        }
        let number = self.board.table.lock(self.rt).draw();
        self.seat.note_drawn(number);
        number
    }

    fn claim(
        &mut self,
        number: u32,
        parent: Option<TaskId>,
        token: Option<AskToken>,
    ) -> Result<Ticket, Full> {
        let Some(place) = self.seat.room_for(number) else {
            return Err(Full(token));
        };
        if !self.board.table.lock(self.rt).claim(number, parent) {
            return Err(Full(token));
        }
        self.seat.hold(place, number, parent);
        let id = TaskId {
            node: self.board.node,
            number,
        };
        Ok(Ticket::new(id, token))
    }

    fn check(&mut self, ticket: &Ticket) -> Check {
        match self.ban_of(ticket) {
            Check::Clear => {
                self.seat.note_clear(ticket.id().number);
                Check::Clear
            }
            Check::Banned(cancel) => Check::Banned(cancel),
        }
    }

    fn track(&mut self, ticket: &Ticket, to: u32) -> Track {
        let number = ticket.id().number;
        match self.board.table.lock(self.rt).track(number, to) {
            Some(mark) => Track::Cancelled(mark),
            None => Track::Cleared,
        }
    }

    fn untrack(&mut self, ticket: &Ticket, to: u32) {
        let number = ticket.id().number;
        self.board.table.lock(self.rt).untrack(number, to);
    }

    fn look(&mut self, ticket: &Ticket) -> Option<u32> {
        self.board.table.lock(self.rt).look(ticket.id().number)
    }

    fn end(&mut self, ticket: Ticket, track: ChildTrack) -> Ended {
        let number = ticket.id().number;
        let mark = self.board.table.lock(self.rt).end(number);
        self.seat.let_go(number);
        Ended {
            receipt: ticket.seal(track),
            mark,
        }
    }
}
