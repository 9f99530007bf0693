//! A data seat of a plain board, and its calls.
ghost use Rattle.std.specs.Prelude.{◌≡◌, ◌≢◌, ℕ, ◌<◌, true, false, length, None, Some, is_none, IfOk, IfSome, MatchOption};
ghost use Rattle.task_ids.specs.Limits.{IsNumber};
ghost use Rattle.race_board.specs.Keys.{parent_key};
ghost use Rattle.node_boards.specs.PlainSeats.{Apart, NoneOf, IsAt, ticket, KeepsTicket, KeepsClear};
ghost use Rattle.node_boards.specs.Seats.{SameTickets, OneMore, OneLess, Keeps, KeepsOthers};

use crate::plain_rows::{Held, find_ticket, free_place};
use std::alloc::{AllocError, Global};
use std::marker::PhantomData;
use task_ids::{BoardName, TaskId};

/// The seat of a data worker. It has the tickets of the tasks that were claimed with it.
#[derive(Drop)]
pub struct PlainDataSeat<N: BoardName> {
    pub(crate) tickets: Vec<Option<Held>>,
    /// The number that it drew and has not used.
    pub(crate) drawn: Option<u32>,
    /// Whether a draw told it that no number is left.
    pub(crate) told: bool,
    name: PhantomData<N>,
    ghost apart: { Apart tickets.items },
    ghost numbered: { (n : ℕ) → drawn ≡ Some n → IsNumber n },
}

impl<N: BoardName> PlainDataSeat<N> {
    ghost use Rattle.node_boards.specs.PlainNew.{IsNewData};

    /// A seat with no ticket, and with room for a ticket of each slot.
    pub(crate) fn new(alloc: Global, slots: u32) -> Result<PlainDataSeat<N>, AllocError>
        ensures { IfOk result IsNewData }
    {
        Ok(PlainDataSeat {
            tickets: vec![in alloc; None; slots as usize]?,
            drawn: None,
            told: false,
            name: PhantomData,
        })
    }

    /// Notes what a draw gave.
    pub(crate) fn note_drawn(&mut self, number: Option<u32>)
        requires { IfSome number IsNumber }
        ensures drawn { (self.new.drawn ≡ number) × (self.new.told ≡ is_none number) }
        ensures kept { self.new.tickets ≡ self.old.tickets }
    {
        self.told = number.is_none();
        self.drawn = number;
    }

    /// A free place for a ticket of the number, which has none.
    pub(crate) fn room_for(&self, number: u32) -> Option<usize>
        ensures { MatchOption result (Unit {0}) (λ i. (i < length self.now.tickets.items) × (ticket self.now.tickets.items i ≡ None) × NoneOf self.now.tickets.items number) }
    {
        match find_ticket(&self.tickets, number) {
            Some(_) => None,
            None => free_place(&self.tickets),
        }
    }

    /// Takes in the ticket of the number that was drawn. A root is clear.
    pub(crate) fn hold(&mut self, place: usize, number: u32, parent: Option<TaskId>)
        requires room { (place < length self.old.tickets.items) × (ticket self.old.tickets.items place ≡ None) × NoneOf self.old.tickets.items number }
        ensures more { OneMore (KeepsTicket self.old.tickets.items) (KeepsTicket self.new.tickets.items) number (parent_key parent) }
        ensures root { parent ≡ None → KeepsClear self.new.tickets.items number }
        ensures others { KeepsOthers (KeepsClear self.old.tickets.items) (KeepsClear self.new.tickets.items) number }
        ensures used { (self.new.drawn ≡ None) × (self.new.told ≡ self.old.told) }
    {
        self.drawn = None;
        self.tickets[place] = Some(Held {
            number,
            parent,
            is_clear: parent.is_none(),
        });
    }

    /// Notes that the check of the ticket was clear.
    pub(crate) fn note_clear(&mut self, number: u32)
        ensures clear { KeepsClear self.new.tickets.items number }
        ensures others { KeepsOthers (KeepsClear self.old.tickets.items) (KeepsClear self.new.tickets.items) number }
        ensures tickets { SameTickets (KeepsTicket self.old.tickets.items) (KeepsTicket self.new.tickets.items) }
        ensures kept { (self.new.drawn ≡ self.old.drawn) × (self.new.told ≡ self.old.told) }
    {
        if let Some((i, held)) = find_ticket(&self.tickets, number) {
            self.tickets[i] = Some(Held {
                number: held.number,
                parent: held.parent,
                is_clear: true,
            });
        }
    }

    /// Lets the ticket of a number go.
    pub(crate) fn let_go(&mut self, number: u32)
        ensures gone { OneLess (KeepsTicket self.old.tickets.items) (KeepsTicket self.new.tickets.items) number }
        ensures others { KeepsOthers (KeepsClear self.old.tickets.items) (KeepsClear self.new.tickets.items) number }
        ensures kept { (self.new.drawn ≡ self.old.drawn) × (self.new.told ≡ self.old.told) }
    {
        if let Some((i, _)) = find_ticket(&self.tickets, number) {
            self.tickets[i] = None;
        }
    }
}
