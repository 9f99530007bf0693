ghost use Rattle.std.specs.Prelude.{◌≡◌, ◌≤◌, length, reverse, take, drop, IsTrue, ◌↔◌, []};
ghost use Rattle.std.specs.Iterator.{YieldsFirstRef, item_count};

use crate::event::Event;
use crate::history::History;
use std::marker::Model;

/// Events of a history that came one after the other, the oldest first, and an iterator over them. Contracts see their list.
#[derive(Drop)]
pub struct Events<'a> {
    history: &'a History,
    /// The place of the first, from the oldest event of the history at 0.
    from: usize,
    /// The place after the last.
    to: usize,
}

impl<'a> Model for Events<'a> {
    ghost use Rattle.std.specs.Prelude.{List, ◌-◌, ◌≤◌, take, drop, length, reverse};
    ghost use Rattle.task_events.specs.declared.event.Event.{Event};
    ghost use Rattle.task_events.specs.contracts.event.Event as events_row;
    ghost use Rattle.std.specs.Coded.{coded_list};

    ghost Value = { List Event };

    ghost coded = { coded_list events_row.the_row.coded };

    ghost view = { λ s. take (s.to - s.from) (drop s.from (reverse s.history.now)) };

    ghost invariant = { λ s. (s.from ≤ s.to) × (s.to ≤ length s.history.now) };
}

impl<'a> Events<'a> {
    /// All events of a history.
    pub(crate) fn of(history: &'a History) -> Events<'a>
        ensures { result ≡ reverse history.now }
    {
        Events {
            history,
            from: 0,
            to: history.len(),
        }
    }

    /// The same events once more.
    pub fn iter(&self) -> Events<'a>
        ensures { result ≡ self.now }
    {
        Events {
            history: self.history,
            from: self.from,
            to: self.to,
        }
    }

    /// The number of events.
    pub fn len(&self) -> usize
        ensures { result ≡ length self.now }
    {
        self.to - self.from
    }

    /// Whether there are none.
    pub fn is_empty(&self) -> bool
        ensures { IsTrue result ↔ (self.now ≡ []) }
    {
        self.from == self.to
    }

    /// Takes so many events away from the front.
    pub fn take_front(&mut self, count: usize) -> Events<'a>
        requires { count ≤ length self.old }
        ensures taken { result ≡ take count self.old }
        ensures left { self.new ≡ drop count self.old }
    {
        let from = self.from;
        self.from += count;
        Events {
            history: self.history,
            from,
            to: self.from,
        }
    }
}

impl<'a> Iterator for Events<'a> {
    type Item = &'a Event;

    ghost next_gives = { YieldsFirstRef (λ s. s) };

    ghost remaining = { item_count (λ s. s) };

    fn next(&mut self) -> Option<&'a Event> {
        if self.from == self.to {
            return None;
        }
        let event = self.history.get(self.from)?;
        self.from += 1;
        Some(event)
    }
}
