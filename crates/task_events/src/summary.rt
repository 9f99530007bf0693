ghost use Rattle.std.specs.Prelude.{◌≡◌};
ghost use Rattle.task_events.specs.Summaries.{StaysLow, after};

use crate::event::Event;
use crate::reply::Reply;

/// How many tasks, bans and writes came and went in a history.
#[derive(Clone, Copy, Debug, PartialEq, Eq)]
pub struct Summary {
    /// Bans that were put on nodes.
    pub bans: u64,
    /// Tasks that ended with a cancelled reply.
    pub cancelled: u64,
    /// Tasks that ended, the cancelled ones too. A refused one does not count.
    pub ended: u64,
    /// Children that were refused.
    pub refused: u64,
    /// Tasks that started: roots of commands, and children that were put on their nodes.
    pub tasks: u64,
    /// Bans that were taken away.
    pub unbans: u64,
    /// Documents that were written.
    pub writes: u64,
}

impl Summary {
    /// Nothing came.
    pub(crate) fn new() -> Summary
        ensures { result ≡ record { bans = 0; cancelled = 0; ended = 0; refused = 0; tasks = 0; unbans = 0; writes = 0 } }
    {
        Summary {
            bans: 0,
            cancelled: 0,
            ended: 0,
            refused: 0,
            tasks: 0,
            unbans: 0,
            writes: 0,
        }
    }

    /// Counts one event more.
    pub(crate) fn count(&mut self, event: &Event)
        requires { StaysLow self.old }
        ensures { self.new ≡ after event.now self.old }
    {
        match event {
            Event::Root { .. } | Event::Put { .. } => self.tasks += 1,
            Event::Refuse { .. } => self.refused += 1,
            Event::BanPut { .. } => self.bans += 1,
            Event::BanGone { .. } => self.unbans += 1,
            Event::Write { .. } => self.writes += 1,
            Event::End { reply, .. } => {
                self.ended += 1;
                if let Reply::Cancelled { .. } = reply {
                    self.cancelled += 1;
                }
            }
            _ => {}
        }
    }
}
