//! A kind of worker that answers, and its letters.
ghost use Rattle.std.specs.Prelude.{◌≡◌, ◌≤◌, true};
ghost use Rattle.node_link.specs.Lawful.{IsTick};

use node_link::{Body, Letter};
use node_worker::{Post, Turns};
use std::alloc::{AllocError, Global};
use task_events::Stop;
use task_ids::AnyCancel;

pub(crate) type Note = Letter<AnyCancel>;

/// Answers each tick with two, has some steps to do, and fails at a drain. It ends once it is told to leave.
#[derive(Drop)]
pub(crate) struct Echo {
    alloc: Global,
    pub(crate) steps: u64,
    leaving: bool,
}

// The tick twice. Between them is a letter for an inbox that is not there.
fn twice(alloc: Global, ms: u64) -> Result<Vec<Post<Note>>, AllocError>
    requires { IsTick ms }
{
    let mut posts = Vec::new(alloc);
    for to in [0, 9, 0] {
        let letter = Letter::new(Body::Tick { ms });
        posts.push(Post { to, letter })?;
    }
    Ok(posts)
}

impl Turns<AnyCancel> for Echo {
    ghost did = { λ old _ _ new. new.steps ≤ old.steps };

    ghost at_rest = { λ echo. (echo.leaving ≡ true) × (echo.steps ≡ 0) };

    ghost fits = { λ _. Unit {0} };

    fn take(&mut self, body: Body) -> Result<Vec<Post<Note>>, Stop> {
        match body {
            Body::Tick { ms } => twice(self.alloc, ms).map_err(|_| Stop::Memory),
            Body::Leave => {
                self.leaving = true;
                Ok(Vec::new(self.alloc))
            }
            Body::Drain => Err(Stop::HistoryFull),
            _ => Ok(Vec::new(self.alloc)),
        }
    }

    fn step(&mut self) -> Result<Option<Vec<Post<Note>>>, Stop> {
        if self.steps == 0 {
            return Ok(None);
        }
        self.steps -= 1;
        Ok(Some(Vec::new(self.alloc)))
    }

    fn may_wait(&self) -> bool {
        self.steps == 0
    }

    fn may_leave(&self) -> bool {
        self.leaving && self.steps == 0
    }

    fn farewell(&self, stop: Stop) -> Post<Note> {
        Post {
            to: 0,
            letter: Letter::new(Body::Stopped(stop)),
        }
    }
}

/// An echo of three steps.
pub(crate) fn new_echo(alloc: Global) -> Echo {
    Echo {
        alloc,
        steps: 3,
        leaving: false,
    }
}

/// The tick of so many milliseconds.
pub(crate) fn tick(ms: u64) -> Note
    requires { IsTick ms }
{
    Letter::new(Body::Tick { ms })
}

/// The milliseconds of a letter that is a tick.
pub(crate) fn ms_of(letter: Note) -> Option<u64> {
    match letter.into_body() {
        Body::Tick { ms } => Some(ms),
        body => {
            drop(body);
            None
        }
    }
}
