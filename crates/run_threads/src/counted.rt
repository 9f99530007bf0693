// Jobs that count themselves when they are done.
ghost use Rattle.std.specs.Prelude.{◌≡◌};

use es_io::Job;
use std::sync::Wait;
use std::sync::atomic::{AtomicU32, Ordering};

/// A job that adds one to a count when it is done.
#[derive(Drop)]
pub(crate) struct Counted<'c, J> {
    pub(crate) job: J,
    pub(crate) done: &'c AtomicU32,
}

impl<'c, J: Job> Job for Counted<'c, J> {
    type Out = J::Out;

    ghost gives = { λ counted out. J.gives counted.job out };

    fn run<R: Wait>(self, rt: &R) -> J::Out {
        let Counted { job, done } = self;
        let out = job.run(rt);
        done.fetch_add(1, Ordering::SeqCst);
        out
    }
}
