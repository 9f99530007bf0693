//! Drivers.
ghost use Rattle.std.specs.Prelude.{◌<◌, ◌≤◌, vec_len};
ghost use Rattle.task_ids.specs.Limits.{IsNode};
ghost use Rattle.node_link.specs.Inbox.{IsSame};
ghost use Rattle.run_facts.specs.Inboxes.{IsPoolSize};
ghost use Rattle.run_inboxes.specs.Ends.{SameEnds};
ghost use Rattle.run_inboxes.specs.Pairs.{Pairwise};

use node_link::{Back, Body, Letter, Place, Sender, Start};
use query_match::{Query, SearchBody};
use run_cluster::{Drive, Ends};
use run_facts::{Of, Run, To, inbox_of};
use shared_value::Shared;
use std::alloc::Global;
use std::sync::Wait;
use std::thread;
use task_events::{Reply, Request, SearchAsk, Stop};
use task_ids::{Action, Headers, Text};

/// The documents of the index `a`.
pub const DOCS: &str =
    "{\"index\":{\"_index\":\"a\",\"_id\":\"1\"}}\n{\"n\":1}\n{\"index\":{\"_index\":\"a\",\"_id\":\"2\"}}\n{\"n\":2}\n{\"index\":{\"_index\":\"a\",\"_id\":\"3\"}}\n{\"n\":3}\n{\"index\":{\"_index\":\"a\",\"_id\":\"4\"}}\n{\"n\":4}\n{\"index\":{\"_index\":\"a\",\"_id\":\"5\"}}\n{\"n\":5}\n";

/// The run of these tests, over these documents in five shards. It has each cancellation. Nothing else is known of it.
pub struct Plays;

impl Run for Plays {
    ghost use Rattle.std.specs.Str.Lines.{lines};
    ghost use Rattle.shard_docs.specs.Corpus.{corpus_of};
    ghost use Rattle.reply_facts.specs.Settings.{only};
    ghost use Rattle.run_cluster_tests.specs.Docs.{docs_in};
    ghost use Rattle.run_cluster_tests.specs.declared.drivers.TheConstants.{DOCS};

    ghost cancels = { λ _. Unit {0} };

    ghost setting = { only (docs_in (corpus_of (lines DOCS.now))) 5 };
}

/// Its name.
pub type Name = Of<Plays>;

/// Its letters.
pub type Note = Letter<Name>;

/// It has nothing to ask.
#[derive(Drop)]
pub struct Silent;

impl Drive<Name> for Silent {
    ghost done = { λ _ _. Unit {0} };

    #[tactic(auto, using(run_inboxes::proofs::Same::same_ends))]
    fn drive<R: Wait>(&mut self, rt: &R, ends: &mut Ends<Note>) -> Result<(), Stop> {
        let _ = rt;
        let _ = ends;
        Ok(())
    }
}

/// It gives up at once.
#[derive(Drop)]
pub struct GivesUp;

impl Drive<Name> for GivesUp {
    ghost done = { λ _ _. Unit {0} };

    #[tactic(auto, using(run_inboxes::proofs::Same::same_ends))]
    fn drive<R: Wait>(&mut self, rt: &R, ends: &mut Ends<Note>) -> Result<(), Stop> {
        let _ = rt;
        let _ = ends;
        Err(Stop::NumbersSpent)
    }
}

/// It starts searches on all nodes in turn, as fast as they go out, and waits for the answers.
#[derive(Drop)]
pub struct Searches {
    pub alloc: Global,
    pub nodes: u32,
    /// How many data workers each node has.
    pub workers: u32,
    /// How many searches it starts.
    pub count: u32,
    /// How many documents each of them found, added up.
    pub found: u64,
    /// How many were answered.
    pub answered: u32,
    pub ghost nodes_in_range: { IsNode nodes },
    pub ghost pool_size: { IsPoolSize workers },
    pub ghost few: { count ≤ 65535 },
}

// A search of the whole index `a`.
fn ask(alloc: Global) -> Option<SearchAsk> {
    let body = SearchBody {
        query: Query::all(alloc).ok()?,
        sort: query_match::Items::new(alloc),
        from: 0,
        size: 10,
    };
    let index = Text::new(String::from_str(alloc, "a").ok()?);
    Some(SearchAsk {
        index: Shared::new(alloc, index).ok()?,
        body: Shared::new(alloc, body).ok()?,
        scroll: None,
        slice: None,
        owner: None,
    })
}

// The letter that starts a search as the root of a command.
fn search(alloc: Global, command: u32) -> Option<Note>
    requires command { (1 ≤ command) × (command ≤ 65535) }
{
    let ask = Shared::new(alloc, ask(alloc)?).ok()?;
    let place = Place {
        command,
        search: command,
        slice: 0,
        action: Action::Search,
        shard: 0,
    };
    Some(Letter::new(Body::Start(Start {
        place,
        request: Request::Search(ask),
        headers: Headers::none(),
        page: None,
    })))
}

// Sends a letter by the sender at that place, or hands it back.
fn send_at<R: Wait>(
    rt: &R,
    senders: &mut Vec<Sender<Note>>,
    to: usize,
    letter: Note,
) -> Result<(), Back<Note>>
    requires { to < vec_len senders.old }
    ensures { Pairwise IsSame senders.old.items senders.new.items }
{
    let sender = &mut senders[to];
    sender.send(rt, letter)
}

// The same. Where there is no such sender the letter is lost.
#[tactic(auto, using(run_inboxes::proofs::Same::same_ends, run_inboxes::proofs::Same::sent))]
fn send<R: Wait>(rt: &R, ends: &mut Ends<Note>, to: usize, letter: Note) -> Result<(), Back<Note>>
    ensures { SameEnds ends.old ends.new }
{
    if to >= ends.senders.len() {
        return Ok(());
    }
    send_at(rt, &mut ends.senders, to, letter)
}

impl Searches {
    // Takes in what a letter says.
    fn take_in(&mut self, body: &Body) -> Result<(), Stop> {
        match body {
            Body::RootAnswer(answer) => {
                self.answered = self.answered.saturating_add(1);
                if let Reply::Search(reply) = &answer.reply {
                    self.found = self.found.saturating_add(reply.get().total);
                }
                Ok(())
            }
            Body::Stopped(stop) => Err(*stop),
            _ => Ok(()),
        }
    }

    // Waits for a letter, and takes it in.
    #[tactic(auto, using(run_inboxes::proofs::Same::took))]
    fn hear<R: Wait>(&mut self, rt: &R, ends: &mut Ends<Note>) -> Result<(), Stop>
        ensures { SameEnds ends.old ends.new }
    {
        let letter = ends.inbox.take(rt);
        self.take_in(letter.body())
    }

    // Takes in the next letter, if there is one. Where there is none another thread goes first.
    #[tactic(auto, using(run_inboxes::proofs::Same::same_ends, run_inboxes::proofs::Same::took))]
    fn hear_some<R: Wait>(&mut self, rt: &R, ends: &mut Ends<Note>) -> Result<(), Stop>
        ensures { SameEnds ends.old ends.new }
    {
        match ends.inbox.try_take(rt) {
            Some(letter) => self.take_in(letter.body()),
            None => {
                thread::yield_now();
                Ok(())
            }
        }
    }

    // Sends a letter, and goes on taking letters while there is no room for it.
    #[tactic(auto, using(run_inboxes::proofs::Same::same_ends, run_inboxes::proofs::Same::ends_on))]
    fn send_in_time<R: Wait>(
        &mut self,
        rt: &R,
        ends: &mut Ends<Note>,
        to: usize,
        letter: Note,
    ) -> Result<(), Stop>
        ensures { SameEnds ends.old ends.new }
    {
        let mut left = letter;
        for _ in rt.forever() {
            match send(rt, ends, to, left) {
                Ok(()) => return Ok(()),
                Err(Back(letter)) => left = letter,
            }
            self.hear_some(rt, ends)?;
        }
        unreachable!()
    }

    // Starts the search of a command.
    #[tactic(auto, using(run_inboxes::proofs::Same::same_ends))]
    fn start_one<R: Wait>(
        &mut self,
        rt: &R,
        ends: &mut Ends<Note>,
        command: u32,
    ) -> Result<(), Stop>
        requires command { (1 ≤ command) × (command ≤ 65535) }
        ensures { SameEnds ends.old ends.new }
    {
        let Some(letter) = search(self.alloc, command) else {
            return Err(Stop::Memory);
        };
        let to = To::Data {
            node: command % self.nodes + 1,
            worker: 0,
        };
        match inbox_of(self.nodes, self.workers, to) {
            Some(to) => self.send_in_time(rt, ends, to as usize, letter),
            None => Ok(()),
        }
    }

    // Starts all of them, and waits for none.
    #[tactic(auto, using(run_inboxes::proofs::Same::same_ends, run_inboxes::proofs::Same::ends_on))]
    fn start_all<R: Wait>(&mut self, rt: &R, ends: &mut Ends<Note>) -> Result<(), Stop>
        ensures { SameEnds ends.old ends.new }
    {
        for before in 0..self.count {
            self.start_one(rt, ends, before + 1)?;
        }
        Ok(())
    }

    // Waits until each of them has its answer.
    #[tactic(auto, using(run_inboxes::proofs::Same::same_ends, run_inboxes::proofs::Same::ends_on))]
    fn hear_all<R: Wait>(&mut self, rt: &R, ends: &mut Ends<Note>) -> Result<(), Stop>
        ensures { SameEnds ends.old ends.new }
    {
        for _ in rt.forever() {
            if self.answered >= self.count {
                return Ok(());
            }
            self.hear(rt, ends)?;
        }
        unreachable!()
    }
}

impl Drive<Name> for Searches {
    ghost done = { λ _ _. Unit {0} };

    #[tactic(auto, using(run_inboxes::proofs::Same::ends_on))]
    fn drive<R: Wait>(&mut self, rt: &R, ends: &mut Ends<Note>) -> Result<(), Stop> {
        self.start_all(rt, ends)?;
        self.hear_all(rt, ends)?;
        Ok(())
    }
}
