ghost use Rattle.std.specs.Prelude.{◌≡◌, ◌+◌, ◌^◌, ◌<◌, ◌↔◌, ℕ, length, IsOk, IsTrue, IsErrOf, IfOk, IfErr, OnOk, OnErr, Some, ◌==◌};
ghost use Rattle.task_ids.specs.Limits.{IsNode, IsCancel};
ghost use Rattle.child_track.specs.NodeSet.{has_node};

use crate::nodes::NodeSet;
use crate::receipt::{Receipt, Stranger};
use crate::token::AskToken;
use std::alloc::Global;
use std::marker::Model;
use task_ids::TaskId;

/// What a task remembers of its asks: which are unanswered, on which nodes, and whether it may still ask.
///
/// An ask takes two bytes for as long as the track stands, and finds its place by its number.
#[derive(Drop)]
pub struct ChildTrack {
    task: TaskId,
    /// Of each ask in order, the node that is still to answer it.
    asks: Vec<Option<u8>>,
    /// How many unanswered asks each node has.
    waiting: [u32; 16],
    /// How many asks are unanswered.
    unanswered: u32,
    closed: Option<u32>,
}

/// Why a task may not ask.
#[derive(Clone, Copy, Debug, PartialEq, Eq)]
pub enum AskError {
    /// The track was closed, first by this cancellation.
    Closed { cancel: u32 },
    /// There is no memory for one more ask.
    Memory,
}

impl Model for ChildTrack {
    ghost use Rattle.child_track.specs.Track.{Track};

    ghost Value = { Track };

    ghost use Rattle.child_track.specs.TrackFields.{CountsAreRight};

    ghost view = { λ a. record { task = a.task; asks = a.asks.items; closed = a.closed } };

    ghost invariant = { λ a. CountsAreRight a.asks.items a.waiting a.unanswered };
}

impl ChildTrack {
    ghost use Rattle.child_track.specs.Track.{new_track, Answers, with_ask, with_answer, with_close, unanswered, is_awaited, sealed};

    /// The track of a task that has asked for nothing yet. It takes no memory.
    pub fn new(alloc: Global, task: TaskId) -> ChildTrack
        ensures { result ≡ new_track task }
    {
        ChildTrack {
            task,
            asks: Vec::new(alloc),
            waiting: [0; 16],
            unanswered: 0,
            closed: None,
        }
    }

    /// Notes one ask of a child on the node, and gives the token that its request carries. Asks are numbered from 1.
    ///
    /// Where the track is closed, or memory runs out, nothing has changed.
    pub fn ask(&mut self, to: u32) -> Result<AskToken, AskError>
        requires node { IsNode to }
        requires room { length self.old.asks + 1 < 2 ^ 32 }
        ensures token { IfOk result (λ token. token ≡ record { parent = self.old.task; ask = length self.old.asks + 1 }) }
        ensures asked { OnOk result (self.new ≡ with_ask self.old to) }
        ensures closed { (cancel : ℕ) → IsErrOf result (AskError.Closed cancel) ↔ (self.old.closed ≡ Some cancel) }
        ensures err { OnErr result (self.new ≡ self.old) }
    {
        if let Some(cancel) = self.closed {
            return Err(AskError::Closed { cancel });
        }
        let number = self.asks.len() as u32 + 1;
        if self.asks.push(Some(to as u8)).is_err() {
            return Err(AskError::Memory);
        }
        self.waiting[to as usize] += 1;
        self.unanswered += 1;
        Ok(AskToken::new(self.task, number))
    }

    /// Whether a receipt is that of a child that this task asked for.
    fn is_parent_in(&self, receipt: &Receipt) -> bool
        ensures { IsTrue result ↔ (receipt.now.parent ≡ Some self.now.task) }
    {
        match receipt.parent() {
            Some(parent) => parent == self.task,
            None => false,
        }
    }

    /// Whether a receipt answers an ask that is still unanswered, so that `answer` takes it in. It changes nothing, so a worker
    /// that was sent a strange letter passes over it.
    pub fn awaits(&self, receipt: &Receipt) -> bool
        ensures fits { IsTrue result ↔ Answers receipt.now self.now }
    {
        let ask = receipt.ask();
        if !self.is_parent_in(receipt) || ask == 0 {
            return false;
        }
        let place = (ask - 1) as usize;
        matches!(self.asks.get(place), Some(Some(_)))
    }

    /// Takes a receipt in: its ask is answered. It is a stranger exactly where its parent is another task, or its
    /// ask is not unanswered; then nothing has changed.
    pub fn answer(&mut self, receipt: Receipt) -> Result<(), Stranger>
        ensures taken { IsOk result ↔ Answers receipt self.old }
        ensures answered { OnOk result (self.new ≡ with_answer self.old receipt.ask) }
        ensures given_back { IfErr result (λ stranger. stranger.0 ≡ receipt) }
        ensures err { OnErr result (self.new ≡ self.old) }
    {
        let ask = receipt.ask();
        if !self.is_parent_in(&receipt) || ask == 0 {
            return Err(Stranger(receipt));
        }
        let place = (ask - 1) as usize;
        let Some(Some(node)) = self.asks.get(place).copied() else {
            return Err(Stranger(receipt));
        };
        self.asks[place] = None;
        self.waiting[node as usize] -= 1;
        self.unanswered -= 1;
        Ok(())
    }

    /// Closes the track to further asks, and gives the nodes with unanswered asks. Where it was closed before, the
    /// first number stays.
    pub fn close(&mut self, cancel: u32) -> NodeSet
        requires { IsCancel cancel }
        ensures closed { self.new ≡ with_close self.old cancel }
        ensures nodes { (node : ℕ) → has_node result node ≡ is_awaited self.old node }
    {
        if self.closed.is_none() {
            self.closed = Some(cancel);
        }
        self.nodes()
    }

    /// The number of the cancellation that closed the track first. There is none exactly where it is open.
    pub fn closed(&self) -> Option<u32>
        ensures number { result ≡ self.now.closed }
    {
        self.closed
    }

    /// How many asks are unanswered.
    pub fn unanswered(&self) -> u64
        ensures { result ≡ unanswered self.now }
    {
        u64::from(self.unanswered)
    }

    /// The nodes with unanswered asks.
    pub fn nodes(&self) -> NodeSet
        ensures { (node : ℕ) → has_node result node ≡ is_awaited self.now node }
    {
        let mut nodes = NodeSet(0);
        for node in 1..16 {
            let is_awaited = self.waiting[node as usize] > 0;
            if is_awaited {
                nodes = nodes.with(node);
            }
        }
        nodes
    }

    /// Spends the track of a task that ends, and gives its receipt for the ask of the token; a root has no token.
    pub fn seal(self, token: Option<AskToken>) -> Receipt
        requires { unanswered self ≡ 0 }
        ensures { result ≡ sealed self token }
    {
        let (parent, ask) = match token {
            Some(token) => token.into_parts(),
            None => (None, 0),
        };
        Receipt::new(Some(self.task), parent, ask)
    }
}
