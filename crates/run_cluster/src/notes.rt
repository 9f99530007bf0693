// What is left of a run.
ghost use Rattle.std.specs.Prelude.{◌≡◌, ◌≤◌, ◌+◌, ◌^◌, sum_by};

use node_link::Tally;
use race_board::Closed;
use task_ids::Items;

/// What is left of a node.
#[derive(Drop)]
pub struct NodeNote {
    /// The node, from 1.
    pub node: u32,
    /// What its board told when it closed.
    pub closed: Closed,
    /// What was sent into the inbox of its control worker, and taken out of it.
    pub control: Tally,
    /// The same of the inbox of each of its data workers, worker 0 first.
    pub datas: Items<Tally>,
}

impl NodeNote {
    /// How many tasks still had a ticket when the board closed.
    pub fn live(&self) -> u32
        ensures { result ≡ self.now.closed.live }
    {
        self.closed.live()
    }

    /// How many bans still stood when the board closed.
    pub fn bans(&self) -> u32
        ensures { result ≡ self.now.closed.bans }
    {
        self.closed.bans()
    }

    /// How many letters were sent into the inboxes of its workers, which may be more than 64 bits hold.
    pub fn sent(&self) -> u128
        ensures { result ≡ self.now.control.sent + sum_by (λ told. told.sent) self.now.datas }
    {
        self.control.sent as u128 + sent_in(self.datas.as_slice())
    }

    /// How many letters were taken out of them.
    pub fn taken(&self) -> u128
        ensures { result ≡ self.now.control.taken + sum_by (λ told. told.taken) self.now.datas }
    {
        self.control.taken as u128 + taken_in(self.datas.as_slice())
    }
}

// How many letters were sent into these inboxes.
fn sent_in(inboxes: &[Tally]) -> u128
    ensures sum { result ≡ sum_by (λ told. told.sent) inboxes.now }
    ensures most { result ≤ 2 ^ 127 }
{
    let mut all = 0u128;
    for told in inboxes {
        all += told.sent as u128;
    }
    all
}

// How many letters were taken out of these inboxes.
fn taken_in(inboxes: &[Tally]) -> u128
    ensures sum { result ≡ sum_by (λ told. told.taken) inboxes.now }
    ensures most { result ≤ 2 ^ 127 }
{
    let mut all = 0u128;
    for told in inboxes {
        all += told.taken as u128;
    }
    all
}

/// What is left of a run whose workers all drained.
#[derive(Drop)]
pub struct RunNotes {
    /// For each node, from 1 on.
    pub nodes: Vec<NodeNote>,
    /// What was sent into the driver's inbox, and taken out of it.
    pub driver: Tally,
}
