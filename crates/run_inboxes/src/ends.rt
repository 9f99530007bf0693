// The ends that one of a cluster has.
use node_link::{Receiver, Sender};

/// The ends of inboxes that one worker, or the driver, has.
#[derive(Drop)]
pub struct Ends<L: Drop> {
    /// Its own inbox.
    pub inbox: Receiver<L>,
    /// For each inbox of the cluster a sender that leads to it, by the numbers of the inboxes.
    pub senders: Vec<Sender<L>>,
}
