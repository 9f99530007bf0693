// Letters with their addresses.

/// A letter, and the number of the inbox that it is for.
#[derive(Drop)]
pub struct Post<L> {
    /// Inboxes are numbered as a worker's senders, which lead to them, from 0.
    pub to: u32,
    pub letter: L,
}
