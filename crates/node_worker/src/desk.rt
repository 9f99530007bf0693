// What a worker has while it works.
use crate::post::Post;
use node_link::{Letter, Receiver, RunName, Sender};
use std::collections::VecDeque;

// A worker with the ends of its inboxes, and the letters that wait until there is room for them, oldest first.
#[derive(Drop)]
pub(crate) struct Desk<N: RunName, T> {
    pub(crate) worker: T,
    pub(crate) inbox: Receiver<Letter<N>>,
    pub(crate) senders: Vec<Sender<Letter<N>>>,
    pub(crate) kept: VecDeque<Post<Letter<N>>>,
}
