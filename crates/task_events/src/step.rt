use crate::reply::Reply;
use crate::request::Request;

/// What a task does next.
#[derive(Drop)]
pub enum Do {
    /// It asks for a child.
    AskNext(Request),
    /// It takes a turn of work.
    Turn,
    /// It waits, for an answer or for the moment that is given, in milliseconds.
    Wait(Option<u64>),
    /// It ends with this reply.
    Finish(Reply),
}

/// An ask of a task, and its answer once it has come.
#[derive(Drop)]
pub struct Asked {
    /// The number of the ask, from 1.
    pub ask: u32,
    pub answer: Option<Reply>,
}
