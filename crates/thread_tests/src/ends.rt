//! The ends of the inboxes of a cluster of one node.
use node_link::{Body, Letter, Receiver, Sender, inbox};
use run_facts::Of;
use std::alloc::{AllocError, Global};
use std::sync::Wait;
use task_ids::AnyCancel;

/// The name of the run.
pub(crate) type Name = Of<AnyCancel>;

/// A letter of the run.
pub(crate) type Note = Letter<Name>;

/// What the driver has.
#[derive(Drop)]
pub(crate) struct DriverEnds {
    /// Into the inbox of the control worker.
    pub(crate) control: Sender<Note>,
    /// Its own.
    pub(crate) inbox: Receiver<Note>,
    /// That of the data worker, which does not run.
    pub(crate) data: Receiver<Note>,
}

/// What the control worker has.
#[derive(Drop)]
pub(crate) struct ControlEnds {
    /// Its own inbox.
    pub(crate) inbox: Receiver<Note>,
    /// Into its own inbox, that of the data worker, and that of the driver.
    pub(crate) senders: Vec<Sender<Note>>,
}

/// New inboxes, each with room for 16 letters.
pub(crate) fn new_ends(alloc: Global) -> Result<(DriverEnds, ControlEnds), AllocError> {
    let (mut to_control, of_control) = inbox::<Note>(alloc, 16, 2)?;
    let (mut to_data, of_data) = inbox::<Note>(alloc, 16, 1)?;
    let (mut to_driver, of_driver) = inbox::<Note>(alloc, 16, 1)?;
    let control = to_control.pop().ok_or(AllocError)?;
    let itself = to_control.pop().ok_or(AllocError)?;
    let data = to_data.pop().ok_or(AllocError)?;
    let driver = to_driver.pop().ok_or(AllocError)?;
    let senders = vec![in alloc; itself, data, driver]?;
    Ok((
        DriverEnds {
            control,
            inbox: of_driver,
            data: of_data,
        },
        ControlEnds {
            inbox: of_control,
            senders,
        },
    ))
}

impl DriverEnds {
    /// Sends a letter to the control worker, and says whether there was room.
    pub(crate) fn tell<R: Wait>(&mut self, rt: &R, letter: Note) -> bool {
        self.control.send(rt, letter).is_ok()
    }

    /// Waits for a letter from the control worker, and takes what it says.
    pub(crate) fn hear<R: Wait>(&mut self, rt: &R) -> Body {
        self.inbox.take(rt).into_body()
    }

    /// Whether no letter is left, here and in the inbox of the data worker.
    pub(crate) fn has_heard_all<R: Wait>(&mut self, rt: &R) -> bool {
        self.inbox.try_take(rt).is_none() && self.data.try_take(rt).is_none()
    }
}
