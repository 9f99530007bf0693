// What an event's text says.

use task_ids::TaskId;

/// The greatest number of a node.
pub const MAX_NODE: u32 = 15;

/// How a task ended that was not refused.
#[derive(Clone, Copy, PartialEq, Eq)]
pub enum Ending {
    Done,
    Failed,
    Cancelled,
}

/// An event of a history: what the picture has to know of it. Nodes are numbers from 1, commands and asks are numbers too.
#[derive(Clone, Copy)]
pub enum Event {
    Root {
        command: u32,
        task: TaskId,
    },
    RootRejected {
        command: u32,
        node: u32,
    },
    Ask {
        parent: TaskId,
        ask: u32,
        to: u32,
    },
    Put {
        task: TaskId,
        parent: TaskId,
        ask: u32,
    },
    Reject {
        node: u32,
        parent: TaskId,
        ask: u32,
    },
    Pass {
        task: TaskId,
    },
    Refuse {
        task: TaskId,
    },
    Cancel {
        cancel: u32,
        task: TaskId,
    },
    NotFound {
        cancel: u32,
    },
    Mark {
        task: TaskId,
    },
    BanPut {
        node: u32,
        parent: TaskId,
    },
    Listed {
        node: u32,
        parent: TaskId,
    },
    Acked {
        parent: TaskId,
        from: u32,
    },
    BanGone {
        node: u32,
        parent: TaskId,
    },
    Work {
        task: TaskId,
    },
    Write,
    Answered {
        parent: TaskId,
        ask: u32,
    },
    End {
        task: TaskId,
        how: Ending,
    },
    AnswerPlaced {
        cancel: u32,
    },
    AnswerDone {
        cancel: u32,
    },
    Tick,
}

impl Event {
    /// The event that a text tells, if it is the text of an event.
    pub fn parse(text: &str) -> Option<Event> {
        let (name, rest) = text.split_once(' ')?;
        match name {
            "root" | "root-rejected" | "cancel" | "not-found" | "placed" | "complete" | "tick" => {
                of_command(name, rest)
            }
            "ban" | "listed" | "unban" | "acked" => of_ban(name, rest),
            "ask" | "put" | "reject" | "answered" => of_ask(name, rest),
            _ => of_task(name, rest),
        }
    }

    /// Whether only a message that is delivered, a step of a task or a step of a listing begins with it. No history does.
    pub fn is_of_a_move(&self) -> bool {
        match self {
            Event::Root { .. }
            | Event::RootRejected { .. }
            | Event::Cancel { .. }
            | Event::NotFound { .. }
            | Event::AnswerPlaced { .. }
            | Event::AnswerDone { .. }
            | Event::Tick => false,
            Event::Ask { .. }
            | Event::Put { .. }
            | Event::Reject { .. }
            | Event::Pass { .. }
            | Event::Refuse { .. }
            | Event::Mark { .. }
            | Event::BanPut { .. }
            | Event::Listed { .. }
            | Event::Acked { .. }
            | Event::BanGone { .. }
            | Event::Work { .. }
            | Event::Write
            | Event::Answered { .. }
            | Event::End { .. } => true,
        }
    }
}

/// The events whose texts begin with the number of a command.
fn of_command(name: &str, rest: &str) -> Option<Event> {
    match name {
        "root" => of_root(rest),
        "root-rejected" => of_rejected_root(rest),
        "cancel" => of_cancel(rest),
        "not-found" => Some(Event::NotFound {
            cancel: number(rest)?,
        }),
        "placed" => Some(Event::AnswerPlaced {
            cancel: number(rest)?,
        }),
        "complete" => Some(Event::AnswerDone {
            cancel: number(rest)?,
        }),
        "tick" if is_plain_number(rest) => Some(Event::Tick),
        _ => None,
    }
}

fn of_root(rest: &str) -> Option<Event> {
    let (command, task) = rest.split_once(' ')?;
    let command = number(command)?;
    let task = task_id(task)?;
    Some(Event::Root { command, task })
}

fn of_rejected_root(rest: &str) -> Option<Event> {
    let (command, place) = rest.split_once(' ')?;
    let command = number(command)?;
    let node = node(place)?;
    Some(Event::RootRejected { command, node })
}

fn of_cancel(rest: &str) -> Option<Event> {
    let (cancel, task) = rest.split_once(' ')?;
    let cancel = number(cancel)?;
    let task = task_id(task.strip_suffix(" wait").unwrap_or(task))?;
    Some(Event::Cancel { cancel, task })
}

/// The events of bans.
fn of_ban(name: &str, rest: &str) -> Option<Event> {
    let (first, second) = rest.split_once(' ')?;
    match name {
        "ban" => of_ban_put(first, second),
        "listed" => {
            let (node, parent) = node_and_task(first, second)?;
            Some(Event::Listed { node, parent })
        }
        "unban" => {
            let (node, parent) = node_and_task(first, second)?;
            Some(Event::BanGone { node, parent })
        }
        "acked" => {
            let (from, parent) = node_and_task(second, first)?;
            Some(Event::Acked { parent, from })
        }
        _ => None,
    }
}

fn of_ban_put(place: &str, rest: &str) -> Option<Event> {
    let (parent, cancel) = rest.split_once(' ')?;
    number(cancel)?;
    let (node, parent) = node_and_task(place, parent)?;
    Some(Event::BanPut { node, parent })
}

/// A node and a task, of the words that name them.
fn node_and_task(place: &str, task: &str) -> Option<(u32, TaskId)> {
    Some((node(place)?, task_id(task)?))
}

/// A task and a number, of the words that name them.
fn task_and_number(task: &str, digits: &str) -> Option<(TaskId, u32)> {
    Some((task_id(task)?, number(digits)?))
}

/// The events of asks, requests and answers.
fn of_ask(name: &str, rest: &str) -> Option<Event> {
    let (first, others) = rest.split_once(' ')?;
    match name {
        "answered" => {
            let (parent, ask) = task_and_number(first, others)?;
            Some(Event::Answered { parent, ask })
        }
        "ask" => of_new_ask(first, others),
        "put" => of_put(first, others),
        "reject" => of_reject(first, others),
        _ => None,
    }
}

fn of_new_ask(parent: &str, rest: &str) -> Option<Event> {
    let (ask, to) = rest.split_once(' ')?;
    let (parent, ask) = task_and_number(parent, ask)?;
    let to = node(to)?;
    Some(Event::Ask { parent, ask, to })
}

fn of_put(task: &str, rest: &str) -> Option<Event> {
    let (parent, ask) = rest.split_once(' ')?;
    let task = task_id(task)?;
    let (parent, ask) = task_and_number(parent, ask)?;
    Some(Event::Put { task, parent, ask })
}

fn of_reject(place: &str, rest: &str) -> Option<Event> {
    let (parent, ask) = rest.split_once(' ')?;
    let node = node(place)?;
    let (parent, ask) = task_and_number(parent, ask)?;
    Some(Event::Reject { node, parent, ask })
}

/// The events of a task's own steps, its mark and its end.
fn of_task(name: &str, rest: &str) -> Option<Event> {
    if name == "write" {
        return of_write(rest);
    }
    let (first, others) = rest.split_once(' ').unwrap_or((rest, ""));
    let task = task_id(first)?;
    match name {
        "pass" if first == rest => Some(Event::Pass { task }),
        "work" if first == rest => Some(Event::Work { task }),
        "mark" if number(others).is_some() => Some(Event::Mark { task }),
        "refuse" if begins_with_number(others) => Some(Event::Refuse { task }),
        "end" => {
            let how = end_of(others)?;
            Some(Event::End { task, how })
        }
        _ => None,
    }
}

/// Whether a text is a number, a space and whatever follows.
fn begins_with_number(text: &str) -> bool {
    match text.split_once(' ') {
        Some((first, _)) => number(first).is_some(),
        None => false,
    }
}

/// The write of a document. The names of its index and of the document may hold spaces, so that its words are not told apart.
fn of_write(rest: &str) -> Option<Event> {
    if rest.contains(" created ") || rest.contains(" updated ") {
        Some(Event::Write)
    } else {
        None
    }
}

/// How a task ended.
fn end_of(text: &str) -> Option<Ending> {
    match text {
        "done" => Some(Ending::Done),
        "failed" => Some(Ending::Failed),
        _ => {
            number(text.strip_prefix("cancelled ")?)?;
            Some(Ending::Cancelled)
        }
    }
}

/// The task that an id names.
pub fn task_id(text: &str) -> Option<TaskId> {
    TaskId::parse(text).ok()?
}

/// The node that a name names, as `n2`.
fn node(text: &str) -> Option<u32> {
    let node = number(text.strip_prefix('n')?)?;
    if (1..=MAX_NODE).contains(&node) {
        Some(node)
    } else {
        None
    }
}

/// The number that a text writes.
fn number(text: &str) -> Option<u32> {
    if is_plain_number(text) {
        text.parse::<u32>().ok()
    } else {
        None
    }
}

/// Whether a text is one or more decimal digits.
fn is_plain_number(text: &str) -> bool {
    !text.is_empty() && text.bytes().all(|byte| byte.is_ascii_digit())
}
