//! The driver sends letters and hears what comes.
ghost use Rattle.std.specs.Prelude.{◌≡◌, ◌+◌, ◌<◌, ◌≤◌, ℕ, length, vec_len, OnOk, IfOk, IfErr};
ghost use Rattle.run_facts.specs.Cancels.{cancels_of};
ghost use Rattle.line_print.specs.RunLines.{IsPrintable};
ghost use Rattle.node_link.specs.Inbox.{IsSame};
ghost use Rattle.run_inboxes.specs.Ends.{SameEnds};
ghost use Rattle.run_inboxes.specs.Pairs.{Pairwise};
ghost use Rattle.run_book.specs.Entries.{Keeps, SameRun, is_known_to};
ghost use Rattle.run_book.specs.Notes.{IsNoteAt};
ghost use Rattle.run_driver.specs.Causes.{IsCauseAt};

use node_link::{Back, Letter, Sender};
use run_book::{Book, LineNote};
use run_facts::{Of, Post, Run};
use run_inboxes::Ends;
use std::sync::Wait;
use std::thread;
use task_events::Stop;

/// The letters of a run.
pub(crate) type Note<W> = Letter<Of<W>>;

/// Takes a letter, if there is one, and tells the book. Where there is none another thread goes on.
#[tactic(auto, using(run_inboxes::proofs::Same::same_ends, run_inboxes::proofs::Same::took, crate::proofs::Causes::heard))]
fn hear_some<W: Run, R: Wait>(
    rt: &R,
    ends: &mut Ends<Note<W>>,
    book: &mut Book<'_, W>,
) -> Result<(), Stop>
    requires keeps { Keeps W.cancels W.setting book.old }
    ensures keeps { OnOk result (Keeps W.cancels W.setting book.new) }
    ensures run { SameRun book.old book.new }
    ensures begun { length book.new.entries.items ≡ length book.old.entries.items }
    ensures ends { SameEnds ends.old ends.new }
    ensures fails { IfErr result (IsCauseAt ends.new.inbox) }
{
    match ends.inbox.try_take(rt) {
        Some(letter) => book.hear(letter),
        None => {
            thread::yield_now();
            Ok(())
        }
    }
}

/// Waits for a letter, and tells the book.
#[tactic(auto, using(crate::proofs::Causes::heard))]
fn hear_next<W: Run, R: Wait>(
    rt: &R,
    ends: &mut Ends<Note<W>>,
    book: &mut Book<'_, W>,
) -> Result<(), Stop>
    requires keeps { Keeps W.cancels W.setting book.old }
    ensures keeps { OnOk result (Keeps W.cancels W.setting book.new) }
    ensures run { SameRun book.old book.new }
    ensures begun { length book.new.entries.items ≡ length book.old.entries.items }
    ensures ends { SameEnds ends.old ends.new }
    ensures fails { IfErr result (IsCauseAt ends.new.inbox) }
{
    let letter = ends.inbox.take(rt);
    book.hear(letter)
}

/// Sends a letter by the sender at this place, or hands it back. Where there is no such sender the letter is lost.
#[tactic(auto, using(run_inboxes::proofs::Same::same_ends, run_inboxes::proofs::Same::sent))]
fn try_send<W: Run, R: Wait>(
    rt: &R,
    ends: &mut Ends<Note<W>>,
    place: usize,
    letter: Note<W>,
) -> Result<(), Back<Note<W>>>
    ensures ends { SameEnds ends.old ends.new }
{
    if place >= ends.senders.len() {
        return Ok(());
    }
    send_by(rt, &mut ends.senders, place, letter)
}

/// Sends a letter by the sender at this place, or hands it back.
fn send_by<W: Run, R: Wait>(
    rt: &R,
    senders: &mut Vec<Sender<Note<W>>>,
    place: usize,
    letter: Note<W>,
) -> Result<(), Back<Note<W>>>
    requires { place < vec_len senders.old }
    ensures { Pairwise IsSame senders.old.items senders.new.items }
{
    let sender = &mut senders[place];
    sender.send(rt, letter)
}

/// Sends a letter by the sender at this place, and goes on taking letters while the inbox is full.
#[tactic(auto, using(run_inboxes::proofs::Same::same_ends, run_inboxes::proofs::Same::ends_on, run_book::proofs::Keeping::same_run))]
fn send_at<W: Run, R: Wait>(
    rt: &R,
    ends: &mut Ends<Note<W>>,
    book: &mut Book<'_, W>,
    place: usize,
    letter: Note<W>,
) -> Result<(), Stop>
    requires keeps { Keeps W.cancels W.setting book.old }
    ensures keeps { OnOk result (Keeps W.cancels W.setting book.new) }
    ensures run { SameRun book.old book.new }
    ensures begun { length book.new.entries.items ≡ length book.old.entries.items }
    ensures ends { SameEnds ends.old ends.new }
    ensures fails { IfErr result (IsCauseAt ends.new.inbox) }
{
    let mut left = letter;
    for _ in rt.forever() {
        match try_send(rt, ends, place, left) {
            Ok(()) => return Ok(()),
            Err(Back(letter)) => left = letter,
        }
        hear_some(rt, ends, book)?;
    }
    unreachable!()
}

/// Sends a letter to whom it is for.
#[tactic(auto, using(run_inboxes::proofs::Same::same_ends, run_inboxes::proofs::Same::ends_on, run_book::proofs::Keeping::same_run))]
fn send<W: Run, R: Wait>(
    rt: &R,
    ends: &mut Ends<Note<W>>,
    book: &mut Book<'_, W>,
    post: Post<Note<W>>,
) -> Result<(), Stop>
    requires keeps { Keeps W.cancels W.setting book.old }
    ensures keeps { OnOk result (Keeps W.cancels W.setting book.new) }
    ensures run { SameRun book.old book.new }
    ensures begun { length book.new.entries.items ≡ length book.old.entries.items }
    ensures ends { SameEnds ends.old ends.new }
    ensures fails { IfErr result (IsCauseAt ends.new.inbox) }
{
    let Post { to, letter } = post;
    match book.inbox_of(to) {
        Some(place) => send_at(rt, ends, book, place as usize, letter),
        None => Ok(()),
    }
}

/// Sends letters, in order.
#[tactic(auto, using(run_inboxes::proofs::Same::same_ends, run_inboxes::proofs::Same::ends_on, run_book::proofs::Keeping::same_run))]
pub(crate) fn send_all<W: Run, R: Wait>(
    rt: &R,
    ends: &mut Ends<Note<W>>,
    book: &mut Book<'_, W>,
    posts: Vec<Post<Note<W>>>,
) -> Result<(), Stop>
    requires keeps { Keeps W.cancels W.setting book.old }
    ensures keeps { OnOk result (Keeps W.cancels W.setting book.new) }
    ensures run { SameRun book.old book.new }
    ensures begun { length book.new.entries.items ≡ length book.old.entries.items }
    ensures ends { SameEnds ends.old ends.new }
    ensures fails { IfErr result (IsCauseAt ends.new.inbox) }
{
    for post in posts {
        send(rt, ends, book, post)?;
    }
    Ok(())
}

/// Waits until a command has its answer.
#[tactic(auto, using(run_inboxes::proofs::Same::same_ends, run_inboxes::proofs::Same::ends_on, run_book::proofs::Keeping::same_run))]
pub(crate) fn wait_for_answer<W: Run, R: Wait>(
    rt: &R,
    ends: &mut Ends<Note<W>>,
    book: &mut Book<'_, W>,
    command: u32,
) -> Result<(), Stop>
    requires keeps { Keeps W.cancels W.setting book.old }
    ensures keeps { OnOk result (Keeps W.cancels W.setting book.new) }
    ensures run { SameRun book.old book.new }
    ensures begun { length book.new.entries.items ≡ length book.old.entries.items }
    ensures ends { SameEnds ends.old ends.new }
    ensures fails { IfErr result (IsCauseAt ends.new.inbox) }
{
    for _ in rt.forever() {
        if book.is_answered(command) {
            return Ok(());
        }
        hear_next(rt, ends, book)?;
    }
    unreachable!()
}

/// Waits until it is known which task a command started, or that it started none.
#[tactic(auto, using(run_inboxes::proofs::Same::same_ends, run_inboxes::proofs::Same::ends_on, run_book::proofs::Keeping::same_run))]
pub(crate) fn wait_for_root<W: Run, R: Wait>(
    rt: &R,
    ends: &mut Ends<Note<W>>,
    book: &mut Book<'_, W>,
    command: u32,
) -> Result<(), Stop>
    requires keeps { Keeps W.cancels W.setting book.old }
    ensures keeps { OnOk result (Keeps W.cancels W.setting book.new) }
    ensures run { SameRun book.old book.new }
    ensures begun { length book.new.entries.items ≡ length book.old.entries.items }
    ensures ends { SameEnds ends.old ends.new }
    ensures fails { IfErr result (IsCauseAt ends.new.inbox) }
{
    for _ in rt.forever() {
        if book.knows_root(command) {
            return Ok(());
        }
        hear_next(rt, ends, book)?;
    }
    unreachable!()
}

/// Waits for the answers of the searches and scrolls that open or use a context.
#[tactic(auto, using(run_inboxes::proofs::Same::same_ends, run_inboxes::proofs::Same::ends_on, run_book::proofs::Keeping::same_run))]
pub(crate) fn wait_for_pages<W: Run, R: Wait>(
    rt: &R,
    ends: &mut Ends<Note<W>>,
    book: &mut Book<'_, W>,
) -> Result<(), Stop>
    requires keeps { Keeps W.cancels W.setting book.old }
    ensures keeps { OnOk result (Keeps W.cancels W.setting book.new) }
    ensures run { SameRun book.old book.new }
    ensures begun { length book.new.entries.items ≡ length book.old.entries.items }
    ensures ends { SameEnds ends.old ends.new }
    ensures fails { IfErr result (IsCauseAt ends.new.inbox) }
{
    for command in book.take_paging() {
        wait_for_answer(rt, ends, book, command)?;
    }
    Ok(())
}

/// Waits until a command has its answer, and takes it.
#[tactic(auto, using(run_inboxes::proofs::Same::same_ends, run_inboxes::proofs::Same::ends_on, run_book::proofs::Keeping::same_run))]
pub(crate) fn answer_of<W: Run, R: Wait>(
    rt: &R,
    ends: &mut Ends<Note<W>>,
    book: &mut Book<'_, W>,
    command: u32,
) -> Result<LineNote, Stop>
    requires keeps { Keeps W.cancels W.setting book.old }
    requires number { 1 ≤ command }
    ensures keeps { OnOk result (Keeps W.cancels W.setting book.new) }
    ensures run { SameRun book.old book.new }
    ensures begun { length book.new.entries.items ≡ length book.old.entries.items }
    ensures ends { SameEnds ends.old ends.new }
    ensures fails { IfErr result (IsCauseAt ends.new.inbox) }
    ensures printable { IfOk result (λ note. IsPrintable note.reply) }
    ensures note { IfOk result (λ note. (place : ℕ) → place + 1 ≡ command → IsNoteAt (cancels_of W.cancels) W.setting (is_known_to book.old) book.old.script.now place note) }
{
    for _ in rt.forever() {
        if let Some(note) = book.take_note(command) {
            return Ok(note);
        }
        hear_next(rt, ends, book)?;
    }
    unreachable!()
}
