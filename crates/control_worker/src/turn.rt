//! The turn of a control worker.
ghost use Rattle.std.specs.Prelude.{◌≡◌, All, IfOk, OnOk};
ghost use Rattle.node_link.specs.Lawful.{IsLawful};
ghost use Rattle.control_worker.specs.View.{view_of};
ghost use Rattle.control_worker.specs.Steps.{Makes, at};
ghost use Rattle.control_worker.specs.Turn.{Takes, Turned};
ghost use Rattle.control_worker.specs.Together.{Together};
ghost use Rattle.control_worker.specs.Lawful.{IsLawfulAct};

use crate::act::ControlAct;
use crate::bans::{take_ban, take_unban};
use crate::cancels::{take_ack, take_cancel, take_end};
use crate::control_core::{Ban, ControlCore};
use crate::gathers::take_part;
use cancel_core::Waiter;
use node_boards::ControlBoard;
use node_link::{Body, Letter, RunName};
use std::alloc::AllocError;

/// Takes in what a letter says. What is not for a control worker is passed over.
#[tactic(auto, using(crate::proofs::Making::makes_quietly_on, crate::proofs::Making::makes_nothing, crate::proofs::Belonging::together_stays))]
fn take_in<N: RunName, B: ControlBoard<N>>(
    core: &mut ControlCore,
    board: &mut B,
    body: Body,
    acts: &mut Vec<ControlAct>,
) -> Result<(), AllocError>
    requires together { Together (B.bans board.old) (B.slots board.old) N.allowed (view_of core.old) }
    requires lawful { IsLawful N.allowed body }
    ensures together { Together (B.bans board.new) (B.slots board.new) N.allowed (view_of core.new) }
    ensures did { OnOk result (Makes B.rests (Takes body) (at board.old core.old acts.old.items) (at board.new core.new acts.new.items)) }
{
    match body {
        Body::Ban { parent, cancel, to } => take_ban(core, board, Ban { parent, cancel }, to, acts),
        Body::Ack { parent, from } => take_ack(core, parent, from, acts),
        Body::Unban { parent, to } => take_unban(core, board, parent, to, acts),
        Body::Cancel { cancel, task, wait } => take_cancel(
            core,
            board,
            task,
            Waiter { cancel, wait },
            acts,
        ),
        Body::Matches {
            worker,
            cancel,
            rows,
            wait,
        } => take_part(core, board, worker, rows, Waiter { cancel, wait }, acts),
        Body::Ended { receipt } => take_end(core, receipt, acts),
        Body::Request(_)
        | Body::Answer(_)
        | Body::Start(_)
        | Body::CancelMatching { .. }
        | Body::List { .. }
        | Body::Tick { .. }
        | Body::Drain
        | Body::Leave
        | Body::Stop(_)
        | Body::DataLeft { .. }
        | Body::ControlLeft { .. }
        | Body::Root { .. }
        | Body::RootAnswer(_)
        | Body::Rows { .. }
        | Body::AnswerPlaced { .. }
        | Body::AnswerDone { .. }
        | Body::NotFound { .. }
        | Body::Named { .. }
        | Body::Stopped(_) => Ok(()),
    }
}

/// Takes in one letter, and gives the acts that are to be done, in their order.
///
/// A ban is put on the board and listed, and is acknowledged once each child that the listing handed over has ended or has
/// its own bans placed. Where the board has no room it is kept back, and is tried again after each unban. Each task that is
/// marked here has its cancellation begun with the nodes of its mask. A cancel of a task that is not found is answered as
/// that. The matches of a filter are cancelled once each data worker of the node has told its part. A letter for another node, a
/// second ban of a parent, an acknowledgement that is not awaited, and the end of a task with no cancellation are passed over. Each
/// cancel that an act names is one of the run, so a letter of the run may say what the act says.
///
/// It fails only for want of memory. Then what was asked of the board stands, and a first part of the changes to the core
/// may be made.
#[tactic(auto, using(crate::proofs::Making::turned))]
pub fn control_turn<N: RunName, B: ControlBoard<N>>(
    core: &mut ControlCore,
    board: &mut B,
    letter: Letter<N>,
) -> Result<Vec<ControlAct>, AllocError>
    requires together { Together (B.bans board.old) (B.slots board.old) N.allowed (view_of core.old) }
    ensures together { Together (B.bans board.new) (B.slots board.new) N.allowed (view_of core.new) }
    ensures acts { IfOk result (λ acts. Turned B.rests board.old (view_of core.old) letter acts.items (view_of core.new) board.new) }
    ensures lawful { IfOk result (λ acts. All (IsLawfulAct N.allowed) acts.items) }
{
    let mut acts = Vec::new(core.alloc);
    take_in(core, board, letter.into_body(), &mut acts)?;
    Ok(acts)
}
