//! What a core does with a letter.
ghost use Rattle.data_core.specs.Turns.{Turned};
ghost use Rattle.std.specs.Prelude.{◌≡◌, Err, None, IfOk, Ok, filter};
ghost use Rattle.node_boards.specs.Calls as call;
ghost use Rattle.data_core.specs.Cores.{IsSound, SameSelf};
ghost use Rattle.entry_facts.specs.Entries.{IsCoreOfRun};
ghost use Rattle.run_facts.specs.Cancels.{cancels_of};

use crate::answers::take_answer;
use crate::filters::{list, name_matches};
use crate::requests::take_request;
use crate::starts::take_start;
use crate::state::DataCore;
use node_boards::DataBoard;
use node_link::{Body, Letter};
use run_facts::{Of, Post, Run};
use task_events::Stop;

/// Takes one letter in, and gives the letters that are to be sent for it, in order.
pub fn data_turn<W: Run, B: DataBoard<Of<W>>>(
    core: &mut DataCore,
    board: &mut B,
    letter: Letter<Of<W>>,
) -> Result<Vec<Post<Letter<Of<W>>>>, Stop>
    requires sound { IsSound (cancels_of W.cancels) (B.node board.old) (B.has board.old) (B.drawn board.old) (B.clear board.old) core.old }
    requires of_run { IsCoreOfRun W.setting core.old.cluster.shards core.old.shards core.old.live }
    ensures sound { IsSound (cancels_of W.cancels) (B.node board.new) (B.has board.new) (B.drawn board.new) (B.clear board.new) core.new }
    ensures of_run { IsCoreOfRun W.setting core.new.cluster.shards core.new.shards core.new.live }
    ensures own { SameSelf core.old core.new }
    ensures spent { result ≡ Err Stop.NumbersSpent → (core.old.live.drawn ≡ None) × B.rests board.old board.new (call.draw None) }
    ensures history { result ≡ Err Stop.HistoryFull → ⊥ }
    ensures turned { IfOk result (λ posts. Turned B.rests letter board.old core.old posts.items core.new board.new) }
{
    match letter.into_body() {
        Body::Request(asked) => take_request(core, board, asked),
        Body::Start(start) => take_start(core, board, start),
        Body::Answer(answered) => take_answer(core, board, answered),
        Body::List { command } => list(core, board, command),
        Body::CancelMatching {
            cancel,
            filter,
            wait,
        } => name_matches(core, board, cancel, &filter, wait),
        Body::Tick { ms } => {
            core.clock.tick(ms);
            Ok(Vec::new(core.alloc))
        }
        Body::Drain => {
            core.clock.drain();
            Ok(Vec::new(core.alloc))
        }
        Body::Leave => {
            core.leaving = true;
            Ok(Vec::new(core.alloc))
        }
        _ => Ok(Vec::new(core.alloc)),
    }
}
