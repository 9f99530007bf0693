//! Shuffles: moves that look like chance.

ghost use Rattle.std.specs.Prelude.{◌≡◌, ◌<◌, OnOk, OnErr, IfErr, IfSome, IfNone};
ghost use Rattle.world_moves.specs.Moves.{IsPartly};
ghost use Rattle.world_moves.specs.Ties.{IsTied, Keeps, KeepsLaws};
ghost use Rattle.world_steps.specs.Runs.{IsSettled};
ghost use Rattle.world_steps.specs.Shuffling.{Chooses, IsMove, Makes, PartlyShuffles, Shuffles, StopsMaking, StopsShuffling, chosen_of};
ghost use Rattle.world_steps.specs.World.{HasReady};

use crate::moving::{deliver_and_refresh, list_and_refresh, step_and_refresh};
use crate::ready::Ready;
use node_parts::listing::Listing;
use script_lang::next_number;
use task_events::Stop;
use task_ids::TaskId;
use world_moves::state::State;

/// By how much a number of chance is divided: its upper bits choose, for its lower ones repeat soon.
const LOWER_BITS: u64 = 8_589_934_592;

/// A move that can be made, of which a shuffle chooses one.
#[derive(Clone, Copy)]
pub enum Move {
    /// The message of this place among those in flight is delivered.
    Deliver(usize),
    /// An open listing makes a step.
    List(Listing),
    /// A live task that does not wait makes one.
    Step(TaskId),
}

/// The place of a move among so many, by a number of chance.
fn chosen_of(chance: u64, count: u128) -> u128
    requires { 0 < count }
    ensures { result ≡ chosen_of chance count }
{
    (chance / LOWER_BITS) as u128 % count
}

/// The move that a number of chance chooses among all that there are: each message in its order, each open listing, each live task that
/// does not wait. There is none exactly where there is no such move. None of them is walked over.
fn chosen(state: &State<'_>, ready: &Ready, chance: u64) -> Option<Move>
    requires tied { IsTied state.now }
    requires known { HasReady state.now ready.now }
    ensures chosen { IfSome result (λ move. Chooses state.now.cluster state.now.corpus.now state.now.script.now chance move state.now.history) }
    ensures can { IfSome result (λ move. IsMove state.now.cluster state.now.corpus.now state.now.script.now move state.now.history) }
    ensures none { IfNone result (IsSettled state.now.cluster state.now.corpus.now state.now.script.now state.now.history) }
{
    let messages = state.flight.len() as u128;
    let listings = state.listings.len() as u128;
    let count = messages + listings + ready.tasks.len() as u128;
    if count == 0 {
        return None;
    }
    let at = chosen_of(chance, count);
    if at < messages {
        return Some(Move::Deliver(at as usize));
    }
    let place = at - messages;
    if place < listings {
        return Some(Move::List(*state.listings.nth(place as usize)?));
    }
    Some(Move::Step(*ready.tasks.nth((place - listings) as usize)?))
}

/// Makes a move.
fn make(state: &mut State<'_>, ready: &mut Ready, chosen: Move) -> Result<(), Stop>
    requires tied { IsTied state.old }
    requires known { HasReady state.old ready.old }
    requires can { IsMove state.old.cluster state.old.corpus.now state.old.script.now chosen state.old.history }
    ensures made { OnOk result (Makes state.old.cluster state.old.corpus.now state.old.script.now chosen state.old.history state.new.history) }
    ensures tied { OnOk result (IsTied state.new) }
    ensures known { OnOk result (HasReady state.new ready.new) }
    ensures keeps { Keeps state.old state.new }
    ensures part { OnErr result (IsPartly (Makes state.old.cluster state.old.corpus.now state.old.script.now chosen) state.old.history state.new.history) }
    ensures laws { KeepsLaws state.new }
    ensures stop { IfErr result (λ stop. StopsMaking state.old.cluster state.old.corpus.now state.old.script.now chosen state.old.history state.new.history stop) }
{
    match chosen {
        Move::Deliver(nth) => deliver_and_refresh(state, ready, nth),
        Move::List(listing) => match list_and_refresh(state, ready, listing) {
            Ok(_) => Ok(()),
            Err(stop) => Err(stop),
        },
        Move::Step(task) => match step_and_refresh(state, ready, task) {
            Ok(_) => Ok(()),
            Err(stop) => Err(stop),
        },
    }
}

/// Makes so many moves that look like chance, or as many as there are. The seed determines them: the first move has the number after it,
/// and each other move the number after that of the one before.
pub(crate) fn shuffle(
    state: &mut State<'_>,
    ready: &mut Ready,
    seed: u64,
    moves: u32,
) -> Result<(), Stop>
    requires tied { IsTied state.old }
    requires known { HasReady state.old ready.old }
    ensures shuffled { OnOk result (Shuffles state.old.cluster state.old.corpus.now state.old.script.now seed moves state.old.history state.new.history) }
    ensures tied { OnOk result (IsTied state.new) }
    ensures known { OnOk result (HasReady state.new ready.new) }
    ensures keeps { Keeps state.old state.new }
    ensures part { OnErr result (PartlyShuffles state.old.cluster state.old.corpus.now state.old.script.now seed moves state.old.history state.new.history) }
    ensures laws { KeepsLaws state.new }
    ensures stop { IfErr result (λ stop. StopsShuffling state.old.cluster state.old.corpus.now state.old.script.now seed moves state.old.history state.new.history stop) }
{
    let mut chance = seed;
    for _ in 0..moves {
        chance = next_number(chance);
        let Some(chosen) = chosen(state, ready, chance) else {
            return Ok(());
        };
        match make(state, ready, chosen) {
            Ok(()) => {}
            Err(stop) => return Err(stop),
        }
    }
    Ok(())
}
