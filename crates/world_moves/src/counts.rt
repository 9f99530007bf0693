//! At how many tasks cancels wait.

ghost use Rattle.std.specs.Prelude.{◌≡◌, ◌≤◌, ◌+◌, ◌==◌, ℕ, if◌then◌else◌, OnOk, IfErr};
ghost use Rattle.task_events.specs.declared.history.TheConstants.{MAX_EVENTS};
ghost use Rattle.world_moves.specs.Left.{left_in, one_less};

use std::collections::BTreeMap;
use task_events::Stop;

/// A cancel waits at one task more. It fails only for want of memory (`Memory`).
pub fn wait_at_one(left: &mut BTreeMap<u32, usize>, cancel: u32) -> Result<(), Stop>
    requires few { left_in left.old cancel ≤ MAX_EVENTS }
    ensures more { OnOk result ((c : ℕ) → left_in left.new c ≡ (if cancel == c then left_in left.old c + 1 else left_in left.old c)) }
    ensures memory { IfErr result (λ stop. stop ≡ Stop.Memory) }
{
    let before = match left.get(&cancel) {
        Some(tasks) => *tasks,
        None => 0,
    };
    match left.insert(cancel, before + 1) {
        Ok(_) => Ok(()),
        Err(_) => Err(Stop::Memory),
    }
}

/// A cancel waits at one task less. The answer is whether that was the last one.
pub fn leave_one(left: &mut BTreeMap<u32, usize>, cancel: u32) -> bool
    ensures less { (c : ℕ) → left_in left.new c ≡ one_less cancel (left_in left.old) c }
    ensures last { result ≡ (left_in left.old cancel == 1) }
{
    let Some(tasks) = left.get_mut(&cancel) else {
        return false;
    };
    if *tasks > 1 {
        *tasks -= 1;
        return false;
    }
    let last = *tasks == 1;
    left.remove(&cancel);
    last
}

/// Whether a cancel waits at no task.
pub fn waits_at_none(left: &BTreeMap<u32, usize>, cancel: u32) -> bool
    ensures { result ≡ (left_in left.now cancel == 0) }
{
    match left.get(&cancel) {
        Some(tasks) => *tasks == 0,
        None => true,
    }
}
