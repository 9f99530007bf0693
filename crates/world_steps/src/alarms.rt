//! The moments for which tasks wait.

ghost use Rattle.std.specs.Prelude.{◌≡◌, ◌≢◌, ◌<◌, ◌≤◌, ℕ, None, Some, length, IfSome, IfNone, OnOk, OnErr, if◌then◌else◌};
ghost use Rattle.task_ids.specs.declared.task_id.TaskId.{TaskId};
ghost use Rattle.task_events.specs.Same.{same_task};
ghost use Rattle.world_steps.specs.Alarms.{AreAlarms, alarm_at};

use std::alloc::{AllocError, Global};
use std::collections::{BTreeMap, BTreeSet};
use task_ids::TaskId;

/// A moment, in milliseconds, and a task that waits for it. Alarms are ordered by moment, then by task.
#[derive(Clone, Copy, PartialEq, Eq, PartialOrd, Ord)]
pub(crate) struct Alarm {
    pub(crate) moment: u64,
    pub(crate) task: TaskId,
}

/// Which tasks wait for which moments. Each change, and each look at the soonest, costs a logarithm.
#[derive(Drop)]
pub(crate) struct Alarms {
    moments: BTreeMap<TaskId, u64>,
    /// The same, in order.
    order: BTreeSet<Alarm>,
}

impl Alarms {
    /// No task waits for a moment. It takes no memory.
    pub(crate) fn new(alloc: Global) -> Alarms
        ensures kept { AreAlarms result }
        ensures none { (q : TaskId) → alarm_at result q ≡ None }
    {
        Alarms {
            moments: BTreeMap::new(alloc),
            order: BTreeSet::new(alloc),
        }
    }

    /// A task waits for this moment from now on, and for no other. Where memory runs out it waits for none.
    pub(crate) fn set(&mut self, task: TaskId, moment: u64) -> Result<(), AllocError>
        requires kept { AreAlarms self.old }
        ensures kept { AreAlarms self.new }
        ensures ok { OnOk result ((q : TaskId) → alarm_at self.new q ≡ (if same_task task q then Some moment else alarm_at self.old q)) }
        ensures err { OnErr result ((q : TaskId) → alarm_at self.new q ≡ (if same_task task q then None else alarm_at self.old q)) }
    {
        self.remove(task);
        let alarm = Alarm { moment, task };
        match self.order.insert(alarm) {
            Ok(_) => {}
            Err(_) => return Err(AllocError),
        }
        match self.moments.insert(task, moment) {
            Ok(_) => Ok(()),
            Err(_) => {
                self.order.remove(&alarm);
                Err(AllocError)
            }
        }
    }

    /// A task waits for no moment from now on.
    pub(crate) fn remove(&mut self, task: TaskId)
        requires kept { AreAlarms self.old }
        ensures kept { AreAlarms self.new }
        ensures removed { (q : TaskId) → alarm_at self.new q ≡ (if same_task task q then None else alarm_at self.old q) }
        ensures fewer { alarm_at self.old task ≢ None → length self.new.order.keys < length self.old.order.keys }
    {
        if let Some(moment) = self.moments.remove(&task) {
            self.order.remove(&Alarm { moment, task });
        }
    }

    /// The soonest moment for which a task waits, where one does.
    pub(crate) fn least(&self) -> Option<u64>
        requires kept { AreAlarms self.now }
        ensures there { IfSome result (λ moment. (t : TaskId) × (alarm_at self.now t ≡ Some moment)) }
        ensures least { IfSome result (λ moment. (q : TaskId) (later : ℕ) → alarm_at self.now q ≡ Some later → moment ≤ later) }
        ensures none { IfNone result ((q : TaskId) → alarm_at self.now q ≡ None) }
    {
        match self.order.first() {
            Some(alarm) => Some(alarm.moment),
            None => None,
        }
    }

    /// Takes out a task whose moment has come, where there is one.
    pub(crate) fn take_due(&mut self, now: u64) -> Option<TaskId>
        requires kept { AreAlarms self.old }
        ensures kept { AreAlarms self.new }
        ensures due { IfSome result (λ t. (moment : ℕ) × (alarm_at self.old t ≡ Some moment) × (moment ≤ now)) }
        ensures taken { IfSome result (λ t. (q : TaskId) → alarm_at self.new q ≡ (if same_task t q then None else alarm_at self.old q)) }
        ensures fewer { IfSome result (λ t. length self.new.order.keys < length self.old.order.keys) }
        ensures none { IfNone result ((q : TaskId) (moment : ℕ) → alarm_at self.old q ≡ Some moment → now < moment) }
        ensures same { IfNone result ((q : TaskId) → alarm_at self.new q ≡ alarm_at self.old q) }
    {
        let Some(alarm) = self.order.first().copied() else {
            return None;
        };
        if now < alarm.moment {
            return None;
        }
        self.remove(alarm.task);
        Some(alarm.task)
    }
}
