ghost use Rattle.std.specs.Prelude.{◌≡◌, ◌≢◌, ◌≤◌, ◌++◌, ◌↔◌, ℕ, codes, decimal, slice_index, IsTrue, Some, None, OnOk, OnErr, IsErr};
ghost use Rattle.task_ids.specs.Limits.{IsNode, IsNumber};

use std::alloc::AllocError;

/// The id of a task: the node on which it runs, and its number there. Ids are ordered by node, then by number.
///
/// After Elasticsearch's task management API, where an id is written `node:number`.
#[derive(Clone, Copy, PartialEq, Eq, PartialOrd, Ord, Hash)]
pub struct TaskId {
    /// The node, from 1 to 15.
    pub node: u32,
    /// The task's number on its node, from 1 to 1,048,575.
    pub number: u32,
    pub ghost node_in_range: { IsNode node },
    pub ghost number_in_range: { IsNumber number },
}

/// The text is neither the one spelling of a task id nor `unset`.
#[derive(Clone, Copy, Debug, PartialEq, Eq)]
pub struct Malformed;

const MAX_NODE: u32 = 15;

const MAX_NUMBER: u32 = 1_048_575;

impl TaskId {
    ghost use Rattle.task_ids.specs.declared.task_id.TaskId.{TaskId};
    ghost use Rattle.task_ids.specs.TaskId.{task_id_text};

    /// The id that a text spells, as `n3:17`, and none for `unset`. Each id has one spelling, the text that
    /// `print` appends: decimal numbers without a sign or a leading zero.
    pub fn parse(text: &str) -> Result<Option<TaskId>, Malformed>
        ensures unset { (result ≡ Ok None) ↔ (text.now ≡ codes "unset") }
        ensures id { (t : TaskId) → (result ≡ Ok (Some t)) ↔ (text.now ≡ task_id_text t) }
        ensures malformed { IsErr result
            ↔ ((text.now ≢ codes "unset") × ((t : TaskId) → text.now ≢ task_id_text t)) }
    {
        if text == "unset" {
            return Ok(None);
        }
        match TaskId::spelled(text) {
            Some(id) => Ok(Some(id)),
            None => Err(Malformed),
        }
    }

    fn spelled(text: &str) -> Option<TaskId>
        ensures { (t : TaskId) → (result ≡ Some t) ↔ (text.now ≡ task_id_text t) }
    {
        let (node, number) = text.strip_prefix('n')?.split_once(':')?;
        let node = number_up_to(node, MAX_NODE)?;
        let number = number_up_to(number, MAX_NUMBER)?;
        Some(TaskId { node, number })
    }

    /// Appends the one spelling of the id, as `n3:17`. Where memory runs out nothing was appended.
    pub fn print(&self, out: &mut Vec<u8>) -> Result<(), AllocError>
        ensures ok { OnOk result (out.new.items ≡ out.old.items ++ task_id_text self.now) }
        ensures err { OnErr result (out.new.items ≡ out.old.items) }
    {
        let text = format!(in *out.allocator(); "n{}:{}", self.node, self.number)?;
        out.extend_from_slice(text.as_bytes())
    }
}

/// The number from 1 to `most` that a text spells without a sign or a leading zero.
fn number_up_to(text: &str, most: u32) -> Option<u32>
    ensures { (n : ℕ) → (result ≡ Some n) ↔ ((1 ≤ n) × (n ≤ most) × (text.now ≡ decimal n)) }
{
    let plain = begins_with_1_to_9(text);
    match text.parse::<u32>() {
        Ok(n) if plain && n <= most => Some(n),
        _ => None,
    }
}

fn begins_with_1_to_9(text: &str) -> bool
    ensures { IsTrue result ↔ ((49 ≤ slice_index text.now 0) × (slice_index text.now 0 ≤ 57)) }
{
    matches!(text.as_bytes().first(), Some(b'1'..=b'9'))
}
