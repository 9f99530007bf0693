//! The names of nodes.

ghost use Rattle.std.specs.Prelude.{◌≡◌};
ghost use Rattle.task_ids.specs.Limits.{IsNode};
ghost use Rattle.task_ids.specs.TaskId.{node_name};

use task_ids::TaskId;

/// The name of the node on which a task runs.
pub(crate) fn node_name(task: TaskId) -> &'static str
    ensures { result.now ≡ node_name task.node }
{
    name_of(task.node)
}

/// The name of a node, from 1 to 15.
pub(crate) fn name_of(node: u32) -> &'static str
    requires { IsNode node }
    ensures { result.now ≡ node_name node }
{
    match node {
        1 => "n1",
        2 => "n2",
        3 => "n3",
        4 => "n4",
        5 => "n5",
        6 => "n6",
        7 => "n7",
        8 => "n8",
        9 => "n9",
        10 => "n10",
        11 => "n11",
        12 => "n12",
        13 => "n13",
        14 => "n14",
        _ => "n15",
    }
}
