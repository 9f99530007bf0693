//! The names of tasks, nodes and ways of grouping.

ghost use Rattle.std.specs.Prelude.{◌≡◌, ◌<◌, ◌≤◌, length, map, IfSome};
ghost use Rattle.script_lang.specs.Names.{task_id_of, place_among, is_one_of, node_of, group_named};

use task_ids::TaskId;
use tasks_api::GroupBy;

/// The task id that a text spells, if there is one.
pub(crate) fn task_id_of(text: &str) -> Option<TaskId>
    ensures { result ≡ task_id_of text.now }
{
    match TaskId::parse(text) {
        Ok(id) => id,
        Err(_) => None,
    }
}

/// The place of a name among some, from 0.
fn place_among(name: &str, names: &[&str]) -> Option<usize>
    ensures found { result ≡ place_among name.now (map (λ n. n.now) names.now) }
    ensures within { IfSome result (λ place. place < length names.now) }
{
    for (place, other) in names.iter().enumerate() {
        if name == *other {
            return Some(place);
        }
    }
    None
}

pub(crate) fn is_one_of(name: &str, names: &[&str]) -> bool
    ensures { result ≡ is_one_of name.now (map (λ n. n.now) names.now) }
{
    place_among(name, names).is_some()
}

/// The names of the nodes, in order.
const NODE_NAMES: [&str; 15] = [
    "n1", "n2", "n3", "n4", "n5", "n6", "n7", "n8", "n9", "n10", "n11", "n12", "n13", "n14", "n15",
];

/// The node that a text names, of so many.
pub(crate) fn node_of(nodes: u32, text: &str) -> Option<u32>
    requires { nodes ≤ 15 }
    ensures { result ≡ node_of nodes text.now }
{
    let place = place_among(text, &NODE_NAMES[..nodes as usize])?;
    Some(place as u32 + 1)
}

/// The way of grouping that a text names.
pub(crate) fn group_named(text: &str) -> Option<GroupBy>
    ensures { result ≡ group_named text.now }
{
    match text {
        "nodes" => Some(GroupBy::Nodes),
        "parents" => Some(GroupBy::Parents),
        "none" => Some(GroupBy::None),
        _ => None,
    }
}
