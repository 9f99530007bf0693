//! A list of a ban's children, under the lock of a plain board.
ghost use Rattle.std.specs.Prelude.{◌≡◌, ◌≤◌, length, take, slice_index_or, None};
ghost use Rattle.node_boards.specs.Plain.{slot};
ghost use Rattle.node_boards.specs.PlainLists.{handed_of, handed_below, Passed};

use crate::plain_rows::{Ban, Live};
use crate::plain_table::Table;
use task_ids::BoardName;

/// The number of a child that is handed over, where `last` is the number that its seat marked last in this slot.
fn handed(child: Option<Live>, last: Option<u32>) -> Option<u32>
    ensures { result ≡ handed_of child last }
{
    let live = child?;
    if live.mark.is_none() || last == Some(live.number) {
        Some(live.number)
    } else {
        None
    }
}

/// Scans the slots once, and marks each unmarked child of the ban's parent. `found` begins with the numbers that are
/// handed over, and the answer is how many they are. `marked` keeps for each slot the number that was marked there last.
pub(crate) fn mark_children<N: BoardName>(
    table: &mut Table<N>,
    ban: &Ban,
    marked: &mut [Option<u32>],
    found: &mut [u32],
) -> usize
    requires allowed { N.allowed ban.now.cancel }
    requires room { length found.old ≡ length marked.old }
    ensures within { result ≤ length found.new }
    ensures handed { take result found.new ≡ handed_below ban.now table.old marked.old (length marked.old) }
    ensures passed { Passed ban.now table.old marked.old (length marked.old) table.new marked.new }
{
    let mut count = 0;
    for i in 0..marked.len() {
        let child = table.pass_slot(i, ban);
        if let Some(number) = handed(child, marked[i]) {
            marked[i] = Some(number);
            found[count] = number;
            count += 1;
        }
    }
    count
}
