//! The results of tasks, and the commands that wait for a task to end.

ghost use Rattle.std.specs.Prelude.{◌≡◌, []};
ghost use Rattle.task_results.specs.Results.{waiting_for};

use std::alloc::{AllocError, Global};
use task_events::{Counts, Reply, Tally};
use task_ids::TaskId;
use task_results::ResultTable;

/// What a reindex has done that wrote five documents.
fn five_written() -> Counts {
    Counts {
        total: 5,
        created: 5,
        updated: 0,
        batches: 1,
        failures: 0,
    }
}

/// Stores such a reply, where no result of the task stands, and says whether it did.
fn store(alloc: Global, table: &mut ResultTable, id: TaskId) -> bool
    ensures { table.new.waiting ≡ table.old.waiting }
{
    let Ok(tally) = Tally::of(alloc, five_written()) else {
        return false;
    };
    table.get(id).is_none() && table.store(id, Reply::Wrote(tally)).is_ok()
}

/// Whether such a reply is the result of the task.
fn stands(table: &ResultTable, id: TaskId) -> bool {
    match table.get(id) {
        Some(Reply::Wrote(tally)) => tally.get() == five_written(),
        _ => false,
    }
}

/// The commands 5 and 7 wait for a task for which none waits.
fn two_wait(table: &mut ResultTable, id: TaskId) -> Result<(), AllocError>
    requires { waiting_for id table.old.waiting ≡ [] }
{
    table.wait(id, 5)?;
    table.wait(id, 7)?;
    Ok(())
}

#[test]
fn a_result_stands_until_it_is_forgotten(rt: HostRuntime) {
    let alloc = rt.alloc();
    let one = TaskId { node: 1, number: 1 };
    let two = TaskId { node: 1, number: 2 };
    let mut table = ResultTable::new(alloc);
    assert!(rt; store(alloc, &mut table, one) && stands(&table, one));
    assert!(rt; two_wait(&mut table, two).is_ok());
    assert!(rt;
        table
            .ended(two)
            .is_ok_and(|woken| woken.as_slice() == [5, 7].as_slice())
    );
    assert!(rt;
        table
            .ended(two)
            .is_ok_and(|woken| woken.as_slice().is_empty())
    );
    assert!(rt;
        table
            .list()
            .is_ok_and(|ids| ids.as_slice() == [one].as_slice())
    );
    assert!(rt; table.forget(one) && !table.forget(one));
    assert!(rt; !stands(&table, one));
}

#[test]
fn results_are_listed_by_ascending_id(rt: HostRuntime) {
    let alloc = rt.alloc();
    let low = TaskId {
        node: 1,
        number: 10,
    };
    let high = TaskId { node: 2, number: 1 };
    let mut table = ResultTable::new(alloc);
    assert!(rt; store(alloc, &mut table, high) && store(alloc, &mut table, low));
    assert!(rt;
        table
            .list()
            .is_ok_and(|ids| ids.as_slice() == [low, high].as_slice())
    );
    assert!(rt; table.forget(low) && stands(&table, high));
    assert!(rt;
        table
            .list()
            .is_ok_and(|ids| ids.as_slice() == [high].as_slice())
    );
}
