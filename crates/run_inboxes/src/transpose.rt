// Rows as columns.
ghost use Rattle.std.specs.Prelude.{◌≡◌, length, vec_len, IfOk, OnOk};
ghost use Rattle.run_inboxes.specs.Rows.{HasWidth, HandedOut, IsTurned};

use std::alloc::{AllocError, Global};

// So many lists with nothing in them.
fn empty_columns<T: Drop>(alloc: Global, count: usize) -> Result<Vec<Vec<T>>, AllocError>
    ensures count { IfOk result (λ columns. length columns.items ≡ count) }
    ensures empty { IfOk result (λ columns. HasWidth 0 columns.items) }
{
    let mut columns = Vec::with_capacity(alloc, count)?;
    for _ in 0..count {
        columns.push(Vec::new(alloc))?;
    }
    Ok(columns)
}

// Gives one thing to each column, in order.
fn hand_out<T: Drop>(columns: &mut Vec<Vec<T>>, row: Vec<T>) -> Result<(), AllocError>
    requires { length row.items ≡ length columns.old.items }
    ensures { OnOk result (HandedOut columns.old.items row.items columns.new.items) }
{
    let mut place = 0usize;
    for thing in row {
        let column = &mut columns[place];
        column.push(thing)?;
        place += 1;
    }
    Ok(())
}

/// The rows read as columns: the things that stand at one place of each row, in the order of the rows. It fails only for want of memory.
pub(crate) fn turned<T: Drop>(
    alloc: Global,
    width: usize,
    rows: Vec<Vec<T>>,
) -> Result<Vec<Vec<T>>, AllocError>
    requires { HasWidth width rows.items }
    ensures { IfOk result (λ columns. IsTurned width rows.items columns.items) }
{
    let mut columns = empty_columns(alloc, width)?;
    for row in rows {
        hand_out(&mut columns, row)?;
    }
    Ok(columns)
}
