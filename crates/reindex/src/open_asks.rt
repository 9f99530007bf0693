//! The asks of a task that have no answer yet.

ghost use Rattle.std.specs.Prelude.{◌≡◌, vec_capacity};
ghost use Rattle.reindex.specs.Bulks.{without};

/// Takes an ask away from those that have no answer.
pub(crate) fn close(open: &mut Vec<u32>, ask: u32)
    ensures items { open.new.items ≡ without ask open.old.items }
    ensures room { vec_capacity open.new ≡ vec_capacity open.old }
{
    open.retain(|other| *other != ask);
}
