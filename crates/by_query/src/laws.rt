//! What the definitions come to. Nothing here computes anything.

ghost use Rattle.std.specs.Prelude.{◌≡◌, ◌<◌, ◌++◌, ◌∷◌, [], ℕ, ◌+◌, List, Option, Some, map, true, length};
ghost use Rattle.throttle.specs.Waits.{wait_at};
ghost use Rattle.task_ids.specs.declared.doc.Doc.{Doc};
ghost use Rattle.by_query.specs.declared.change.Change.{Change};
ghost use Rattle.by_query.specs.Changes.{is_in_conflict, doc_of};
ghost use Rattle.by_query.specs.Paces.{Pacing, after_batch, with_rates, due_of, least_of};

/// After a batch the next one is due as long after its answer as the batch takes at the fastest of all rates since: the one in force at the
/// answer, and every later one so far.
pub fn the_fastest_rate_counts()
    ensures { (pace : Pacing) (batch spent now : ℕ) (later : List (Option ℕ))
        → due_of (with_rates later (after_batch batch spent now pace))
        ≡ Some (now + least_of (wait_at pace.rate batch pace.slices spent) (map (λ rate. wait_at rate batch pace.slices spent) later)) }
{}

/// Once a change was written, every other change of that document that read an earlier row is in conflict, also where both sources are equal.
pub fn the_second_change_conflicts()
    ensures { (first second : Change) (writes : List Doc) → second.id ≡ first.id → second.place < length writes
        → is_in_conflict second (writes ++ doc_of first ∷ []) ≡ true }
{}
