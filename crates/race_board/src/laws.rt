//! What follows from the clauses of all calls.
ghost use Rattle.std.specs.Prelude.{◌≡◌, ℕ, List};
ghost use Rattle.race_board.specs.Calls.{Saw};
ghost use Rattle.race_board.specs.Events.{Event};
ghost use Rattle.race_board.specs.Kinds.{Kind};
ghost use Rattle.race_board.specs.Board.{Has};
ghost use Rattle.race_board.specs.Theorem.{Moment};
ghost use Rattle.race_board.specs.Own.{IsAt, IsListed, StopsAll, HasCleared};
ghost use Rattle.race_board.specs.declared.views.Size.{Size};
ghost use Rattle.race_board.specs.Walks.{Walks, Found};
ghost use Rattle.race_board.specs.declared.views.View.{View};

/// What a call saw in a word was found there by one of its steps, at a moment at which all that is promised of moments
/// holds. So Full, Banned, Cancelled, Already and NotFound tell of moments of their call.
pub fn seen_at_a_moment()
    ensures found { (kind : Kind) (v w : View) (es : List Event) (word seen : ℕ) → Walks kind v w es → Saw v w word seen → Found v word seen }
{}

/// Once a ban was listed, and as long as it stands, at each moment each live child of its parent is marked, or will be
/// told Banned.
pub fn children_stop()
    ensures stops { (z : Size) (v : View) (j : ℕ) (s : Moment) → v.lead ≡ 1 → IsListed z v j → IsAt z v s → StopsAll z s v j }
{}

/// Once a mask of a marked task was taken, at each moment it has each node for which the task's ticket is cleared.
pub fn masks_hold()
    ensures cleared { (z : Size) (v : View) (n nodes : ℕ) (s : Moment) → v.lead ≡ 1 → Has n nodes v.masks → IsAt z v s → HasCleared n nodes s }
{}
