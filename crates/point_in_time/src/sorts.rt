//! When two sorts are one.
ghost use Rattle.std.specs.Prelude.{◌≡◌, ◌↔◌, IsTrue};

use query_match::SortBy;

/// Whether two sorts have equal entries, in order. A sort by a field is equal to one that says that it ascends, and none to one that names no
/// field, since both are read so.
pub(crate) fn is_same_sort(one: &[SortBy], other: &[SortBy]) -> bool
    ensures { IsTrue result ↔ (one.now ≡ other.now) }
{
    one == other
}
