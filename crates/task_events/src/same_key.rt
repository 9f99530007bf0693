//! When two keys of hits are one, as a cursor is that is given back.

ghost use Rattle.std.specs.Prelude.{◌≡◌, ◌↔◌, IsTrue};

use crate::request::HitKey;

/// Whether two keys are equal: of rows at one place of one shard, with equal parts of the sort.
pub fn is_same_key(one: &HitKey, other: &HitKey) -> bool
    ensures { IsTrue result ↔ (one.now ≡ other.now) }
{
    one.cmp(other).is_eq()
}

/// Whether two cursors are equal: both are missing, or their keys are equal.
pub fn is_same_cursor(one: &Option<HitKey>, other: &Option<HitKey>) -> bool
    ensures { IsTrue result ↔ (one.now ≡ other.now) }
{
    match (one, other) {
        (None, None) => true,
        (Some(one), Some(other)) => is_same_key(one, other),
        (None, Some(_)) | (Some(_), None) => false,
    }
}
