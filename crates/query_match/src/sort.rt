//! Sorts, and the keys of documents.

ghost use Rattle.std.specs.Prelude.{◌≡◌, IfOk};

use crate::items::Items;
use crate::scalar::Scalar;
use crate::text::Text;
use std::alloc::AllocError;
use std::cmp::Ordering;
use std::marker::Model;

/// One entry of a sort: by the values of a field, ascending or descending.
#[derive(Drop, PartialEq, Eq)]
pub struct SortBy {
    pub field: Text,
    pub descending: bool,
}

impl SortBy {
    /// An equal entry. It fails only for want of memory.
    pub fn copy(&self) -> Result<SortBy, AllocError>
        ensures { IfOk result (λ entry. entry ≡ self.now) }
    {
        Ok(SortBy {
            field: self.field.copy()?,
            descending: self.descending,
        })
    }
}

/// What one entry of a sort goes by in a document.
#[derive(Drop)]
pub enum KeyPart {
    /// The least value of the field.
    Ascending(Scalar),
    /// The greatest value of the field.
    Descending(Scalar),
    /// The field has no value. Such a document stands last either way.
    Missing,
}

impl KeyPart {
    /// An equal part. It fails only for want of memory.
    pub fn copy(&self) -> Result<KeyPart, AllocError>
        ensures { IfOk result (λ part. part ≡ self.now) }
    {
        match self {
            KeyPart::Ascending(value) => Ok(KeyPart::Ascending(value.copy()?)),
            KeyPart::Descending(value) => Ok(KeyPart::Descending(value.copy()?)),
            KeyPart::Missing => Ok(KeyPart::Missing),
        }
    }
}

impl PartialEq for KeyPart {
    ghost use Rattle.std.specs.Ordering.{eq_by_cmp};
    ghost use Rattle.std.specs.Cmp.{eq_by_cmp_equiv, partial_equiv_from_equiv};
    ghost use Rattle.query_match.specs.Sorting.{part_cmp};
    ghost use Rattle.query_match.specs.Orders.{part_cmp_total};

    ghost eq = { eq_by_cmp part_cmp };

    ghost laws = { partial_equiv_from_equiv (eq_by_cmp_equiv part_cmp_total) };

    fn eq(&self, other: &KeyPart) -> bool {
        self.cmp(other).is_eq()
    }
}

impl Eq for KeyPart {
    ghost use Rattle.std.specs.Cmp.{eq_by_cmp_equiv};
    ghost use Rattle.query_match.specs.Orders.{part_cmp_total};

    ghost laws = { eq_by_cmp_equiv part_cmp_total };
}

impl PartialOrd for KeyPart {
    ghost use Rattle.std.specs.Ordering.{as_partial_cmp};
    ghost use Rattle.std.specs.Cmp.{partial_order_from_total};
    ghost use Rattle.query_match.specs.Sorting.{part_cmp};
    ghost use Rattle.query_match.specs.Orders.{part_cmp_total};

    ghost partial_cmp = { as_partial_cmp part_cmp };

    ghost laws = { partial_order_from_total part_cmp_total };

    fn partial_cmp(&self, other: &KeyPart) -> Option<Ordering> {
        Some(self.cmp(other))
    }
}

impl Ord for KeyPart {
    ghost use Rattle.std.specs.Prelude.{refl};
    ghost use Rattle.query_match.specs.Sorting.{part_cmp};
    ghost use Rattle.query_match.specs.Orders.{part_cmp_total};

    ghost cmp = { part_cmp };

    ghost total = { part_cmp_total };

    ghost matches_partial_cmp = { λ x y. refl };

    ghost matches_eq = { λ x y. refl };

    fn cmp(&self, other: &KeyPart) -> Ordering {
        match (self, other) {
            (KeyPart::Ascending(a), KeyPart::Ascending(b)) => a.cmp(b),
            (KeyPart::Descending(a), KeyPart::Descending(b)) => b.cmp(a),
            (KeyPart::Missing, KeyPart::Missing) => Ordering::Equal,
            (KeyPart::Ascending(_), _) | (KeyPart::Descending(_), KeyPart::Missing) =>
                Ordering::Less,
            (KeyPart::Missing, _) | (KeyPart::Descending(_), KeyPart::Ascending(_)) => {
                Ordering::Greater
            }
        }
    }
}

/// The key of a document for a sort: a part for each entry. Keys are ordered by their first part, a tie by the next.
#[derive(Drop)]
pub struct SortKey {
    parts: Items<KeyPart>,
}

impl Model for SortKey {
    ghost use Rattle.std.specs.Prelude.{List};
    ghost use Rattle.query_match.specs.declared.sort.KeyPart.{KeyPart};

    ghost Value = { List KeyPart };

    ghost view = { λ a. a.parts };
}

impl SortKey {
    /// The key of these parts, which move in.
    pub fn from_parts(parts: Items<KeyPart>) -> SortKey
        ensures { result ≡ parts }
    {
        SortKey { parts }
    }

    /// The parts in the order of the sort, borrowed.
    pub fn as_slice(&self) -> &[KeyPart]
        ensures { result.now ≡ self.now }
    {
        self.parts.as_slice()
    }

    /// An equal key. It fails only for want of memory.
    pub fn copy(&self) -> Result<SortKey, AllocError>
        ensures { IfOk result (λ key. key ≡ self.now) }
    {
        Ok(SortKey {
            parts: self.parts.copy()?,
        })
    }
}

impl PartialEq for SortKey {
    ghost use Rattle.std.specs.Ordering.{eq_by_cmp};
    ghost use Rattle.std.specs.Cmp.{eq_by_cmp_equiv, partial_equiv_from_equiv};
    ghost use Rattle.query_match.specs.Sorting.{key_cmp};
    ghost use Rattle.query_match.specs.Orders.{key_cmp_total};

    ghost eq = { eq_by_cmp key_cmp };

    ghost laws = { partial_equiv_from_equiv (eq_by_cmp_equiv key_cmp_total) };

    fn eq(&self, other: &SortKey) -> bool {
        self.cmp(other).is_eq()
    }
}

impl Eq for SortKey {
    ghost use Rattle.std.specs.Cmp.{eq_by_cmp_equiv};
    ghost use Rattle.query_match.specs.Orders.{key_cmp_total};

    ghost laws = { eq_by_cmp_equiv key_cmp_total };
}

impl PartialOrd for SortKey {
    ghost use Rattle.std.specs.Ordering.{as_partial_cmp};
    ghost use Rattle.std.specs.Cmp.{partial_order_from_total};
    ghost use Rattle.query_match.specs.Sorting.{key_cmp};
    ghost use Rattle.query_match.specs.Orders.{key_cmp_total};

    ghost partial_cmp = { as_partial_cmp key_cmp };

    ghost laws = { partial_order_from_total key_cmp_total };

    fn partial_cmp(&self, other: &SortKey) -> Option<Ordering> {
        Some(self.cmp(other))
    }
}

impl Ord for SortKey {
    ghost use Rattle.std.specs.Prelude.{refl};
    ghost use Rattle.query_match.specs.Sorting.{key_cmp};
    ghost use Rattle.query_match.specs.Orders.{key_cmp_total};

    ghost cmp = { key_cmp };

    ghost total = { key_cmp_total };

    ghost matches_partial_cmp = { λ x y. refl };

    ghost matches_eq = { λ x y. refl };

    fn cmp(&self, other: &SortKey) -> Ordering {
        self.parts.as_slice().cmp(other.parts.as_slice())
    }
}
