ghost use Rattle.std.specs.Prelude.{◌≡◌, IfOk};
ghost use Rattle.query_match.specs.Found.{found_view};

use crate::found::Found;
use crate::text::Text;
use std::alloc::AllocError;
use std::cmp::Ordering;

/// What a document's field can hold and a query can ask for. The order of values is whole numbers, then texts by bytes, then false, true.
#[derive(Drop)]
pub enum Scalar {
    /// A whole number from -2^63 to 2^64-1.
    Whole(i128),
    Text(Text),
    Bool(bool),
}

impl Scalar {
    /// An equal value. It fails only for want of memory.
    pub fn copy(&self) -> Result<Scalar, AllocError>
        ensures { IfOk result (λ value. value ≡ self.now) }
    {
        match self {
            Scalar::Whole(number) => Ok(Scalar::Whole(*number)),
            Scalar::Text(text) => Ok(Scalar::Text(text.copy()?)),
            Scalar::Bool(truth) => Ok(Scalar::Bool(*truth)),
        }
    }

    /// The value, borrowed.
    pub fn lent(&self) -> Found<'_>
        ensures { found_view result ≡ self.now }
    {
        match self {
            Scalar::Whole(number) => Found::Whole(*number),
            Scalar::Text(text) => Found::Text(text.as_str()),
            Scalar::Bool(truth) => Found::Bool(*truth),
        }
    }
}

impl PartialEq for Scalar {
    ghost use Rattle.std.specs.Ordering.{eq_by_cmp};
    ghost use Rattle.std.specs.Cmp.{eq_by_cmp_equiv, partial_equiv_from_equiv};
    ghost use Rattle.query_match.specs.Values.{value_cmp};
    ghost use Rattle.query_match.specs.Orders.{value_cmp_total};

    ghost eq = { eq_by_cmp value_cmp };

    ghost laws = { partial_equiv_from_equiv (eq_by_cmp_equiv value_cmp_total) };

    fn eq(&self, other: &Scalar) -> bool {
        self.lent().compare(&other.lent()).is_eq()
    }
}

impl Eq for Scalar {
    ghost use Rattle.std.specs.Cmp.{eq_by_cmp_equiv};
    ghost use Rattle.query_match.specs.Orders.{value_cmp_total};

    ghost laws = { eq_by_cmp_equiv value_cmp_total };
}

impl PartialOrd for Scalar {
    ghost use Rattle.std.specs.Ordering.{as_partial_cmp};
    ghost use Rattle.std.specs.Cmp.{partial_order_from_total};
    ghost use Rattle.query_match.specs.Values.{value_cmp};
    ghost use Rattle.query_match.specs.Orders.{value_cmp_total};

    ghost partial_cmp = { as_partial_cmp value_cmp };

    ghost laws = { partial_order_from_total value_cmp_total };

    fn partial_cmp(&self, other: &Scalar) -> Option<Ordering> {
        Some(self.cmp(other))
    }
}

impl Ord for Scalar {
    ghost use Rattle.std.specs.Prelude.{refl};
    ghost use Rattle.query_match.specs.Values.{value_cmp};
    ghost use Rattle.query_match.specs.Orders.{value_cmp_total};

    ghost cmp = { value_cmp };

    ghost total = { value_cmp_total };

    ghost matches_partial_cmp = { λ x y. refl };

    ghost matches_eq = { λ x y. refl };

    fn cmp(&self, other: &Scalar) -> Ordering {
        self.lent().compare(&other.lent())
    }
}
