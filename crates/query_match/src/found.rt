ghost use Rattle.std.specs.Prelude.{◌≡◌, IfOk, option_map};
ghost use Rattle.serde_json.specs.View.{view};
ghost use Rattle.query_match.specs.Values.{value_of, value_cmp};
ghost use Rattle.query_match.specs.Found.{found_view};

use crate::scalar::Scalar;
use crate::text::Text;
use serde_json::Value;
use std::alloc::{AllocError, Global};
use std::cmp::Ordering;

/// A value where it lies: in a document, a body or a query, of which it borrows its text.
#[derive(Clone, Copy)]
pub enum Found<'a> {
    Whole(i128),
    Text(&'a str),
    Bool(bool),
}

/// The value that a JSON value is. A number with a fraction or an exponent is none, as null, a list and an object are.
pub fn value_in(value: &Value) -> Option<Found<'_>>
    ensures { option_map found_view result ≡ value_of (view value.now) }
{
    match value {
        Value::Bool(truth) => Some(Found::Bool(*truth)),
        Value::Number(number) => match number.as_i128() {
            Some(whole) => Some(Found::Whole(whole)),
            None => None,
        },
        Value::String(text) => Some(Found::Text(text.as_str())),
        Value::Null | Value::Array(_) | Value::Object(_) => None,
    }
}

impl Found<'_> {
    /// The value on its own, with a copy of its text. It fails only for want of memory.
    pub fn kept(&self, alloc: Global) -> Result<Scalar, AllocError>
        ensures { IfOk result (λ value. value ≡ found_view self.now) }
    {
        match self {
            Found::Whole(number) => Ok(Scalar::Whole(*number)),
            Found::Text(text) => Ok(Scalar::Text(Text::from_str(alloc, *text)?)),
            Found::Bool(truth) => Ok(Scalar::Bool(*truth)),
        }
    }

    /// How they stand in the order of values: whole numbers, then texts by bytes, then false, true.
    pub fn compare(&self, other: &Found<'_>) -> Ordering
        ensures { result ≡ value_cmp (found_view self.now) (found_view other.now) }
    {
        match (self, other) {
            (Found::Whole(a), Found::Whole(b)) => a.cmp(b),
            (Found::Text(a), Found::Text(b)) => a.cmp(b),
            (Found::Bool(a), Found::Bool(b)) => a.cmp(b),
            (Found::Whole(_), _) | (Found::Text(_), Found::Bool(_)) => Ordering::Less,
            (Found::Text(_), Found::Whole(_)) | (Found::Bool(_), _) => Ordering::Greater,
        }
    }
}
