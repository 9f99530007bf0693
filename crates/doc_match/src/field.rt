//! The names of fields, and the keys of objects at which they lie.

ghost use Rattle.std.specs.Prelude.{◌≡◌, true, option_map};
ghost use Rattle.std.specs.Option.{option_to_list};
ghost use Rattle.serde_json.specs.View.{view, members_view};
ghost use Rattle.query_match.specs.Values.{after_key, held_at, held_behind, is_key};

use serde_json::{Map, Value};
use task_ids::DocSource;

/// What lies at a field without a dot, where something does.
pub(crate) fn member<'v>(members: &'v Map<String, Value>, field: &str) -> Option<&'v Value>
    requires { is_key field.now ≡ true }
    ensures { option_to_list (option_map (λ v. view v.now) result) ≡ held_at field.now (members_view members.now.entries) }
{
    // That no two keys are the same is known with their number.
    if members.len() == 0 {
        return None;
    }
    members.get(field)
}

/// What lies at a field without a dot of a document, where something does.
pub(crate) fn value_at<'v>(source: &'v DocSource, field: &str) -> Option<&'v Value>
    requires { is_key field.now ≡ true }
    ensures { option_to_list (option_map (λ v. view v.now) result) ≡ held_behind field.now source.now }
{
    source.get(field)
}

/// The rest of a field's name that begins with the key and a dot.
pub(crate) fn after_key<'f>(key: &str, field: &'f str) -> Option<&'f str>
    ensures { option_map (λ r. r.now) result ≡ after_key key.now field.now }
{
    field.strip_prefix(key)?.strip_prefix('.')
}
