//! What becomes of a document's source when fields are set in it.

ghost use Rattle.std.specs.Prelude.{◌≡◌, ℕ, List, IfOk, OnOk};
ghost use Rattle.std.specs.Option.{option_or};
ghost use Rattle.serde_json.specs.Find.{get};
ghost use Rattle.serde_json.specs.View.{members_view};
ghost use Rattle.task_ids.specs.Source.{IsSource, members_in};
ghost use Rattle.by_query.specs.Overlays.{overlay, with_members};

use serde_json::{Map, Value};
use std::alloc::{AllocError, Global};
use task_ids::{DocSource, Keys, Member, NotSource};

/// The source that has the keys of both, in order: at each the value of the set where that has the key, and else its own.
/// Only keys of the source itself are set, and a value there is replaced as a whole.
///
/// It shares its keys with other documents where they are known. It fails only for want of memory.
pub fn overlay(
    alloc: Global,
    source: &DocSource,
    set: &DocSource,
    keys: &mut Keys,
) -> Result<DocSource, AllocError>
    ensures made { IfOk result (λ made. made ≡ overlay source.now set.now) }
    ensures values { IfOk result (λ made. (key : List ℕ) → get key made ≡ option_or (get key set.now) (get key source.now)) }
{
    know(source);
    know(set);
    let mut members = Map::new(alloc);
    put_all(alloc, &mut members, source.members())?;
    put_all(alloc, &mut members, set.members())?;
    match DocSource::new(alloc, Value::Object(members), keys) {
        Ok(made) => Ok(made),
        Err(fault) => Err(only_memory(fault)),
    }
}

/// What is put together of sources is a source, so nothing but memory can be missing.
fn only_memory(fault: NotSource) -> AllocError
    requires { fault ≡ NotSource.Memory }
{
    let _ = fault;
    AllocError
}

/// Any look for a key says what a source is. Nothing else comes of it.
fn know(source: &DocSource)
    ensures { IsSource source.now }
{
    let _value = source.get("");
}

/// Puts copies of members to others. One that has the key of another takes its place. Where memory runs out some may be there.
fn put_all(
    alloc: Global,
    all: &mut Map<String, Value>,
    members: &[Member],
) -> Result<(), AllocError>
    ensures { OnOk result (members_view all.new.entries ≡ with_members (members_in members.now) (members_view all.old.entries)) }
{
    // from the last to the first, as they are said to be put
    for later in 0..members.len() {
        let member = &members[members.len() - 1 - later];
        let key = String::from_str(alloc, member.key.get().as_str())?;
        all.insert(key, member.value.clone()?)?;
    }
    Ok(())
}
