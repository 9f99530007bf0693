ghost use Rattle.std.specs.Prelude.{◌≡◌, ◌≤◌, ◌↔◌, ◌∷◌, [], ◌++◌, true, false, IfOk, IfErr, OnOk, OnErr, is_some, option_map, IsErrOf};
ghost use Rattle.std.specs.List.{AllByRecursion};
ghost use Rattle.std.specs.Option.{option_to_list};
ghost use Rattle.serde_json.specs.Data.{depth, object};
ghost use Rattle.serde_json.specs.Find.{as_object, get};
ghost use Rattle.serde_json.specs.Read.{max_depth};
ghost use Rattle.serde_json.specs.View.{view, members_view};
ghost use Rattle.serde_json.specs.Written.{has_float, members_have_float, comma_if, compact_text, members_text};
ghost use Rattle.task_ids.specs.Source.{IsSource, members_in, values_at, object_or_none, AreOrdered, member_text};

use crate::items::Items;
use crate::keys::{Key, Keys};
use crate::whole::is_whole;
use serde_json::{Map, Value};
use shared_value::Shared;
use std::alloc::{AllocError, Global};
use std::marker::Model;

/// A member of a document's source: a key, which documents share, and the value that lies there.
#[derive(Drop)]
pub struct Member {
    pub key: Shared<Key>,
    pub value: Value,
}

/// The source of a document: a JSON object whose numbers are all whole. Contracts see it as the JSON value. It is never changed, and its
/// copies are other owners of the same value.
///
/// A JSON object takes room for eleven members and more, and each its own copy of its keys. Most documents have less
/// than that, and the same keys, so a source keeps its members in one list, and shares their keys.
#[derive(Drop)]
pub struct DocSource {
    /// In the order of their keys, each key once.
    members: Shared<Items<Member>>,
}

impl Model for DocSource {
    ghost use Rattle.serde_json.specs.Data.{Data, object};
    ghost use Rattle.task_ids.specs.DataCode.{coded_data};
    ghost use Rattle.task_ids.specs.Source.{IsSource, AreOrdered, members_in};

    ghost Value = { Data };

    ghost coded = { coded_data };

    ghost view = { λ s. object (members_in s.members) };

    ghost invariant = { λ s. IsSource (object (members_in s.members)) × AreOrdered s.members };
}

/// Why a JSON value is no document's source. A value with both faults is `NotWhole`.
#[derive(Clone, Copy, Debug, PartialEq, Eq)]
pub enum NotSource {
    /// A number in it is not whole.
    NotWhole,
    /// It is no object.
    NotObject,
    /// Memory ran out.
    Memory,
}

impl DocSource {
    /// The source that a JSON value is, which nests no deeper than 127 as every value that was read. It shares its keys with
    /// other documents where they are known.
    pub fn new(alloc: Global, value: Value, keys: &mut Keys) -> Result<DocSource, NotSource>
        requires { depth (view value) ≤ max_depth }
        ensures ok { IfOk result (λ source. source ≡ view value) }
        ensures not_whole { IsErrOf result NotSource.NotWhole ↔ (has_float (view value) ≡ true) }
        ensures not_object { IsErrOf result NotSource.NotObject
            ↔ ((has_float (view value) ≡ false) × (is_some (as_object (view value)) ≡ false)) }
    {
        if !is_whole(&value) {
            return Err(NotSource::NotWhole);
        }
        match object_in(value) {
            Some(members) => DocSource::of_members(alloc, members, keys),
            None => Err(NotSource::NotObject),
        }
    }

    /// The source that an object is. It fails only for want of memory.
    fn of_members(
        alloc: Global,
        members: Map<String, Value>,
        keys: &mut Keys,
    ) -> Result<DocSource, NotSource>
        requires { IsSource (object (members_view members.entries)) }
        ensures ok { IfOk result (λ source. source ≡ object (members_view members.entries)) }
        ensures err { IfErr result (λ fault. fault ≡ NotSource.Memory) }
    {
        match members_of(alloc, members, keys) {
            Ok(members) => Ok(DocSource { members }),
            Err(_) => Err(NotSource::Memory),
        }
    }

    /// The members, in the order of their keys, each key once.
    pub fn members(&self) -> &[Member]
        ensures all { object (members_in result.now) ≡ self.now }
        ensures alone { AllByRecursion (λ m. values_at m.key self.now ≡ view m.value ∷ []) result.now }
    {
        self.members.get().as_slice()
    }

    /// The value at a key, where there is one. There are no others at that key.
    pub fn get(&self, key: &str) -> Option<&Value>
        ensures source { IsSource self.now }
        ensures found { option_map (λ v. view v.now) result ≡ get key.now self.now }
        ensures alone { values_at key.now self.now ≡ option_to_list (get key.now self.now) }
    {
        for member in self.members.get().as_slice() {
            if key == member.key.get().as_str() {
                return Some(&member.value);
            }
        }
        None
    }

    /// An equal source, which takes no memory. It fails only where there are 2^63 of them.
    pub fn copy(&self) -> Result<DocSource, AllocError>
        ensures { IfOk result (λ source. source ≡ self.now) }
    {
        let members = self.members.copy()?;
        Ok(DocSource { members })
    }

    /// Appends the source as compact JSON, an object's keys in byte order. Where memory runs out nothing was appended.
    pub fn print(&self, alloc: Global, out: &mut Vec<u8>) -> Result<(), AllocError>
        ensures ok { OnOk result (out.new.items ≡ out.old.items ++ compact_text self.now) }
        ensures err { OnErr result (out.new.items ≡ out.old.items) }
    {
        let mut text = Vec::new(alloc);
        text.push(b'{')?;
        push_members(alloc, &mut text, self.members.get().as_slice())?;
        out.extend_from_slice(text.as_slice())
    }
}

/// The members of a value, where it is an object.
fn object_in(value: Value) -> Option<Map<String, Value>>
    ensures { option_map (λ members. object (members_view members.entries)) result ≡ object_or_none (view value) }
{
    match value {
        Value::Object(members) => Some(members),
        _other => None,
    }
}

/// The members of an object, in the order of their keys. It fails only for want of memory.
fn members_of(
    alloc: Global,
    map: Map<String, Value>,
    keys: &mut Keys,
) -> Result<Shared<Items<Member>>, AllocError>
    ensures same { IfOk result (λ members. members_in members ≡ members_view map.entries) }
    ensures ordered { IfOk result (λ members. AreOrdered members) }
{
    let mut members = Vec::with_capacity(alloc, map.len())?;
    for (key, value) in map {
        let key = keys.shared(key)?;
        members.push(Member { key, value })?;
    }
    Ok(Shared::new(alloc, Items::from_vec(members))?)
}

/// Appends the members of an object as compact JSON, and the bracket behind them. Where memory runs out some may be appended.
fn push_members(alloc: Global, out: &mut Vec<u8>, members: &[Member]) -> Result<(), AllocError>
    requires { members_have_float (members_in members.now) ≡ false }
    ensures { OnOk result (out.new.items ≡ out.old.items ++ members_text false (members_in members.now)) }
{
    let mut later = false;
    for member in members {
        push_member(alloc, out, later, member)?;
        later = true;
    }
    out.extend_from_slice(b"}")
}

/// Appends a member as compact JSON, behind a comma, if one stands before. Where memory runs out a part may be appended.
fn push_member(
    alloc: Global,
    out: &mut Vec<u8>,
    later: bool,
    member: &Member,
) -> Result<(), AllocError>
    requires { has_float (view member.now.value) ≡ false }
    ensures { OnOk result (out.new.items ≡ out.old.items ++ member_text later member.now) }
{
    if later {
        out.extend_from_slice(b",")?;
    }
    out.extend_from_slice(member.key.get().as_json().as_bytes())?;
    out.extend_from_slice(b":")?;
    let json = member.value.to_string(alloc)?;
    out.extend_from_slice(json.as_bytes())
}
