//! The keys of documents.

ghost use Rattle.std.specs.Prelude.{◌≡◌, string_bytes, IfOk};
ghost use Rattle.json.specs.Print.{quoted};
ghost use Rattle.serde_json.specs.Data.{string};
ghost use Rattle.serde_json.specs.Written.{compact_text};

use serde_json::Value;
use shared_value::Shared;
use std::alloc::{AllocError, Global};
use std::collections::HashMap;
use std::marker::Model;

/// How many keys are remembered, at most.
const MOST_KEYS: usize = 10_000;

/// A key, and how JSON writes it. Contracts see the bytes of the key.
#[derive(Drop)]
pub struct Key {
    name: String,
    json: String,
}

impl Model for Key {
    ghost use Rattle.std.specs.Prelude.{◌≡◌, List, ℕ, string_bytes};
    ghost use Rattle.json.specs.Print.{quoted};

    ghost Value = { List ℕ };

    ghost view = { λ k. string_bytes k.name };

    ghost invariant = { λ k. string_bytes k.json ≡ quoted (string_bytes k.name) };
}

impl Key {
    /// The key of this name, which moves in. It fails only for want of memory.
    pub fn new(alloc: Global, name: String) -> Result<Key, AllocError>
        ensures { IfOk result (λ key. key ≡ string_bytes name) }
    {
        let json = json_of(alloc, name.as_str())?;
        Ok(Key { name, json })
    }

    /// The key as it stands.
    pub fn as_str(&self) -> &str
        ensures { result.now ≡ self.now }
    {
        self.name.as_str()
    }

    /// The key as JSON writes it: between quotes, with what has to be escaped.
    pub fn as_json(&self) -> &str
        ensures { result.now ≡ quoted self.now }
    {
        self.json.as_str()
    }
}

/// A text as JSON writes it.
fn json_of(alloc: Global, text: &str) -> Result<String, AllocError>
    ensures { IfOk result (λ json. string_bytes json ≡ quoted text.now) }
{
    let value = Value::try_from_str(alloc, text)?;
    let json = value.to_string(alloc);
    drop(value);
    json
}

/// The keys of the documents that were read, each once, so that documents share them.
///
/// No more than 10,000 are remembered. A document may have others, which it shares with none.
#[derive(Drop)]
pub struct Keys {
    alloc: Global,
    known: HashMap<String, Shared<Key>>,
}

impl Keys {
    /// No key yet, which takes no memory.
    pub fn new(alloc: Global) -> Keys {
        Keys {
            alloc,
            known: HashMap::new(alloc),
        }
    }

    /// The key of this name: one that is known, or a new one. It fails only for want of memory.
    pub(crate) fn shared(&mut self, name: String) -> Result<Shared<Key>, AllocError>
        ensures { IfOk result (λ key. key ≡ string_bytes name) }
    {
        match self.known.get(name.as_str()) {
            Some(key) if key.get().as_str() == name.as_str() => key.copy(),
            _ => self.add(name),
        }
    }

    /// A new key of this name, which is known from now on, where there is room for it.
    fn add(&mut self, name: String) -> Result<Shared<Key>, AllocError>
        ensures { IfOk result (λ key. key ≡ string_bytes name) }
    {
        if self.known.len() >= MOST_KEYS {
            return Ok(Shared::new(self.alloc, Key::new(self.alloc, name)?)?);
        }
        let again = name.clone()?;
        let key = Shared::new(self.alloc, Key::new(self.alloc, name)?)?;
        self.known.insert(again, key.copy()?)?;
        Ok(key)
    }
}
