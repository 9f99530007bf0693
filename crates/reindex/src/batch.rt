//! A batch of documents, by the shards in which they lie.

ghost use Rattle.std.specs.Prelude.{◌≡◌, ◌<◌, ◌≤◌, ◌++◌, length, IfOk, OnOk};
ghost use Rattle.task_events.specs.BulkTask.{docs_in, part_with, parts_of};

use shard_docs::shard_of;
use shared_value::Shared;
use std::alloc::{AllocError, Global};
use task_events::{BulkAsk, BulkShardAsk};
use task_ids::{Doc, Items, Text};

/// Copies of the documents that lie in a shard, where their index has so many.
fn docs_in(alloc: Global, docs: &[Doc], shards: u32, shard: u32) -> Result<Vec<Doc>, AllocError>
    requires { 0 < shards }
    ensures { IfOk result (λ found. found.items ≡ docs_in docs.now shards shard) }
{
    let mut found = Vec::new(alloc);
    for doc in docs {
        if shard_of(doc.id.get().as_str().as_bytes(), shards) == shard {
            found.push(doc.copy()?)?;
        }
    }
    Ok(found)
}

/// Adds the part of a shard, where it has a document.
fn add_part(
    alloc: Global,
    parts: &mut Vec<Shared<BulkShardAsk>>,
    index: &Shared<Text>,
    shard: u32,
    docs: Vec<Doc>,
) -> Result<(), AllocError>
    ensures { OnOk result (parts.new.items ≡ parts.old.items ++ part_with index.now shard docs.items) }
{
    if docs.is_empty() {
        return Ok(());
    }
    let dest = index.copy()?;
    let docs = Items::from_vec(docs);
    parts.push(Shared::new(alloc, BulkShardAsk { dest, shard, docs })?)?;
    Ok(())
}

/// The documents of a batch, shard by shard, of each shard that has one.
pub(crate) fn parts_of(
    alloc: Global,
    ask: &BulkAsk,
    shards: u32,
) -> Result<Vec<Shared<BulkShardAsk>>, AllocError>
    requires { 0 < shards }
    ensures parts { IfOk result (λ parts. parts.items ≡ parts_of ask.now shards) }
    ensures few { IfOk result (λ parts. length parts.items ≤ shards) }
{
    let mut parts = Vec::new(alloc);
    for shard in 0..shards {
        let docs = docs_in(alloc, ask.docs.as_slice(), shards, shard)?;
        add_part(alloc, &mut parts, &ask.dest, shard, docs)?;
    }
    Ok(parts)
}
