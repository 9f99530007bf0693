//! The shards that one data worker holds of the indices: what the corpus has in them at first, and what is written since.
#![tactic(auto)]

ghost use Rattle.std.specs.Prelude.{◌≡◌, ◌<◌, ◌++◌, ◌∷◌, [], ℕ, List, length, true, vec_len, slice_get, IfOk, IfSome, OnOk, OnErr};
ghost use Rattle.std.specs.Borrow.{sem};
ghost use Rattle.std.specs.List.{position_or_len};
ghost use Rattle.task_ids.specs.declared.corpus.CorpusLine.{CorpusLine};
ghost use Rattle.shard_docs.specs.ShardView.{empty_shard};
ghost use Rattle.held_shards.specs.Held.{holds, shard_at, is_row, HasLines, SameShards, WritesTo, shard_of_row, no_row};
ghost use Rattle.held_shards.specs.Lent.{LendsRow};

use shard_docs::{Shard, shard_of};
use std::alloc::{AllocError, Global};
use task_ids::{Corpus, CorpusLine, Doc, Text};

/// A shard of an index.
#[derive(Drop)]
pub struct HeldShard {
    pub index: Text,
    /// Its number, from 0.
    pub number: u32,
    pub shard: Shard,
}

/// The shards of some numbers, of each index. An index has one here from the first use of it on; before that it is empty.
#[derive(Drop)]
pub struct HeldShards {
    alloc: Global,
    /// The numbers of the shards that are held, from 0.
    pub numbers: Vec<u32>,
    /// Those that were used.
    pub rows: Vec<HeldShard>,
}

impl HeldShard {
    /// Whether it is the shard of this number of the index.
    fn is_of(&self, index: &str, number: u32) -> bool
        ensures { result ≡ is_row index.now number self.now }
    {
        index == self.index.as_str() && self.number == number
    }
}

impl HeldShards {
    /// The shards of these numbers, of indices with so many shards, with the lines of the corpus that lie in them. It copies their
    /// documents, and fails only for want of memory.
    pub fn new(
        alloc: Global,
        corpus: &Corpus,
        count: u32,
        numbers: Vec<u32>,
    ) -> Result<HeldShards, AllocError>
        requires { 0 < count }
        ensures numbers { IfOk result (λ held. held.numbers ≡ numbers) }
        ensures lines { IfOk result (λ held. HasLines corpus.now.lines count held) }
    {
        let mut held = HeldShards {
            alloc,
            numbers,
            rows: Vec::new(alloc),
        };
        for line in corpus.lines.as_slice() {
            held.take_in(line, count)?;
        }
        Ok(held)
    }

    /// Whether the shard of this number, from 0, is held.
    pub fn holds(&self, number: u32) -> bool
        ensures { result ≡ holds self.now number }
    {
        self.numbers.iter().any(|held| *held == number)
    }

    /// How many documents were written to a shard of an index.
    pub fn version(&self, index: &str, number: u32) -> u32
        ensures { result ≡ length (shard_at self.now index.now number).writes }
    {
        match self.rows.get(self.found(index, number)) {
            Some(row) => row.shard.version(),
            None => 0,
        }
    }

    /// The document of a line is written, where its shard is held.
    fn take_in(&mut self, line: &CorpusLine, count: u32) -> Result<(), AllocError>
        requires { 0 < count }
        ensures lines { (lines : List CorpusLine) → HasLines lines count self.old
            → OnOk result (HasLines (lines ++ line.now ∷ []) count self.new) }
        ensures numbers { self.new.numbers ≡ self.old.numbers }
    {
        let number = shard_of(line.doc.id.get().as_str().as_bytes(), count);
        if self.holds(number) {
            return self.write(line.index.as_str(), number, &line.doc);
        }
        Ok(())
    }

    /// Writes a copy of a document.
    fn write(&mut self, index: &str, number: u32, doc: &Doc) -> Result<(), AllocError>
        ensures written { OnOk result (WritesTo index.now number doc.now self.old self.new) }
        ensures numbers { self.new.numbers ≡ self.old.numbers }
    {
        let place = self.place(index, number)?;
        self.get_mut(place).write(doc.copy()?)?;
        Ok(())
    }

    /// The place of a shard of an index, or the first after all where it was not used.
    fn found(&self, index: &str, number: u32) -> usize
        ensures { result ≡ position_or_len (is_row index.now number) self.now.rows.items }
    {
        let mut place = 0;
        for row in &self.rows {
            if row.is_of(index, number) {
                return place;
            }
            place += 1;
        }
        place
    }

    /// The place of a shard of an index among those that were used. One that was not is made, with no document. It fails only for
    /// want of memory. In either case no shard has another document than before.
    pub fn place(&mut self, index: &str, number: u32) -> Result<usize, AllocError>
        ensures place { IfOk result (λ place. (place ≡ position_or_len (is_row index.now number) self.new.rows.items)
            × (place < vec_len self.new.rows)) }
        ensures same { SameShards self.old self.new }
        ensures numbers { self.new.numbers ≡ self.old.numbers }
    {
        let place = self.found(index, number);
        if place < self.rows.len() {
            return Ok(place);
        }
        let index = Text::new(String::from_str(self.alloc, index)?);
        self.rows.push(HeldShard {
            index,
            number,
            shard: Shard::new(self.alloc),
        })?;
        Ok(place)
    }

    /// The shard at a place.
    pub fn get_mut(&mut self, place: usize) -> &mut Shard
        requires { place < vec_len self.old.rows }
        ensures* lent { sem 𝓛 (LendsRow self.entry place result) }
        ensures value { result.now ≡ shard_of_row self.old place }
    {
        let row = &mut self.rows[place];
        &mut row.shard
    }
}
