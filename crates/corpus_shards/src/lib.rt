//! The shards of indices: where each document lies that the corpus has or that was written since.
#![tactic(auto)]

ghost use Rattle.std.specs.Prelude.{◌≡◌, ℕ, List, ◌++◌, ◌∷◌, [], ◌<◌, ◌^◌, ◌||◌, ◌-◌, ◌≤◌, true, false, length, map, take, slice_get, vec_len, Some, IfOk, IfSome, OnOk, OnErr, is_some};
ghost use Rattle.std.specs.List.{list_any, range_with_len};
ghost use Rattle.std.specs.HashMap.{get_by_text};
ghost use Rattle.std.specs.Str.{bytes_eq};
ghost use Rattle.task_ids.specs.Placing as placing;
ghost use Rattle.task_ids.specs.declared.corpus.Corpus.{Corpus};
ghost use Rattle.task_ids.specs.declared.corpus.CorpusLine.{CorpusLine};
ghost use Rattle.std.specs.Borrow.{sem};
ghost use Rattle.corpus_shards.specs.Lent.{LendsShard};
ghost use Rattle.shard_docs.specs.ShardView.{empty_shard, dead_rows, has_dead};
ghost use Rattle.corpus_shards.specs.Placed.{AreShards, has_index};
ghost use Rattle.corpus_shards.specs.Noted.{AreNoted, KeepsNotes};
ghost use Rattle.corpus_shards.specs.Stored.{ShownFrom, HasWritten, IsNotedAs, AllNoted, is_among, is_noted, bound_of, Forgets, shard_in, has_shards, was_there, NoneMade};

use shard_docs::{Shard, shard_of};
use shared_value::Shared;
use std::alloc::{AllocError, Global};
use std::collections::{HashMap, HashSet};
use task_ids::{Corpus, CorpusLine, Doc, Text};

/// A shard of an index in which rows have died that it may forget once nothing reads them.
#[derive(Drop)]
pub struct Stale {
    pub index: Shared<Text>,
    pub shard: u32,
}

/// The shards of each index that a document is of, that is known from the start, or that was made. The contracts of
/// this crate say when they have what was written (`HasWritten`).
#[derive(Drop)]
pub struct Shards {
    /// How many shards each index has.
    pub count: u32,
    /// The shards of an index, from 0.
    pub by_index: HashMap<String, Vec<Shard>>,
    /// The indices that were made: they were not there from the start.
    pub made: HashSet<String>,
    /// The shard of an index that has none: no document.
    pub empty: Shard,
    /// Where rows may be forgotten: it is looked for them nowhere else.
    pub stale: Vec<Stale>,
}

/// The number of the shard of a document, of so many.
fn number_of(doc: &Doc, count: u32) -> usize
    requires { 0 < count }
    ensures { result ≡ placing.shard_of doc.now.id count }
{
    shard_of(doc.id.get().as_str().as_bytes(), count) as usize
}

/// Writes a copy of a document.
fn write_copy(shard: &mut Shard, doc: &Doc) -> Result<(), AllocError>
    ensures ok { OnOk result (shard.new.writes ≡ shard.old.writes ++ doc.now ∷ []) }
    ensures oldest { shard.new.oldest ≡ shard.old.oldest }
    ensures few { OnOk result (length shard.new.writes < 2 ^ 32) }
{
    shard.write(doc.copy()?)?;
    let _version = shard.version();
    Ok(())
}

/// Shards without a document.
fn empty_shards(alloc: Global, count: u32) -> Result<Vec<Shard>, AllocError>
    ensures { IfOk result (λ shards. shards.items ≡ map (λ _. empty_shard) (range_with_len 0 count)) }
{
    let mut shards = Vec::with_capacity(alloc, count as usize)?;
    for _ in 0..count {
        shards.push(Shard::new(alloc))?;
    }
    Ok(shards)
}

/// Writes a copy of the document of a line to its shard.
fn place(
    alloc: Global,
    by_index: &mut HashMap<String, Vec<Shard>>,
    line: &CorpusLine,
    count: u32,
) -> Result<(), AllocError>
    requires some { 0 < count }
    requires as_many { (index : List ℕ) → IfSome (get_by_text by_index.old index) (λ shards. length shards.items ≡ count) }
    ensures { (lines : List CorpusLine) → AreShards lines count by_index.old
        → OnOk result (AreShards (lines ++ line.now ∷ []) count by_index.new) }
{
    let shard = number_of(&line.doc, count);
    if let Some(shards) = by_index.get_mut(line.index.as_str()) {
        return write_copy(&mut shards[shard], &line.doc);
    }
    let mut shards = empty_shards(alloc, count)?;
    write_copy(&mut shards[shard], &line.doc)?;
    by_index.insert(String::from_str(alloc, line.index.as_str())?, shards)?;
    Ok(())
}

/// Notes a shard of an index, if a row has died in it that is not forgotten. It fails only for want of memory.
fn note_if_dead(
    alloc: Global,
    stale: &mut Vec<Stale>,
    index: &str,
    number: u32,
    shard: &Shard,
) -> Result<(), AllocError>
    ensures noted { OnOk result (has_dead shard.now ≡ true → is_among stale.new.items index.now number ≡ true) }
    ensures still { KeepsNotes stale.old.items stale.new.items }
{
    if !shard.has_dead() {
        return Ok(());
    }
    let name = Text::new(String::from_str(alloc, index)?);
    let index = Shared::new(alloc, name)?;
    stale.push(Stale {
        index,
        shard: number,
    })?;
    Ok(())
}

/// Notes those shards of an index in which rows have died. It fails only for want of memory.
fn note_dead(
    alloc: Global,
    stale: &mut Vec<Stale>,
    index: &str,
    shards: &[Shard],
) -> Result<(), AllocError>
    ensures noted { OnOk result (AreNoted stale.new.items index.now shards.now) }
    ensures still { KeepsNotes stale.old.items stale.new.items }
{
    let mut number = 0u32;
    for shard in shards {
        note_if_dead(alloc, stale, index, number, shard)?;
        number = number.saturating_add(1);
    }
    Ok(())
}

/// Notes those of some shards in which rows have died. It fails only for want of memory.
fn stale_among(
    alloc: Global,
    by_index: &HashMap<String, Vec<Shard>>,
) -> Result<Vec<Stale>, AllocError>
    ensures { IfOk result (λ stale. (index : List ℕ) → IfSome (get_by_text by_index.now index) (λ shards. AreNoted stale.items index shards.items)) }
{
    let mut stale = Vec::new(alloc);
    for (index, shards) in by_index.iter() {
        note_dead(alloc, &mut stale, index.as_str(), shards.as_slice())?;
    }
    Ok(stale)
}

/// The version that is kept of a shard, or its newest one where none is.
fn bound(kept: Option<u32>, shard: &Shard) -> u32
    ensures { result ≡ bound_of kept shard.now }
{
    let newest = shard.version();
    match kept {
        Some(version) => version.min(newest),
        None => newest,
    }
}

impl Shards {
    /// The shards of a corpus, of which each index has so many. It copies the documents. It fails only for want of
    /// memory.
    pub fn new(alloc: Global, corpus: &Corpus, count: u32) -> Result<Shards, AllocError>
        requires { 0 < count }
        ensures written { IfOk result (λ shards. HasWritten corpus.now count (λ _ _. 0) shards) }
        ensures from_start { IfOk result (λ shards. (index : List ℕ)
            → was_there shards index ≡ has_index corpus.now.lines index) }
        ensures none_made { IfOk result (λ shards. NoneMade shards) }
        ensures noted { IfOk result (λ shards. AllNoted shards) }
    {
        let mut by_index = HashMap::new(alloc);
        for line in corpus.lines.as_slice() {
            place(alloc, &mut by_index, line, count)?;
        }
        let stale = stale_among(alloc, &by_index)?;
        Ok(Shards {
            count,
            by_index,
            made: HashSet::new(alloc),
            empty: Shard::new(alloc),
            stale,
        })
    }

    /// Whether the index was there from the start: some document of the corpus is of it, or it was known.
    pub fn has(&self, index: &str) -> bool
        ensures { result ≡ was_there self.now index.now }
    {
        self.by_index.contains_key(index) && !self.made.contains(index)
    }

    /// The shard of an index, from 0: the documents of the index that it has. It is empty where there is no such.
    pub fn get(&self, index: &str, shard: u32) -> &Shard
        requires { self.now.empty ≡ empty_shard }
        ensures { result.now ≡ shard_in self.now index.now shard }
    {
        let Some(shards) = self.by_index.get(index) else {
            return &self.empty;
        };
        match shards.get(shard as usize) {
            Some(shard) => shard,
            None => &self.empty,
        }
    }

    /// The shard of an index, from 0, to be written to, where the index has shards.
    pub fn get_mut(&mut self, index: &str, shard: u32) -> Option<&mut Shard>
        requires { IfSome (get_by_text self.old.by_index index.now) (λ shards. shard < length shards.items) }
        ensures* lent { sem 𝓛 (LendsShard self.entry index.now shard result) }
        ensures there { is_some result ≡ has_shards self.old index.now }
        ensures shard { IfSome result (λ found. found.now ≡ shard_in self.old index.now shard) }
    {
        let shards = self.by_index.get_mut(index)?;
        Some(&mut shards[shard as usize])
    }

    /// Forgets the rows of a shard that are dead at a version, and tells how many. There is nothing to forget where there is no
    /// such shard.
    fn purge(&mut self, index: &str, shard: u32, oldest: u32) -> u32
        requires { oldest ≤ length (shard_in self.old index.now shard).writes }
        ensures forgets { Forgets index.now shard oldest self.old self.new }
        ensures count { let s = shard_in self.old index.now shard in
            result ≡ dead_rows oldest s.writes - dead_rows s.oldest s.writes }
        ensures stale { self.new.stale ≡ self.old.stale }
        ensures empty { self.new.empty ≡ self.old.empty }
    {
        let Some(shards) = self.by_index.get_mut(index) else {
            return 0;
        };
        let place = shard as usize;
        if place >= shards.len() {
            return 0;
        }
        shards[place].purge(oldest)
    }

    /// The shard at a place of those that are noted forgets the rows that are dead at the version that is kept of it, or at its
    /// newest one where none is. It is noted no more where no dead row is left. It takes no memory.
    pub fn forget_noted(&mut self, place: usize, kept: Option<u32>)
        requires there { place < vec_len self.old.stale }
        requires empty { self.old.empty ≡ empty_shard }
        ensures forgets { (note : Stale) → slice_get self.old.stale.items place ≡ Some note
            → Forgets note.index note.shard (bound_of kept (shard_in self.old note.index note.shard)) self.old self.new }
        ensures noted { AllNoted self.old → AllNoted self.new }
        ensures before { take place self.new.stale.items ≡ take place self.old.stale.items }
    {
        let stale = self.stale.swap_remove(place);
        let index = stale.index.get().as_str();
        let oldest = bound(kept, self.get(index, stale.shard));
        self.purge(index, stale.shard, oldest);
        if self.get(index, stale.shard).has_dead() {
            self.stale.push_reserved(stale);
        }
    }

    /// Notes a shard in which rows have died. It fails only for want of memory, and then nothing is noted.
    pub fn note_stale(&mut self, index: Shared<Text>, shard: u32) -> Result<(), AllocError>
        ensures ok { OnOk result (is_noted self.new index shard ≡ true) }
        ensures noted { IsNotedAs self.old self.new }
    {
        self.stale.push(Stale { index, shard })?;
        Ok(())
    }

    /// Gives an index that has none its shards, without a document. It fails only for want of memory.
    fn add(&mut self, alloc: Global, index: &str) -> Result<(), AllocError>
        requires none { has_shards self.old index.now ≡ false }
        ensures added { OnOk result ((q : List ℕ) → has_shards self.new q
            ≡ (bytes_eq index.now q || has_shards self.old q)) }
        ensures err { OnErr result ((q : List ℕ) → has_shards self.new q ≡ has_shards self.old q) }
        ensures same { (q : List ℕ) (shard : ℕ) → shard_in self.new q shard ≡ shard_in self.old q shard }
        ensures stale { self.new.stale ≡ self.old.stale }
        ensures made { self.new.made ≡ self.old.made }
        ensures written { (corpus : Corpus) (shards : ℕ) (oldest : ShownFrom) → HasWritten corpus shards oldest self.old
            → HasWritten corpus shards oldest self.new }
    {
        let shards = empty_shards(alloc, self.count)?;
        self.by_index
            .insert(String::from_str(alloc, index)?, shards)?;
        Ok(())
    }

    /// The index is there from the start, though no document of the corpus may be of it: it has its shards. It fails
    /// only for want of memory. In either case no shard has another document than before.
    pub fn know(&mut self, alloc: Global, index: &str) -> Result<(), AllocError>
        requires none_made { NoneMade self.old }
        ensures known { OnOk result ((q : List ℕ) → was_there self.new q ≡ (bytes_eq index.now q || was_there self.old q)) }
        ensures err { OnErr result ((q : List ℕ) → was_there self.new q ≡ was_there self.old q) }
        ensures same { (q : List ℕ) (shard : ℕ) → shard_in self.new q shard ≡ shard_in self.old q shard }
        ensures stale { self.new.stale ≡ self.old.stale }
        ensures none_made { NoneMade self.new }
        ensures written { (corpus : Corpus) (shards : ℕ) (oldest : ShownFrom) → HasWritten corpus shards oldest self.old
            → HasWritten corpus shards oldest self.new }
    {
        if self.by_index.contains_key(index) {
            return Ok(());
        }
        self.add(alloc, index)
    }

    /// Each of some indices is there from the start. It fails only for want of memory. In either case no shard has another
    /// document than before.
    pub fn know_all(&mut self, alloc: Global, indices: &[Text]) -> Result<(), AllocError>
        requires none_made { NoneMade self.old }
        ensures known { OnOk result ((q : List ℕ) → was_there self.new q ≡ (was_there self.old q || list_any (bytes_eq q) indices.now)) }
        ensures same { (q : List ℕ) (shard : ℕ) → shard_in self.new q shard ≡ shard_in self.old q shard }
        ensures stale { self.new.stale ≡ self.old.stale }
        ensures written { (corpus : Corpus) (shards : ℕ) (oldest : ShownFrom) → HasWritten corpus shards oldest self.old
            → HasWritten corpus shards oldest self.new }
    {
        for index in indices {
            self.know(alloc, index.as_str())?;
        }
        Ok(())
    }

    /// Gives an index its shards, without a document, where it has none yet. It fails only for want of memory. In
    /// either case no shard has another document than before.
    pub fn make(&mut self, alloc: Global, index: &str) -> Result<(), AllocError>
        ensures made { OnOk result ((q : List ℕ) → has_shards self.new q
            ≡ (bytes_eq index.now q || has_shards self.old q)) }
        ensures err { OnErr result ((q : List ℕ) → has_shards self.new q ≡ has_shards self.old q) }
        ensures same { (q : List ℕ) (shard : ℕ) → shard_in self.new q shard ≡ shard_in self.old q shard }
        ensures stale { self.new.stale ≡ self.old.stale }
        ensures from_start { (q : List ℕ) → was_there self.new q ≡ was_there self.old q }
        ensures written { (corpus : Corpus) (shards : ℕ) (oldest : ShownFrom) → HasWritten corpus shards oldest self.old
            → HasWritten corpus shards oldest self.new }
    {
        if self.by_index.contains_key(index) {
            return Ok(());
        }
        self.made.insert(String::from_str(alloc, index)?)?;
        self.add(alloc, index)
    }
}
