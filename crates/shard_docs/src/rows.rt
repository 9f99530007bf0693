//! The rows of a shard, of which it may forget those that nobody can read any more.

ghost use Rattle.std.specs.Prelude.{◌≡◌, ℕ, ◌+◌, ◌<◌, ◌≤◌, ◌++◌, ◌∷◌, [], None, Some, length, drop, set, find, slice_get, option_copied, option_map, OnOk, IfSome};
ghost use Rattle.shard_docs.specs.Deaths.{is_alive_before};
ghost use Rattle.shard_docs.specs.KeptRows.{shown, AreKept, below};
ghost use Rattle.shard_docs.specs.SeenRows.{new_row, doc_alive, forgotten};

use std::alloc::{AllocError, Global};
use std::marker::Model;
use task_ids::Doc;

/// A document that was written, its place, and the version at which another took its place.
#[derive(Drop)]
pub(crate) struct StoredRow {
    pub(crate) place: u32,
    pub(crate) doc: Doc,
    died: Option<u32>,
}

impl StoredRow {
    /// Whether no other document has taken its place before a version.
    fn is_alive_at(&self, version: u32) -> bool
        ensures { result ≡ is_alive_before version self.now.died }
    {
        match self.died {
            Some(died) => version < died,
            None => true,
        }
    }
}

/// The rows of a shard in the order of their writes. Contracts see one for each write, and the version from which on
/// they can be read: a row that is dead at that version is forgotten, and seen as one of the next row's document, which
/// takes its place at once.
#[derive(Drop)]
pub(crate) struct Rows {
    /// Those that are kept, by place. Forgotten ones may be among them until they are swept out.
    kept: Vec<StoredRow>,
    oldest: u32,
}

impl Model for Rows {
    ghost use Rattle.std.specs.Prelude.{◌-◌, length, vec_capacity};
    ghost use Rattle.shard_docs.specs.KeptRows.{shown, AreKept};
    ghost use Rattle.shard_docs.specs.SeenRows.{SeenRows, coded_rows};

    ghost Value = { SeenRows };

    ghost coded = { coded_rows };

    ghost view = { λ s. record { rows = shown s.oldest 0 s.kept.items; oldest = s.oldest; room = vec_capacity s.kept - length s.kept.items } };

    ghost invariant = { λ s. AreKept s.oldest 0 s.kept.items };
}

/// How many rows, from the first on, have places below one.
fn position(rows: &[StoredRow], place: u32) -> usize
    requires { (oldest : ℕ) × AreKept oldest 0 rows.now }
    ensures count { result ≡ below place rows.now }
    ensures within { result ≤ length rows.now }
{
    match rows.get(place as usize) {
        // nothing was swept out before it
        Some(row) if row.place == place => place as usize,
        _ => rows.partition_point(|row| row.place < place),
    }
}

/// The rows from a place on.
fn rows_from(rows: &[StoredRow], place: u32) -> &[StoredRow]
    requires { (oldest : ℕ) × AreKept oldest 0 rows.now }
    ensures { result.now ≡ drop (below place rows.now) rows.now }
{
    &rows[position(rows, place)..]
}

/// The first of some rows that is not forgotten.
fn first_kept(rows: &[StoredRow], oldest: u32) -> Option<&StoredRow>
    ensures { option_copied result ≡ find (λ row. is_alive_before oldest row.died) rows.now }
{
    for row in rows {
        if row.is_alive_at(oldest) {
            return Some(row);
        }
    }
    None
}

impl Rows {
    /// No row, which takes no memory.
    pub(crate) fn new(alloc: Global) -> Rows
        ensures rows { result.rows ≡ [] }
        ensures oldest { result.oldest ≡ 0 }
    {
        Rows {
            kept: Vec::new(alloc),
            oldest: 0,
        }
    }

    /// How many rows there are, forgotten ones too.
    pub(crate) fn len(&self) -> usize
        ensures { result ≡ length self.now.rows }
    {
        match self.kept.last() {
            Some(row) => row.place as usize + 1,
            None => 0,
        }
    }

    /// How many rows take memory, forgotten ones too that are not swept out.
    pub(crate) fn stored(&self) -> usize {
        self.kept.len()
    }

    /// The version from which on rows can be read.
    pub(crate) fn oldest(&self) -> u32
        ensures { result ≡ self.now.oldest }
    {
        self.oldest
    }

    pub(crate) fn allocator(&self) -> &Global {
        self.kept.allocator()
    }

    /// The rows that are kept, and perhaps forgotten ones that are not swept out.
    pub(crate) fn kept(&self) -> &[StoredRow]
        ensures seen { self.now.rows ≡ shown self.now.oldest 0 result.now }
        ensures kept { AreKept self.now.oldest 0 result.now }
    {
        self.kept.as_slice()
    }

    /// The document of a place, if its row is alive at a version.
    pub(crate) fn alive(&self, version: u32, place: u32) -> Option<&Doc>
        ensures { option_copied result ≡ doc_alive version (slice_get self.now.rows place) }
    {
        let rows = rows_from(self.kept.as_slice(), place);
        let row = rows.first()?;
        if row.place == place && row.is_alive_at(self.oldest) {
            return if row.is_alive_at(version) {
                Some(&row.doc)
            } else {
                None
            };
        }
        // what is forgotten is seen as alive at the version of its write alone
        if version.saturating_sub(place) > 1 {
            return None;
        }
        let row = first_kept(rows, self.oldest)?;
        Some(&row.doc)
    }

    /// The document that is seen at a place.
    pub(crate) fn doc(&self, place: u32) -> &Doc
        requires { place < length self.now.rows }
        ensures { Some result.now ≡ option_map (λ row. row.doc) (slice_get self.now.rows place) }
    {
        let rows = rows_from(self.kept.as_slice(), place);
        let Some(row) = first_kept(rows, self.oldest) else {
            unreachable!()
        };
        &row.doc
    }

    /// Makes room for one more row.
    pub(crate) fn reserve(&mut self) -> Result<(), AllocError>
        ensures rows { self.new.rows ≡ self.old.rows }
        ensures oldest { self.new.oldest ≡ self.old.oldest }
        ensures room { OnOk result (0 < self.new.room) }
    {
        self.kept.reserve(1)
    }

    /// Adds a row, which is alive.
    pub(crate) fn push(&mut self, doc: Doc)
        requires room { 0 < self.old.room }
        requires few { length self.old.rows < 4294967295 }
        ensures rows { self.new.rows ≡ self.old.rows ++ new_row doc ∷ [] }
        ensures oldest { self.new.oldest ≡ self.old.oldest }
    {
        let place = self.len() as u32;
        self.kept.push_reserved(StoredRow {
            place,
            doc,
            died: None,
        });
    }

    /// A living row that is not the last dies at a version.
    pub(crate) fn kill(&mut self, place: u32, version: u32)
        requires alive { IfSome (slice_get self.old.rows place) (λ row. row.died ≡ None) }
        requires behind { place + 1 < length self.old.rows }
        requires later { place + 1 < version }
        requires kept { self.old.oldest < version }
        ensures rows { IfSome (slice_get self.old.rows place) (λ row. self.new.rows ≡ set self.old.rows place (record row { died = Some version })) }
        ensures oldest { self.new.oldest ≡ self.old.oldest }
    {
        let at = position(self.kept.as_slice(), place);
        self.kept[at].died = Some(version);
    }

    /// Forgets the rows that are dead at a version, in one step for all.
    pub(crate) fn forget(&mut self, oldest: u32)
        requires { self.old.oldest ≤ oldest }
        ensures rows { self.new.rows ≡ forgotten oldest 0 self.old.rows }
        ensures oldest { self.new.oldest ≡ oldest }
    {
        self.oldest = oldest;
    }

    /// Gives the memory of forgotten rows back.
    pub(crate) fn sweep(&mut self)
        ensures rows { self.new.rows ≡ self.old.rows }
        ensures oldest { self.new.oldest ≡ self.old.oldest }
    {
        let oldest = self.oldest;
        self.kept.retain(|row| row.is_alive_at(oldest));
    }
}
