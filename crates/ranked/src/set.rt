//! An ordered set of which any key is found by its rank.

ghost use Rattle.std.specs.Prelude.{◌≡◌, ◌+◌, ◌<◌, false, true, not, length, slice_get, Some, IsTrue, IsSome, IfSome, IfOk, IfErr, OnOk, OnErr, if◌then◌else◌, ◌↔◌};
ghost use Rattle.std.specs.Bool.{OnFalse};
ghost use Rattle.std.specs.List.{All};
ghost use Rattle.std.specs.Option.{option_copied};
ghost use Rattle.std.specs.BTreeMap.{is_at};
ghost use Rattle.std.specs.BTreeMap.Range.{IsLeBy};
ghost use Rattle.std.specs.Set.{remove_key};
ghost use Rattle.std.specs.BTreeSet.{btree_set_len, contains, insert_key, IsEmpty, IsLowerBound, IsOrdered, IsUnchanged, Updates};

use crate::queue::Queue;
use std::alloc::{AllocFailed, Global};
use std::marker::Model;

/// A set of keys in ascending order, which are also found by rank. Contracts see it as they see a `BTreeSet`, by its keys.
///
/// The keys lie in pieces of at most 512. A key is found by a binary search over the pieces and one within its piece, and
/// by rank by a walk over the lengths of the pieces before its own; a change costs such searches, and a move within one piece.
#[derive(Drop)]
pub struct RankedSet<K: Ord> {
    keys: Queue<K>,
}

impl<K: Ord> Model for RankedSet<K> {
    ghost use Rattle.std.specs.List.Sorted.{IsStrictlySortedBy};
    ghost use Rattle.std.specs.BTreeSet.{BTreeSet};

    ghost Value = { BTreeSet K };

    ghost view = { λ a. record { keys = a.keys } };

    ghost invariant = { λ a. IsStrictlySortedBy K.cmp a.keys };
}

impl<K: Ord> RankedSet<K> {
    /// No keys, which takes no memory.
    pub fn new(alloc: Global) -> RankedSet<K>
        ensures empty { IsEmpty result }
        ensures len { btree_set_len result ≡ 0 }
        ensures ordered { IsOrdered K.cmp result }
    {
        RankedSet {
            keys: Queue::new(alloc),
        }
    }

    /// How many keys there are. It costs no search.
    pub fn len(&self) -> usize
        ensures len { result ≡ btree_set_len self.now }
        ensures ordered { IsOrdered K.cmp self.now }
    {
        self.keys.len()
    }

    /// Whether there is no key. It costs no search.
    pub fn is_empty(&self) -> bool
        ensures { IsTrue result ↔ (btree_set_len self.now ≡ 0) }
    {
        self.keys.is_empty()
    }

    /// The key of this rank, counted from 0. It costs a walk over the pieces before its own.
    pub fn nth(&self, rank: usize) -> Option<&K>
        ensures nth { option_copied result ≡ slice_get self.now.keys rank }
        ensures variant { IsSome result ↔ (rank < btree_set_len self.now) }
        ensures member { IfSome result (λ k. IsTrue (contains K.cmp self.now k.now)) }
        ensures ordered { IsOrdered K.cmp self.now }
    {
        self.keys.get(rank)
    }

    /// The least key. It costs no search.
    pub fn first(&self) -> Option<&K>
        ensures variant { IsSome result ↔ (0 < btree_set_len self.now) }
        ensures first { IfSome result (λ k. slice_get self.now.keys 0 ≡ Some k.now) }
        ensures member { IfSome result (λ k. IsTrue (contains K.cmp self.now k.now)) }
        ensures least { IfSome result (λ k. IsLowerBound K.cmp self.now k.now) }
        ensures all_from { IfSome result (λ k. All (IsLeBy K.cmp k.now) self.now.keys) }
    {
        self.keys.first()
    }

    /// Whether a key is there. It costs two binary searches, or one where there is one piece.
    pub fn contains(&self, key: &K) -> bool
        ensures { result ≡ contains K.cmp self.now key.now }
    {
        self.keys.has_key(key)
    }
}

impl<K: Ord + Drop> RankedSet<K> {
    /// Puts a key, and answers whether it is new; else the key that was there stays. Where memory runs out the key comes
    /// back, and the set has not changed. It costs a search and a move within a piece.
    pub fn insert(&mut self, key: K) -> Result<bool, AllocFailed<K>>
        // On success the set has `key`, other keys stay, and the result says if it was new.
        ensures added { IfOk result (λ added. added ≡ not (contains K.cmp self.old key)) }
        ensures updates { OnOk result (Updates K.cmp self.old self.new key true) }
        ensures keys { OnOk result (self.new.keys ≡ insert_key K.cmp self.old.keys key) }
        ensures unchanged { IfOk result (λ added. OnFalse added (IsUnchanged self.old self.new)) }
        ensures len { IfOk result (λ added. btree_set_len self.new ≡ btree_set_len self.old + (if added then 1 else 0)) }

        // On failure `key` comes back and the keys stay. Only a new key can fail.
        ensures value_returned { IfErr result (λ y. y.value ≡ key) }
        ensures err { OnErr result (IsUnchanged self.old self.new) }
        ensures absent { OnErr result (contains K.cmp self.old key ≡ false) }

        // The keys ascend.
        ensures ordered { IsOrdered K.cmp self.new }
    {
        self.keys.insert_key(key)
    }

    /// Takes a key out, and answers whether it was there. It costs a search and a move within a piece.
    pub fn remove(&mut self, key: &K) -> bool
        ensures test { result ≡ contains K.cmp self.old key.now }
        ensures updates { Updates K.cmp self.old self.new key.now false }
        ensures keys { self.new.keys ≡ remove_key (is_at (K.cmp key.now)) self.old.keys }
        ensures unchanged { OnFalse result (IsUnchanged self.old self.new) }
        ensures len { btree_set_len self.new + (if result then 1 else 0) ≡ btree_set_len self.old }
        ensures ordered { IsOrdered K.cmp self.new }
    {
        self.keys.take_key(key)
    }
}
