//! A sequence of which any item is found by its rank.

ghost use Rattle.std.specs.Prelude.{◌≡◌, ◌<◌, ◌≤◌, ◌∷◌, [], ◌++◌, ◌==◌, length, insert, remove, slice_get, IfErr, IfOk, IfNone, IsSome, OnOk, OnErr, OnSome, ◌↔◌};
ghost use Rattle.std.specs.List.Sorted.{IsStrictlySortedBy};
ghost use Rattle.std.specs.Option.{option_copied};
ghost use Rattle.std.specs.List.{list_any};
ghost use Rattle.std.specs.BTreeMap.{is_at};
ghost use Rattle.ranked.specs.Ranks.{IsPutAnswer, IsTakeAnswer};

use crate::piece::Piece;
use crate::pieces::{push_last, put, search, spot_of, take_at};
use std::alloc::{AllocFailed, Global};
use std::collections::VecDeque;
use std::marker::Model;

/// A sequence of items, which are put in and taken out by rank. Contracts see their list.
///
/// The items lie in pieces of at most 512. An item is found by a walk over the lengths of the pieces before its own,
/// so the first one at once; a change then moves the items of one piece at most. A piece whose last item is taken is
/// gone, but for the last piece of all, whose memory is kept for the items to come. Pieces are not joined: where much was
/// taken from all over, they hold fewer items each, and there are more of them than the items need.
#[derive(Drop)]
pub struct Queue<T> {
    alloc: Global,
    len: usize,
    pieces: VecDeque<Piece<T>>,
}

impl<T> Model for Queue<T> {
    ghost use Rattle.std.specs.Prelude.{◌≡◌, List, length};
    ghost use Rattle.ranked.specs.Pieces.{ArePieces, joined};

    ghost Value = { List T };

    ghost view = { λ a. joined a.pieces.items };

    ghost invariant = { λ a. (a.len ≡ length (joined a.pieces.items)) × ArePieces a.pieces.items };
}

impl<T> Queue<T> {
    /// No items, which takes no memory.
    pub fn new(alloc: Global) -> Queue<T>
        ensures { result ≡ [] }
    {
        Queue {
            alloc,
            len: 0,
            pieces: VecDeque::new(alloc),
        }
    }

    /// How many items there are. It costs no walk.
    pub fn len(&self) -> usize
        ensures { result ≡ length self.now }
    {
        self.len
    }

    /// Whether there is no item. It costs no walk.
    pub fn is_empty(&self) -> bool
        ensures { result ≡ (length self.now == 0) }
    {
        self.len == 0
    }

    /// The first item. It costs no walk.
    pub(crate) fn first(&self) -> Option<&T>
        ensures found { option_copied result ≡ slice_get self.now 0 }
        ensures variant { IsSome result ↔ (0 < length self.now) }
    {
        self.pieces.front()?.get(0)
    }

    /// The item of this rank, counted from 0. It costs the walk.
    pub fn get(&self, nth: usize) -> Option<&T>
        ensures found { option_copied result ≡ slice_get self.now nth }
        ensures variant { IsSome result ↔ (nth < length self.now) }
    {
        let spot = spot_of(&self.pieces, nth)?;
        self.pieces[spot.piece].get(spot.place)
    }
}

impl<K: Ord> Queue<K> {
    /// Whether the key is among ascending ones. It costs a binary search over the pieces, where there is more than one, and
    /// one within a piece.
    pub(crate) fn has_key(&self, key: &K) -> bool
        requires { IsStrictlySortedBy K.cmp self.now }
        ensures { result ≡ list_any (is_at (K.cmp key.now)) self.now }
    {
        search(&self.pieces, key).is_ok()
    }
}

impl<K: Ord + Drop> Queue<K> {
    /// Puts a key among ascending ones, and answers whether it is new; else the key that was there stays. Where memory runs
    /// out it comes back. It costs a search and a move within a piece, and where the piece is full a cut of it in two.
    pub(crate) fn insert_key(&mut self, key: K) -> Result<bool, AllocFailed<K>>
        requires { IsStrictlySortedBy K.cmp self.old }
        ensures put { IsPutAnswer K.cmp self.old self.new key result }
        ensures given_back { IfErr result (λ failed. failed.value ≡ key) }
    {
        let gap = match search(&self.pieces, &key) {
            Ok(_) => return Ok(false),
            Err(gap) => gap,
        };
        let Some(len) = self.len.checked_add(1) else {
            return Err(AllocFailed { value: key });
        };
        put(&mut self.pieces, self.alloc, gap, key)?;
        self.len = len;
        Ok(true)
    }

    /// Takes a key out of ascending ones, and answers whether it was there. It costs a search and a move within a piece.
    pub(crate) fn take_key(&mut self, key: &K) -> bool
        requires { IsStrictlySortedBy K.cmp self.old }
        ensures { IsTakeAnswer K.cmp self.old self.new key.now result }
    {
        let Ok(spot) = search(&self.pieces, key) else {
            return false;
        };
        let _gone = take_at(&mut self.pieces, spot);
        self.len -= 1;
        true
    }
}

impl<T: Drop> Queue<T> {
    /// Puts an item after all others, without a walk. Where memory runs out it comes back, and nothing has changed.
    pub fn push_back(&mut self, item: T) -> Result<(), AllocFailed<T>>
        ensures ok { OnOk result (self.new ≡ self.old ++ item ∷ []) }
        ensures err { OnErr result (self.new ≡ self.old) }
        ensures given_back { IfErr result (λ failed. failed.value ≡ item) }
    {
        let Some(len) = self.len.checked_add(1) else {
            return Err(AllocFailed { value: item });
        };
        push_last(&mut self.pieces, self.alloc, item)?;
        self.len = len;
        Ok(())
    }

    /// Puts an item before the one of this rank, counted from 0, or after all others. It costs the walk, a move within a
    /// piece, and where the piece is full a cut of it in two. Where memory runs out the item comes back, and no other has moved.
    pub fn insert(&mut self, nth: usize, item: T) -> Result<(), AllocFailed<T>>
        requires { nth ≤ length self.old }
        ensures ok { OnOk result (self.new ≡ insert self.old nth item) }
        ensures err { OnErr result (self.new ≡ self.old) }
        ensures given_back { IfErr result (λ failed. failed.value ≡ item) }
    {
        let Some(len) = self.len.checked_add(1) else {
            return Err(AllocFailed { value: item });
        };
        let spot = spot_of(&self.pieces, nth);
        put(&mut self.pieces, self.alloc, spot, item)?;
        self.len = len;
        Ok(())
    }

    /// Takes the item of this rank out, counted from 0. There is none exactly past the end. It costs the walk and a move
    /// within a piece.
    pub fn take(&mut self, nth: usize) -> Option<T>
        ensures taken { result ≡ slice_get self.old nth }
        ensures rest { OnSome result (self.new ≡ remove self.old nth) }
        ensures none { IfNone result (self.new ≡ self.old) }
    {
        let spot = spot_of(&self.pieces, nth)?;
        let item = take_at(&mut self.pieces, spot)?;
        self.len -= 1;
        Some(item)
    }
}
