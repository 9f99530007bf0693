//! A piece of a longer row of items.

ghost use Rattle.std.specs.Prelude.{◌≡◌, ◌≤◌, ◌∷◌, [], ◌++◌, length, take, drop, insert, remove, slice_get, IfErr, IfOk, IfNone, OnOk, OnErr, OnSome};
ghost use Rattle.std.specs.Option.{option_copied};
ghost use Rattle.std.specs.List.Sorted.{IsBinarySearchResult, IsSearchInRange};
ghost use Rattle.ranked.specs.Ranks.{ends_below};

use std::alloc::{AllocError, AllocFailed, Global};
use std::collections::VecDeque;
use std::marker::Model;

/// At most so many items lie in a piece.
pub(crate) const PIECE: usize = 512;

/// Items in a row. Contracts see their list.
#[derive(Drop)]
pub(crate) struct Piece<T> {
    items: VecDeque<T>,
}

impl<T> Model for Piece<T> {
    ghost use Rattle.std.specs.Prelude.{List};

    ghost Value = { List T };

    ghost view = { λ a. a.items.items };
}

impl<T> Piece<T> {
    /// No items, which takes no memory.
    pub(crate) fn new(alloc: Global) -> Piece<T>
        ensures { result ≡ [] }
    {
        Piece {
            items: VecDeque::new(alloc),
        }
    }

    /// How many items lie here.
    pub(crate) fn len(&self) -> usize
        ensures { result ≡ length self.now }
    {
        self.items.len()
    }

    /// The item of this place, counted from 0.
    pub(crate) fn get(&self, place: usize) -> Option<&T>
        ensures { option_copied result ≡ slice_get self.now place }
    {
        self.items.get(place)
    }

    /// Puts an item after all others. Where memory runs out it comes back.
    pub(crate) fn push_back(&mut self, item: T) -> Result<(), AllocFailed<T>>
        ensures ok { OnOk result (self.new ≡ self.old ++ item ∷ []) }
        ensures err { OnErr result (self.new ≡ self.old) }
        ensures given_back { IfErr result (λ failed. failed.value ≡ item) }
    {
        self.items.push_back(item)
    }

    /// Puts an item at this place, before the item that stood there. Where memory runs out it comes back.
    pub(crate) fn insert(&mut self, place: usize, item: T) -> Result<(), AllocFailed<T>>
        requires { place ≤ length self.old }
        ensures ok { OnOk result (self.new ≡ insert self.old place item) }
        ensures err { OnErr result (self.new ≡ self.old) }
        ensures given_back { IfErr result (λ failed. failed.value ≡ item) }
    {
        // Before all others it goes without a move of them.
        if place == 0 {
            return self.items.push_front(item);
        }
        self.items.insert(place, item)
    }

    /// Takes the item of this place out.
    pub(crate) fn take(&mut self, place: usize) -> Option<T>
        ensures taken { result ≡ slice_get self.old place }
        ensures rest { OnSome result (self.new ≡ remove self.old place) }
        ensures none { IfNone result (self.new ≡ self.old) }
    {
        // The first item goes without a move of the others.
        if place == 0 {
            return self.items.pop_front();
        }
        self.items.remove(place)
    }

    /// Cuts off the items from this place on.
    pub(crate) fn cut(&mut self, place: usize) -> Result<Piece<T>, AllocError>
        requires { place ≤ length self.old }
        ensures kept { OnOk result (self.new ≡ take place self.old) }
        ensures cut_off { IfOk result (λ rest. rest ≡ drop place self.old) }
        ensures err { OnErr result (self.new ≡ self.old) }
    {
        Ok(Piece {
            items: self.items.split_off(place)?,
        })
    }
}

impl<K: Ord> Piece<K> {
    /// Whether the last of the keys is below this one.
    pub(crate) fn ends_below(&self, key: &K) -> bool
        ensures { result ≡ ends_below K.cmp key.now self.now }
    {
        match self.items.back() {
            Some(last) => last.cmp(key).is_lt(),
            None => false,
        }
    }

    /// Where the key is among ascending ones, or where it would go.
    pub(crate) fn search(&self, key: &K) -> Result<usize, usize>
        ensures within { IsSearchInRange result (length self.now) }
        ensures place { IsBinarySearchResult (λ x. K.cmp x key.now) self.now result }
    {
        self.items.binary_search(key)
    }
}
