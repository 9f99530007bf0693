//! Items that lie in pieces, which follow one another.

ghost use Rattle.std.specs.Prelude.{◌≡◌, ◌+◌, ◌<◌, ◌≤◌, ◌∷◌, [], ◌++◌, length, take, drop, insert, remove, slice_set, slice_get, IfErr, IfOk, IfSome, IfNone, OnOk, OnErr, OnSome};
ghost use Rattle.std.specs.List.Sorted.{IsStrictlySortedBy};
ghost use Rattle.ranked.specs.Ranks.{IsFoundAt, IsGapFor};
ghost use Rattle.ranked.specs.Pieces.{AreFilled, ArePieces, HasRoom, IsSpot, joined, piece_at, rank, rank_or_end};

use crate::piece::{PIECE, Piece};
use std::alloc::{AllocError, AllocFailed, Global};
use std::collections::VecDeque;

/// So many items stay in a full piece that is cut in two.
const HALF: usize = PIECE / 2;

/// A piece, and a place in it, both counted from 0.
#[derive(Clone, Copy)]
pub(crate) struct Spot {
    pub(crate) piece: usize,
    pub(crate) place: usize,
}

/// Where the item of this rank lies.
pub(crate) fn spot_of<T>(pieces: &VecDeque<Piece<T>>, nth: usize) -> Option<Spot>
    ensures spot { IfSome result (IsSpot pieces.now.items) }
    ensures rank { IfSome result (λ spot. rank pieces.now.items spot ≡ nth) }
    ensures none { IfNone result (length (joined pieces.now.items) ≤ nth) }
{
    let mut at = 0;
    let mut left = nth;
    while at < pieces.len() {
        let len = pieces[at].len();
        if left < len {
            return Some(Spot {
                piece: at,
                place: left,
            });
        }
        left -= len;
        at += 1;
    }
    None
}

/// Takes the item of this spot out. A piece that had no other goes too, unless it is alone: then its memory stays, so that
/// where items come and go one at a time none of them takes any.
pub(crate) fn take_at<T: Drop>(pieces: &mut VecDeque<Piece<T>>, spot: Spot) -> Option<T>
    requires spot { IsSpot pieces.old.items spot }
    requires pieces { ArePieces pieces.old.items }
    ensures pieces { ArePieces pieces.new.items }
    ensures taken { result ≡ slice_get (joined pieces.old.items) (rank pieces.old.items spot) }
    ensures rest { OnSome result (joined pieces.new.items ≡ remove (joined pieces.old.items) (rank pieces.old.items spot)) }
    ensures none { IfNone result (pieces.new.items ≡ pieces.old.items) }
{
    let piece = &mut pieces[spot.piece];
    let item = piece.take(spot.place)?;
    if piece.len() == 0 && pieces.len() > 1 {
        pieces.remove(spot.piece);
    }
    Some(item)
}

/// The last piece, where it is not full.
fn last_with_room<T>(pieces: &VecDeque<Piece<T>>) -> Option<usize>
    requires { ArePieces pieces.now.items }
    ensures filled { IfNone result (AreFilled pieces.now.items) }
    ensures last { IfSome result (λ at. at + 1 ≡ length pieces.now.items) }
    ensures room { IfSome result (λ at. length (piece_at pieces.now.items at) < PIECE) }
{
    let last = pieces.len().checked_sub(1)?;
    if pieces[last].len() < PIECE {
        Some(last)
    } else {
        None
    }
}

/// Puts an item after all others. Where memory runs out it comes back.
pub(crate) fn push_last<T: Drop>(
    pieces: &mut VecDeque<Piece<T>>,
    alloc: Global,
    item: T,
) -> Result<(), AllocFailed<T>>
    requires { ArePieces pieces.old.items }
    ensures pieces { ArePieces pieces.new.items }
    ensures ok { OnOk result (joined pieces.new.items ≡ joined pieces.old.items ++ item ∷ []) }
    ensures err { OnErr result (pieces.new.items ≡ pieces.old.items) }
    ensures given_back { IfErr result (λ failed. failed.value ≡ item) }
{
    if let Some(last) = last_with_room(pieces) {
        let piece = &mut pieces[last];
        return piece.push_back(item);
    }
    if pieces.reserve(1).is_err() {
        return Err(AllocFailed { value: item });
    }
    let mut piece = Piece::new(alloc);
    piece.push_back(item)?;
    pieces.push_back_reserved(piece);
    Ok(())
}

/// Cuts a piece in two.
fn cut<T: Drop>(pieces: &mut VecDeque<Piece<T>>, at: usize) -> Result<(), AllocError>
    requires in_range { at < length pieces.old.items }
    requires long { HALF ≤ length (piece_at pieces.old.items at) }
    ensures ok { OnOk result (pieces.new.items ≡ insert (slice_set pieces.old.items at (take HALF (piece_at pieces.old.items at))) (at + 1) (drop HALF (piece_at pieces.old.items at))) }
    ensures err { OnErr result (pieces.new.items ≡ pieces.old.items) }
{
    pieces.reserve(1)?;
    let piece = &mut pieces[at];
    let rest = piece.cut(HALF)?;
    match pieces.insert(at + 1, rest) {
        Ok(()) => Ok(()),
        Err(_) => unreachable!(),
    }
}

/// The spot of the same rank in a piece that is not full. A full piece is cut in two.
fn with_room<T: Drop>(pieces: &mut VecDeque<Piece<T>>, spot: Spot) -> Result<Spot, AllocError>
    requires spot { IsSpot pieces.old.items spot }
    requires pieces { AreFilled pieces.old.items }
    ensures pieces { AreFilled pieces.new.items }
    ensures items { joined pieces.new.items ≡ joined pieces.old.items }
    ensures rank { IfOk result (λ new. rank pieces.new.items new ≡ rank pieces.old.items spot) }
    ensures room { IfOk result (HasRoom pieces.new.items) }
{
    if pieces[spot.piece].len() < PIECE {
        return Ok(spot);
    }
    cut(pieces, spot.piece)?;
    if spot.place <= HALF {
        return Ok(spot);
    }
    Ok(Spot {
        piece: spot.piece + 1,
        place: spot.place - HALF,
    })
}

/// Puts an item before the one of this spot. Where memory runs out it comes back.
fn insert_at<T: Drop>(
    pieces: &mut VecDeque<Piece<T>>,
    spot: Spot,
    item: T,
) -> Result<(), AllocFailed<T>>
    requires spot { IsSpot pieces.old.items spot }
    requires pieces { ArePieces pieces.old.items }
    ensures pieces { ArePieces pieces.new.items }
    ensures ok { OnOk result (joined pieces.new.items ≡ insert (joined pieces.old.items) (rank pieces.old.items spot) item) }
    ensures err { OnErr result (joined pieces.new.items ≡ joined pieces.old.items) }
    ensures given_back { IfErr result (λ failed. failed.value ≡ item) }
{
    match with_room(pieces, spot) {
        Ok(spot) => {
            let piece = &mut pieces[spot.piece];
            piece.insert(spot.place, item)
        }
        Err(_) => Err(AllocFailed { value: item }),
    }
}

/// Puts an item before the one of this spot, or after all others where there is none. Where memory runs out it comes back.
pub(crate) fn put<T: Drop>(
    pieces: &mut VecDeque<Piece<T>>,
    alloc: Global,
    spot: Option<Spot>,
    item: T,
) -> Result<(), AllocFailed<T>>
    requires spot { IfSome spot (IsSpot pieces.old.items) }
    requires pieces { ArePieces pieces.old.items }
    ensures pieces { ArePieces pieces.new.items }
    ensures ok { OnOk result (joined pieces.new.items ≡ insert (joined pieces.old.items) (rank_or_end pieces.old.items spot) item) }
    ensures err { OnErr result (joined pieces.new.items ≡ joined pieces.old.items) }
    ensures given_back { IfErr result (λ failed. failed.value ≡ item) }
{
    match spot {
        Some(spot) => insert_at(pieces, spot, item),
        None => push_last(pieces, alloc, item),
    }
}

/// Where the key is among ascending ones, or where it would go. Each piece has an item.
fn search_filled<K: Ord>(pieces: &VecDeque<Piece<K>>, key: &K) -> Result<Spot, Option<Spot>>
    requires pieces { AreFilled pieces.now.items }
    requires ordered { IsStrictlySortedBy K.cmp (joined pieces.now.items) }
    ensures spot { IfOk result (IsSpot pieces.now.items) }
    ensures found { IfOk result (λ spot. IsFoundAt K.cmp (joined pieces.now.items) key.now (rank pieces.now.items spot)) }
    ensures gap { IfErr result (λ gap. IfSome gap (IsSpot pieces.now.items)) }
    ensures absent { IfErr result (λ gap. IsGapFor K.cmp (joined pieces.now.items) key.now (rank_or_end pieces.now.items gap)) }
{
    let piece = pieces.partition_point(|piece| piece.ends_below(key));
    if piece == pieces.len() {
        return Err(None);
    }
    match pieces[piece].search(key) {
        Ok(place) => Ok(Spot { piece, place }),
        Err(place) => Err(Some(Spot { piece, place })),
    }
}

/// Where the key is among ascending ones, or where it would go. There is one piece, which may have no item.
fn search_alone<K: Ord>(pieces: &VecDeque<Piece<K>>, key: &K) -> Result<Spot, Option<Spot>>
    requires alone { length pieces.now.items ≡ 1 }
    requires ordered { IsStrictlySortedBy K.cmp (joined pieces.now.items) }
    ensures spot { IfOk result (IsSpot pieces.now.items) }
    ensures found { IfOk result (λ spot. IsFoundAt K.cmp (joined pieces.now.items) key.now (rank pieces.now.items spot)) }
    ensures gap { IfErr result (λ gap. IfSome gap (IsSpot pieces.now.items)) }
    ensures absent { IfErr result (λ gap. IsGapFor K.cmp (joined pieces.now.items) key.now (rank_or_end pieces.now.items gap)) }
{
    let piece = &pieces[0];
    match piece.search(key) {
        Ok(place) => Ok(Spot { piece: 0, place }),
        Err(place) => {
            if place == piece.len() {
                return Err(None);
            }
            Err(Some(Spot { piece: 0, place }))
        }
    }
}

/// Where the key is among ascending ones, or where it would go, with no spot for the place after all others.
pub(crate) fn search<K: Ord>(pieces: &VecDeque<Piece<K>>, key: &K) -> Result<Spot, Option<Spot>>
    requires pieces { ArePieces pieces.now.items }
    requires ordered { IsStrictlySortedBy K.cmp (joined pieces.now.items) }
    ensures spot { IfOk result (IsSpot pieces.now.items) }
    ensures found { IfOk result (λ spot. IsFoundAt K.cmp (joined pieces.now.items) key.now (rank pieces.now.items spot)) }
    ensures gap { IfErr result (λ gap. IfSome gap (IsSpot pieces.now.items)) }
    ensures absent { IfErr result (λ gap. IsGapFor K.cmp (joined pieces.now.items) key.now (rank_or_end pieces.now.items gap)) }
{
    // The usual row has one piece, which needs no search for it.
    if pieces.len() == 1 {
        search_alone(pieces, key)
    } else {
        search_filled(pieces, key)
    }
}
