//! What each kind of step tells: the seat's view after it, the moments before and after it with the events between
//! them, and that a mark or a ban that it finds has a number that the board's name allows.
ghost use Rattle.std.specs.Prelude.{ℕ, ◌≡◌, ◌≢◌, ◌<◌, ◌+◌, ◌-◌, ◌%◌, ◌^◌, [], ◌==◌, bit_or, bit_and};
ghost use prog.Atomic.{either};
ghost use Rattle.race_board.specs.Words.{number, cancel};
ghost use Rattle.race_board.specs.Board.{newcomer, both, spent, hold, ban, In};
ghost use Rattle.race_board.specs.Steps.{after_draw, after_claim, after_note, after_glance, after_check, after_end, after_ban, after_scan, after_mark, after_track, after_untrack, after_look, after_half, after_whole, after_lift};
ghost use Rattle.race_board.specs.StepEvents.{of_claim, of_check, of_end, of_ban, of_scan, of_mark, of_track_look, of_look, of_unban};
ghost use Rattle.race_board.specs.Turn.{Turned, MayMark, MayBan};

use crate::name::About;
use crate::views::View;
use atomic_table::{Join, Play, Split};
use std::marker::PhantomData;
use task_ids::BoardName;

pub(crate) struct Draw;

impl Play<(), View> for Draw {
    ghost then = { λ st m n m'. after_draw st m n m' × Turned st m m' n ((n + st.first) % 2 ^ 64) [] };
}

pub(crate) struct Claim;

impl Play<(), View> for Claim {
    ghost then = { λ st m n m'. after_claim st m n m' × Turned st m m' n (either (n == st.first) st.second n) (of_claim n st.second) };
}

pub(crate) struct Check<N, A> {
    name: PhantomData<(N, A)>,
}

impl<N: BoardName, A: About> Play<(), View> for Check<N, A> {
    ghost then = { λ st m n m'. after_check A.slot st m n m' × Turned st m m' n n (of_check (hold m.0 A.slot) st.word (m.0.size.slots + m.0.size.bans) n) × MayBan N.allowed n };
}

pub(crate) struct End<N> {
    name: PhantomData<N>,
}

impl<N: BoardName> Play<(), View> for End<N> {
    ghost then = { λ st m n m'. after_end st m n m' × Turned st m m' n st.first (of_end (hold m.0 (st.word - 1)) (hold m.0 (st.word - 1)).check) × MayMark N.allowed n };
}

pub(crate) struct Put;

impl Play<(), View> for Put {
    ghost then = { λ st m n m'. after_ban st m n m' × Turned st m m' n (either (n == st.first) st.second n) (of_ban (st.word - m.0.size.slots - 1) n st.second) × ((ban m.0 (st.word - m.0.size.slots - 1)).parent ≡ 0 → n ≡ 0) };
}

pub(crate) struct Scan<A> {
    about: PhantomData<A>,
}

impl<A: About> Play<(), View> for Scan<A> {
    ghost then = { λ st m n m'. after_scan A.place st m n m' × Turned st m m' n n (of_scan m.0 A.place st.word n) };
}

pub(crate) struct Note<N> {
    name: PhantomData<N>,
}

impl<N: BoardName> Play<(), View> for Note<N> {
    ghost then = { λ st m n m'. after_note st m n m' × Turned st m m' n n [] × MayMark N.allowed n };
}

pub(crate) struct Strike<A> {
    about: PhantomData<A>,
}

impl<A: About> Play<(), View> for Strike<A> {
    ghost then = { λ st m n m'. after_mark st m n m' × Turned st m m' n (either (n == st.first) st.second n) (of_mark A.place n st.first st.second) };
}

pub(crate) struct Lift;

impl Play<(), View> for Lift {
    ghost then = { λ st m n m'. after_lift st m n m' × Turned st m m' n st.first (of_unban (st.word - m.0.size.slots - 1)) };
}

pub(crate) struct Track;

impl Play<(), View> for Track {
    ghost then = { λ st m n m'. after_track st m n m' × Turned st m m' n (bit_or n st.first) [] };
}

pub(crate) struct Untrack;

impl Play<(), View> for Untrack {
    ghost then = { λ st m n m'. after_untrack st m n m' × Turned st m m' n (bit_and n st.first) [] };
}

pub(crate) struct TrackLook<N> {
    name: PhantomData<N>,
}

impl<N: BoardName> Play<(), View> for TrackLook<N> {
    ghost then = { λ st m n m'. after_look st m n m' × Turned st m m' n n (of_track_look (hold m.0 (st.word - 1)) n) × MayMark N.allowed n };
}

pub(crate) struct Look<N> {
    name: PhantomData<N>,
}

impl<N: BoardName> Play<(), View> for Look<N> {
    ghost then = { λ st m n m'. after_glance st m n m' × Turned st m m' n n (of_look (hold m.0 (st.word - 1)) n) × MayMark N.allowed n };
}

pub(crate) struct Half;

impl Play<(), View> for Half {
    ghost then = { λ st m n m'. after_half st m n m' × Turned st m m' n n [] × (n < 65536) };
}

pub(crate) struct Whole;

impl Play<(), View> for Whole {
    ghost then = { λ st m n m'. after_whole st m n m' × Turned st m m' n n [] × (n ≢ 0 → In (number n) m.0.marked → cancel n ≢ 0) };
}

pub(crate) struct Deal;

impl Split<View> for Deal {
    ghost left = { λ v. record v { to_deal = v.to_deal - 1 } };

    ghost right = { λ v. newcomer v.size 0 0 };
}

pub(crate) struct Glue;

impl Join<View> for Glue {
    ghost both = { both };

    ghost spent = { spent };
}
