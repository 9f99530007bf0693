//! What the seats know. Of all but `Size` no value is ever made: only contracts speak of it.

/// How many words there are of each kind, and how many data seats.
#[derive(Clone, Copy)]
pub struct Size {
    /// The task words, 1 to 1,024.
    pub slots: usize,
    /// The ban words, 1 to 1,024.
    pub bans: usize,
    /// The data seats, 1 to 4.
    pub seats: usize,
}

/// One step: the word, the value seen in it, and the value left in it.
pub struct Did {
    pub word: u64,
    pub seen: u64,
    pub left: u64,
}

/// How far a ticket's check has come: the ban place that it loads next, or its end.
pub enum Progress {
    Next(u64),
    Clear,
    Banned(u64),
}

/// The ticket of a slot. The number is 0 where the seat has none there.
pub struct Hold {
    pub number: u64,
    /// The key of the parent, or 0 for a root.
    pub parent: u64,
    pub check: Progress,
    /// The nodes that the task may ask, as bits.
    pub cleared: u64,
    /// The bit of the node that was tracked and is still to be looked for, or 0.
    pub seek: u64,
}

/// What was loaded of a marked task's mask.
pub struct Mask {
    pub number: u64,
    pub nodes: u64,
}

/// The ban at a place, and the slot that its scan loads next. The parent's key is 0 where there is none.
pub struct Ban {
    pub parent: u64,
    pub cancel: u64,
    pub next: u64,
}

/// What a seat knows. The first seat is the control seat, and the others are data seats.
pub struct View {
    pub size: Size,
    /// 1 at the control seat.
    pub lead: u64,
    /// All steps of this seat, in order.
    pub steps: [Did; 0],
    /// The number drawn and not yet used, or 0.
    pub drawn: u64,
    /// The greatest number drawn, or 0.
    pub most: u64,
    /// 1 once a draw gave nothing.
    pub told: u64,
    /// For each slot.
    pub held: [Hold; 0],
    /// For each place.
    pub bans: [Ban; 0],
    /// 1 more than the slot about to be marked, or 0, and the word that was loaded there.
    pub about: u64,
    pub loaded: u64,
    /// The numbers that were marked, in order, and for each slot the one marked there last, or 0.
    pub marked: [u64; 0],
    pub last: [u64; 0],
    /// 1 more than the slot whose mask was loaded and whose word is still to be seen, or 0, and that mask.
    pub half: u64,
    pub half_mask: u64,
    pub masks: [Mask; 0],
    /// How many data seats have still to be split off, how many were joined again, and how many tickets they had.
    pub to_deal: u64,
    pub joined: u64,
    pub taken: u64,
    /// 1 once the seat was joined to the control seat.
    pub gone: u64,
}
