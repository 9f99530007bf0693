//! How rounds end.
use std::fmt;
use std::fmt::Display;

/// How a task of a round ended.
#[derive(Clone, Copy, PartialEq, Eq)]
pub enum Fate {
    /// It was told that its parent is banned.
    Banned,
    /// It was marked before it was cleared to ask.
    MarkedFirst,
    /// It was cleared to ask and marked later, and the node is in the mask that was taken of it.
    AskedFirst,
    /// It ended in none of these ways.
    Wrong,
}

/// How a round ended: its two children, its root, and whether the board closed empty.
#[derive(Clone, Copy)]
pub struct Outcome {
    pub first: Fate,
    pub second: Fate,
    pub root: Fate,
    pub is_empty: bool,
}

impl Outcome {
    /// A round that could not be run.
    pub const WRONG: Outcome = Outcome {
        first: Fate::Wrong,
        second: Fate::Wrong,
        root: Fate::Wrong,
        is_empty: false,
    };

    /// Whether a child ended so.
    fn has_child(self, fate: Fate) -> bool {
        self.first == fate || self.second == fate
    }

    /// Whether something was not as it must be.
    fn is_wrong(self) -> bool {
        !self.is_empty || self.has_child(Fate::Wrong) || self.root == Fate::Wrong
    }
}

/// How many rounds had each outcome.
#[derive(Clone, Copy, Default)]
pub struct Fates {
    banned: u64,
    marked_first: u64,
    asked_first: u64,
    root_marked_first: u64,
    root_asked_first: u64,
    wrong: u64,
}

/// One more, where it is so.
fn more(count: u64, is_so: bool) -> u64 {
    if is_so {
        count.saturating_add(1)
    } else {
        count
    }
}

impl Fates {
    /// Counts a round.
    pub fn add(&mut self, outcome: Outcome) {
        self.banned = more(self.banned, outcome.has_child(Fate::Banned));
        self.marked_first = more(self.marked_first, outcome.has_child(Fate::MarkedFirst));
        self.asked_first = more(self.asked_first, outcome.has_child(Fate::AskedFirst));
        self.root_marked_first = more(self.root_marked_first, outcome.root == Fate::MarkedFirst);
        self.root_asked_first = more(self.root_asked_first, outcome.root == Fate::AskedFirst);
        self.wrong = more(self.wrong, outcome.is_wrong());
    }

    /// How many rounds did not end as they must.
    pub fn wrong(&self) -> u64 {
        self.wrong
    }
}

impl Display for Fates {
    fn fmt<W: fmt::Write>(&self, f: &mut fmt::Formatter<W>) -> fmt::Result {
        writeln!(
            f,
            "a child was told that its parent is banned: {}",
            self.banned
        )?;
        writeln!(
            f,
            "a child was marked before it might ask: {}",
            self.marked_first
        )?;
        writeln!(
            f,
            "a child asked and was marked later: {}",
            self.asked_first
        )?;
        writeln!(
            f,
            "the root was marked before it might ask again: {}",
            self.root_marked_first
        )?;
        write!(
            f,
            "the root asked again and was marked later: {}",
            self.root_asked_first
        )
    }
}
