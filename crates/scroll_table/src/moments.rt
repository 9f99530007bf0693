//! Moments at places, as a tree in which the soonest is found, and one is changed, in the time of a logarithm.
ghost use Rattle.std.specs.Prelude.{◌≡◌, ℕ, ◌+◌, ◌*◌, ◌^◌, ◌||◌, ◌==◌, ◌<◌, ◌≤◌, true, false, None, IfOk, IfSome, IfNone, if◌then◌else◌};
ghost use Rattle.scroll_table.specs.Moments as moments;
ghost use Rattle.scroll_table.specs.Moments.{moment_at, IsTree};

use std::alloc::{AllocError, Global};

/// At each of so many places a moment or none. The nodes below that number are the sooner of the two below them, which are at the
/// double and after it, and the others are the places.
#[derive(Drop)]
pub(crate) struct Moments {
    pub(crate) places: usize,
    nodes: Vec<Option<u64>>,
}

impl Moments {
    /// No place, which takes no memory.
    pub(crate) fn none(alloc: Global) -> Moments
        ensures tree { IsTree result }
        ensures places { result.places ≡ 0 }
    {
        Moments {
            places: 0,
            nodes: Vec::new(alloc),
        }
    }

    /// So many places with no moment.
    pub(crate) fn new(alloc: Global, places: usize) -> Result<Moments, AllocError>
        requires { 2 * places < 2 ^ 64 }
        ensures tree { IfOk result IsTree }
        ensures places { IfOk result (λ a. a.places ≡ places) }
        ensures none { IfOk result (λ a. (place : ℕ) → place < places → moment_at a place ≡ None) }
    {
        let mut nodes = Vec::new(alloc);
        nodes.resize(2 * places, None)?;
        Ok(Moments { places, nodes })
    }

    /// The moment of a place.
    pub(crate) fn get(&self, place: usize) -> Option<u64>
        requires tree { IsTree self.now }
        requires within { place < self.now.places }
        ensures { result ≡ moment_at self.now place }
    {
        self.nodes[self.places + place]
    }

    /// Another moment at a place.
    pub(crate) fn set(&mut self, place: usize, moment: Option<u64>)
        requires tree { IsTree self.old }
        requires within { place < self.old.places }
        ensures tree { IsTree self.new }
        ensures places { self.new.places ≡ self.old.places }
        ensures set { (q : ℕ) → q < self.old.places → moment_at self.new q
            ≡ (if q == place then moment else moment_at self.old q) }
    {
        let mut at = self.places + place;
        self.nodes[at] = moment;
        while at > 1 {
            at /= 2;
            self.nodes[at] = sooner(self.nodes[2 * at], self.nodes[2 * at + 1]);
        }
    }

    /// The moment of one place goes to another, and the first has none.
    pub(crate) fn move_to(&mut self, from: usize, to: usize)
        requires tree { IsTree self.old }
        requires from { from < self.old.places }
        requires to { to < self.old.places }
        ensures tree { IsTree self.new }
        ensures places { self.new.places ≡ self.old.places }
        ensures moved { (q : ℕ) → q < self.old.places → moment_at self.new q
            ≡ (if q == from then None else (if q == to then moment_at self.old from else moment_at self.old q)) }
    {
        let moment = self.get(from);
        self.set(from, None);
        if to != from {
            self.set(to, moment);
        }
    }

    /// A place whose moment has come, where there is one.
    pub(crate) fn due(&self, now: u64) -> Option<usize>
        requires { IsTree self.now }
        ensures within { IfSome result (λ place. place < self.now.places) }
        ensures due { IfSome result (λ place. moments.is_due now (moment_at self.now place) ≡ true) }
        ensures none { IfNone result ((place : ℕ) → place < self.now.places → moments.is_due now (moment_at self.now place) ≡ false) }
    {
        if self.places == 0 || !is_due(self.nodes[1], now) {
            return None;
        }
        let mut at = 1;
        while at < self.places {
            at *= 2;
            if !is_due(self.nodes[at], now) {
                at += 1;
            }
        }
        Some(at - self.places)
    }

    /// The same moments, and room for more.
    pub(crate) fn widened(&self, alloc: Global, places: usize) -> Result<Moments, AllocError>
        requires tree { IsTree self.now }
        requires wider { self.now.places ≤ places }
        requires fits { 2 * places < 2 ^ 64 }
        ensures tree { IfOk result IsTree }
        ensures places { IfOk result (λ a. a.places ≡ places) }
        ensures same { IfOk result (λ a. (q : ℕ) → q < self.now.places → moment_at a q ≡ moment_at self.now q) }
        ensures spare { IfOk result (λ a. (q : ℕ) → self.now.places ≤ q → q < places → moment_at a q ≡ None) }
    {
        let mut more = Moments::new(alloc, places)?;
        for place in 0..self.places {
            more.set(place, self.get(place));
        }
        Ok(more)
    }
}

/// Whether a moment has come, where there is one.
fn is_due(moment: Option<u64>, now: u64) -> bool
    ensures { result ≡ moments.is_due now moment }
{
    match moment {
        Some(moment) => moment <= now,
        None => false,
    }
}

/// The sooner of two moments.
fn sooner(one: Option<u64>, other: Option<u64>) -> Option<u64>
    ensures { (now : ℕ) → moments.is_due now result
        ≡ (moments.is_due now one || moments.is_due now other) }
{
    match (one, other) {
        (Some(a), Some(b)) => Some(a.min(b)),
        (None, _) => other,
        (_, None) => one,
    }
}
