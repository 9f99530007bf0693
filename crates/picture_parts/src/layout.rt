// Where everything stands: lanes and columns from left to right, rows from top to bottom.

use crate::columns::{Columns, Halves, Lane};
use crate::px::Px;
use crate::trace::{Spot, Trace};
use std::alloc::{AllocError, Global};

/// The least width of a picture, that of a page.
const PAGE: Px = Px(900);

/// The height of a row.
pub const ROW: Px = Px(24);

/// The top edge of the first row.
pub const TOP: Px = Px(44);

/// What lies between the left edge and the texts of the events.
pub const TEXT_LEFT: Px = Px(42);

/// The most characters of an event's text that are shown.
pub const MAX_CELLS: usize = 34;

/// What lies beside the lanes.
const EDGE: Px = Px(12);

/// The least and the greatest gap between columns of a node.
const LEAST_GAP: Px = Px(16);

const MOST_GAP: Px = Px(200);

/// Where a bar stands from left to right.
#[derive(Clone, Copy)]
pub struct Place {
    pub middle: Px,
    /// Half its width.
    pub half: Px,
    /// The row of its end. What reaches it later meets a thin line.
    end: Option<usize>,
}

impl Place {
    /// Half its width at a row.
    fn half_at(&self, row: usize) -> Px {
        match self.end {
            Some(end) if end < row => Px(1),
            _ => self.half,
        }
    }
}

/// Where everything stands.
#[derive(Drop)]
pub struct Layout {
    pub lanes: Vec<Lane>,
    /// A place for each bar.
    places: Vec<Place>,
    /// How many rows there are.
    rows: usize,
    pub width: Px,
}

impl Layout {
    /// The layout of what a history tells, whose texts need so many characters.
    pub fn of(alloc: Global, trace: &Trace, cells: usize) -> Result<Layout, AllocError> {
        let mut columns = Columns::new(alloc);
        let mut of_bars = Vec::new(alloc);
        take_columns(trace, &mut columns, &mut of_bars)?;
        let halves = Halves::of(trace.bars.as_slice());
        let left = TEXT_LEFT + text_width(cells) + EDGE;
        let lanes = wide_lanes(&mut columns, trace.nodes, left, &halves)?;
        let mut places = Vec::new(alloc);
        push_places(trace, of_bars.as_slice(), &columns, &halves, &mut places)?;
        let right = right_edge(lanes.as_slice());
        Ok(Layout {
            lanes,
            places,
            rows: trace.rows,
            width: (right + EDGE).max(PAGE),
        })
    }

    /// Where a bar stands.
    pub fn place(&self, bar: usize) -> Place {
        let nowhere = Place {
            middle: Px(0),
            half: Px(0),
            end: None,
        };
        self.places.get(bar).copied().unwrap_or(nowhere)
    }

    /// The lane of a node, or of the commands.
    pub fn lane(&self, lane: u32) -> Lane {
        let nowhere = Lane {
            left: Px(0),
            right: Px(0),
        };
        self.lanes.get(lane as usize).copied().unwrap_or(nowhere)
    }

    /// The edges of two bars that face each other, each at its row.
    pub fn between(&self, start: &Spot, end: &Spot) -> (Px, Px) {
        let from = self.place(start.bar);
        let to = self.place(end.bar);
        let from_half = from.half_at(start.row);
        let to_half = to.half_at(end.row);
        if from.middle <= to.middle {
            (from.middle + from_half, to.middle - to_half)
        } else {
            (from.middle - from_half, to.middle + to_half)
        }
    }

    /// The bottom edge of the last row.
    pub fn bottom(&self) -> Px {
        TOP + ROW * self.rows
    }
}

/// Appends the column of each bar.
fn take_columns(
    trace: &Trace,
    columns: &mut Columns,
    of_bars: &mut Vec<usize>,
) -> Result<(), AllocError> {
    for bar in trace.bars.iter() {
        of_bars.push(columns.take(bar, trace.rows)?)?;
    }
    Ok(())
}

/// Places the lanes from here on, with the gaps between columns for which the page has room.
fn wide_lanes(
    columns: &mut Columns,
    nodes: u32,
    left: Px,
    halves: &Halves,
) -> Result<Vec<Lane>, AllocError> {
    let narrow = columns.place(nodes, left, halves, LEAST_GAP)?;
    let spare = PAGE - EDGE - right_edge(narrow.as_slice());
    let gap = (LEAST_GAP + spare / columns.of_nodes()).min(MOST_GAP);
    columns.place(nodes, left, halves, gap)
}

/// Appends the place of each bar, of its column.
fn push_places(
    trace: &Trace,
    of_bars: &[usize],
    columns: &Columns,
    halves: &Halves,
    places: &mut Vec<Place>,
) -> Result<(), AllocError> {
    for (bar, column) in trace.bars.iter().zip(of_bars) {
        places.push(Place {
            middle: columns.middle(*column),
            half: halves.of_thing(&bar.thing),
            end: bar.end,
        })?;
    }
    Ok(())
}

/// The middle of a row.
pub fn middle_of(row: usize) -> Px {
    TOP + ROW * row + ROW / 2
}

/// The width of a text of so many characters.
pub fn text_width(cells: usize) -> Px {
    Px(29) * cells / 4
}

/// The right edge of the last lane.
fn right_edge(lanes: &[Lane]) -> Px {
    lanes.last().map_or(Px(0), |lane| lane.right)
}
