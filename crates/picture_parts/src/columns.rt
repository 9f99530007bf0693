// The columns in which bars stand, and the lanes that they make.

use crate::px::Px;
use crate::trace::{Bar, Thing};
use std::alloc::{AllocError, Global};
use task_ids::TaskId;

const LANE_GAP: Px = Px(6);

const LANE_PAD: Px = Px(4);

/// The least widths of the lane of the commands and of a node's.
const LEAST_COMMANDS: Px = Px(74);

const LEAST_LANE: Px = Px(38);

/// The gap between the columns of commands.
const COMMAND_GAP: Px = Px(24);

/// A lane: that of the commands or of a node.
#[derive(Clone, Copy)]
pub struct Lane {
    pub left: Px,
    pub right: Px,
}

/// The kinds of columns, in their order within a lane.
#[derive(Clone, Copy, PartialEq, Eq)]
enum Kind {
    Command,
    Task,
    Ban,
}

const KINDS: [Kind; 3] = [Kind::Command, Kind::Task, Kind::Ban];

fn kind_of(thing: &Thing) -> Kind {
    match thing {
        Thing::Command(_) | Thing::Tick(_) => Kind::Command,
        Thing::Task(_) | Thing::NoSlot { .. } => Kind::Task,
        Thing::Ban { .. } => Kind::Ban,
    }
}

/// Half the widths of bars. They have room for the longest name of their kind.
#[derive(Clone, Copy)]
pub struct Halves {
    command: Px,
    task: Px,
    ban: Px,
}

impl Halves {
    /// Those of these bars.
    pub fn of(bars: &[Bar]) -> Halves {
        let mut halves = Halves {
            command: Px(15),
            task: Px(22),
            ban: Px(31),
        };
        for bar in bars {
            halves.widen(&bar.thing);
        }
        halves
    }

    fn widen(&mut self, thing: &Thing) {
        match thing {
            Thing::Command(command) => self.command = self.command.max(half_of(digits(*command))),
            Thing::Task(task) => self.task = self.task.max(half_of(id_cells(*task))),
            Thing::Ban { parent, .. } => {
                let cells = id_cells(*parent).saturating_add(4);
                self.ban = self.ban.max(half_of(cells));
            }
            Thing::NoSlot { .. } | Thing::Tick(_) => {}
        }
    }

    /// Half the width of what stands for a thing.
    pub fn of_thing(&self, thing: &Thing) -> Px {
        match thing {
            Thing::NoSlot { .. } | Thing::Tick(_) => Px(9),
            _ => self.of_kind(kind_of(thing)),
        }
    }

    /// Half the width of a column's bars.
    fn of_kind(&self, kind: Kind) -> Px {
        match kind {
            Kind::Command => self.command,
            Kind::Task => self.task,
            Kind::Ban => self.ban,
        }
    }
}

/// Half the width of a bar that has room for a name of so many characters.
fn half_of(cells: usize) -> Px {
    Px(7) * cells / 2 + Px(3)
}

/// How many characters the id of a task has.
fn id_cells(task: TaskId) -> usize {
    digits(task.node)
        .saturating_add(digits(task.number))
        .saturating_add(2)
}

/// How many digits a number has.
fn digits(number: u32) -> usize {
    match number {
        0..=9 => 1,
        10..=99 => 2,
        100..=999 => 3,
        1_000..=9_999 => 4,
        10_000..=99_999 => 5,
        100_000..=999_999 => 6,
        1_000_000..=9_999_999 => 7,
        10_000_000..=99_999_999 => 8,
        100_000_000..=999_999_999 => 9,
        _ => 10,
    }
}

/// A column of a lane, for bars one after another.
#[derive(Clone, Copy)]
struct Column {
    lane: u32,
    kind: Kind,
    /// The first row at which it is free.
    free_from: usize,
    middle: Px,
}

/// All columns.
#[derive(Drop)]
pub struct Columns {
    columns: Vec<Column>,
}

impl Columns {
    /// No columns yet.
    pub fn new(alloc: Global) -> Columns {
        Columns {
            columns: Vec::new(alloc),
        }
    }

    /// The column of a bar: the first of its lane and kind that is free at its first row, else a new one. Bars come in the order of
    /// their first rows, of so many rows.
    pub fn take(&mut self, bar: &Bar, rows: usize) -> Result<usize, AllocError> {
        let lane = bar.thing.lane();
        let kind = kind_of(&bar.thing);
        let last = if bar.end.is_some() { bar.last } else { rows };
        let free_from = last.saturating_add(if kind == Kind::Command { 1 } else { 2 });
        let free = self.columns.iter().position(|column| {
            column.lane == lane && column.kind == kind && column.free_from <= bar.from
        });
        if let Some(found) = free {
            if let Some(column) = self.columns.get_mut(found) {
                column.free_from = free_from;
            }
            return Ok(found);
        }
        let found = self.columns.len();
        self.columns.push(Column {
            lane,
            kind,
            free_from,
            middle: Px(0),
        })?;
        Ok(found)
    }

    /// How many columns the nodes have.
    pub fn of_nodes(&self) -> usize {
        self.columns.iter().filter(|column| column.lane > 0).count()
    }

    /// Where a column stands.
    pub fn middle(&self, column: usize) -> Px {
        self.columns
            .get(column)
            .map_or(Px(0), |column| column.middle)
    }

    /// Places the lanes of the commands and of so many nodes from here on, with such a gap between the columns of a node.
    pub fn place(
        &mut self,
        nodes: u32,
        left: Px,
        halves: &Halves,
        gap: Px,
    ) -> Result<Vec<Lane>, AllocError> {
        let mut lanes = Vec::new(*self.columns.allocator());
        let mut left = left;
        for lane in 0..=nodes {
            let right = self.place_lane(lane, left, halves, gap);
            lanes.push(Lane { left, right })?;
            left = right + LANE_GAP;
        }
        Ok(lanes)
    }

    /// Places the columns of a lane from here on, and gives the lane's right edge.
    fn place_lane(&mut self, lane: u32, left: Px, halves: &Halves, gap: Px) -> Px {
        let mut right = left + LANE_PAD;
        for kind in KINDS {
            let gap = if kind == Kind::Command {
                COMMAND_GAP
            } else {
                gap
            };
            right = self.place_kind(lane, kind, right, halves.of_kind(kind) + gap / 2);
        }
        let least = if lane == 0 {
            LEAST_COMMANDS
        } else {
            LEAST_LANE
        };
        (right + LANE_PAD).max(left + least)
    }

    /// Places the columns of one kind of a lane from here on, each of which is twice this half wide, and gives their right edge.
    fn place_kind(&mut self, lane: u32, kind: Kind, left: Px, half: Px) -> Px {
        let mut right = left;
        for column in self.columns.iter_mut() {
            if column.lane == lane && column.kind == kind {
                column.middle = right + half;
                right = right + half + half;
            }
        }
        right
    }
}
