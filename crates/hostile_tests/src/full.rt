//! A world whose history is full: it answers that for ever, and its history stands still.
ghost use Rattle.std.specs.Prelude.{◌≡◌, ◌+◌, ◌≤◌, ◌<◌, OnOk, IfSome, Some, length};
ghost use Rattle.task_events.specs.Cancels.{last_command};

use es_io::MemSource;
use event_text::print_event;
use script_lang::Mode;
use std::alloc::{AllocError, Global};
use task_events::{History, Stop, Summary};
use task_ids::{Cluster, TaskId};
use top_parts::read_whole;
use world_steps::World;

/// One node with so many shards that a search has many events.
const WIDE: Cluster = Cluster {
    nodes: 1,
    shards: 15,
    slots: 256,
};

/// How many searches begin before the world settles. The node has room for their tasks.
const TOGETHER: u32 = 10;

/// So many searches have more events than a history holds, and so many without the last ten have not. Each has 99: its beginning, its root
/// and its end, and six for each of its 15 queries and its fetch, from the asking to the answer. There is room for those of 40,404 searches.
const SEARCHES: u32 = 40_410;

/// An input of one document, and of so many searches.
fn many_searches(alloc: Global, count: u32) -> Result<String, AllocError> {
    let mut input = String::new(alloc);
    input.push_str("{\"index\":{\"_index\":\"a\",\"_id\":\"1\"}}\n{\"v\":1}\n--\n")?;
    for _ in 0..count {
        input.push_str("{\"search\":{\"index\":\"a\"}}\n")?;
    }
    Ok(input)
}

/// Begins the next ten commands.
fn begin_together(world: &mut World<'_>, begun: u32) -> Result<(), Stop>
    requires begun { last_command world.old.past ≡ begun }
    requires there { begun + 10 ≤ length world.old.script.commands }
    requires few { length world.old.script.commands ≤ 65535 }
    ensures begun { OnOk result (last_command world.new.past ≡ begun + 10) }
    ensures keeps { world.new ≡ record world.old { past = world.new.past; stopped = world.new.stopped } }
{
    for k in begun..begun + TOGETHER {
        world.command(k + 1)?;
    }
    Ok(())
}

/// Settles, by which no command begins.
fn settle(world: &mut World<'_>) -> Result<(), Stop>
    ensures begun { last_command world.new.past ≡ last_command world.old.past }
    ensures keeps { world.new ≡ record world.old { past = world.new.past; stopped = world.new.stopped } }
{
    world.settle()
}

/// An early end to which settling came, and how many commands had begun.
#[derive(Clone, Copy)]
struct Full {
    begun: u32,
    stop: Stop,
}

/// Begins ten commands at a time and settles, until settling comes to an early end. There is none where that comes elsewhere or never.
fn fill(world: &mut World<'_>, count: u32) -> Option<Full>
    requires new { last_command world.old.past ≡ 0 }
    requires there { count ≤ length world.old.script.commands }
    requires few { length world.old.script.commands ≤ 65535 }
    ensures begun { IfSome result (λ full. (full.begun ≡ last_command world.new.past) × (full.begun ≤ count)) }
    ensures keeps { world.new ≡ record world.old { past = world.new.past; stopped = world.new.stopped } }
{
    for time in 0..count / TOGETHER {
        let begun = TOGETHER * time;
        begin_together(world, begun).ok()?;
        if let Err(stop) = settle(world) {
            return Some(Full {
                begun: begun + TOGETHER,
                stop,
            });
        }
    }
    None
}

/// What comes next: the next command, or the closing drain where all have begun.
fn go_on(world: &mut World<'_>, begun: u32, count: u32) -> Result<(), Stop>
    requires begun { last_command world.old.past ≡ begun }
    requires there { begun ≤ count }
    requires count { length world.old.script.commands ≡ count }
{
    if begun == count {
        world.drain()
    } else {
        world.command(begun + 1)
    }
}

/// Whether each move answers with this end.
fn ends_each_move(world: &mut World<'_>, stop: Stop) -> bool {
    let task = TaskId { node: 1, number: 1 };
    world.settle() == Err(stop)
        && world.deliver(0).err() == Some(stop)
        && world.step(task).err() == Some(stop)
        && world.list_step(1, task).err() == Some(stop)
        && world.shuffle(1, 10) == Err(stop)
}

/// What is seen of a history: its length, what it can still take, its sums, and the text of its newest event.
#[derive(Drop, PartialEq)]
struct Shown {
    length: usize,
    left: usize,
    summary: Summary,
    newest: Vec<u8>,
}

/// What is seen of a history now.
fn look_at(alloc: Global, history: &History) -> Result<Shown, AllocError> {
    let mut newest = Vec::new(alloc);
    if let Some(event) = history.newest() {
        print_event(event, "", &mut newest)?;
    }
    Ok(Shown {
        length: history.len(),
        left: history.left(),
        summary: history.summary(),
        newest,
    })
}

/// Whether a world whose history is full answers that to each call, and its history stays as it is. After the searches that fill it the
/// script has so many more.
fn stays_full(alloc: Global, more: u32) -> Result<bool, AllocError>
    requires few { more ≤ 1000 }
{
    let input = many_searches(alloc, SEARCHES + more)?.into_bytes();
    let mut source = MemSource::new(input, 65_536, Vec::new(alloc));
    let Ok((corpus, script)) = read_whole(alloc, Mode::Sim, &WIDE, &mut source) else {
        return Ok(false);
    };
    let count = script.commands.as_slice().len() as u32;
    let mut world = World::new(alloc, WIDE, &corpus, &script)?;
    let Some(full) = fill(&mut world, count) else {
        return Ok(false);
    };
    let before = look_at(alloc, world.history())?;
    let is_full = full.stop == Stop::HistoryFull && full.begun == SEARCHES && before.left == 0;
    let ends_next = go_on(&mut world, full.begun, count) == Err(full.stop);
    let ends_moves = ends_each_move(&mut world, full.stop);
    let ends_again = ends_each_move(&mut world, full.stop);
    let stands = look_at(alloc, world.history())? == before;
    let is_given = look_at(alloc, &world.finish())? == before;
    Ok(is_full && ends_next && ends_moves && ends_again && stands && is_given)
}

#[test]
fn a_full_history_stays_as_it_is(rt: HostRuntime) -> Result<(), AllocError> {
    // The next call is a drain, and then a command.
    for more in 0..2 {
        assert!(rt; stays_full(rt.alloc(), more)?, "{more}");
    }
    Ok(())
}
