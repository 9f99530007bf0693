//! Scripts for threads, which take no schedule, and the fields of lists, cancels, searches, scrolls, reindexes, shuffles and waits.
//!
//! Cases stand in texts, a line each, and one function goes over them: each way out of a test is proved, and each element of an array.

use script_lang::{Command, Mode, ScriptError, read_script};
use std::alloc::Global;
use task_ids::{Cause, Cluster};

const CLUSTER: Cluster = Cluster {
    nodes: 3,
    shards: 2,
    slots: 256,
};

/// How many commands are read of a script for a mode, or why it is refused.
fn counted_in(alloc: Global, mode: Mode, script: &str) -> Result<usize, ScriptError> {
    if script.len() > 67_108_864 {
        return Err(ScriptError::Memory { line: 0 });
    }
    match read_script(alloc, script.as_bytes(), 2, mode, &CLUSTER) {
        Ok(script) => Ok(script.commands.as_slice().len()),
        Err(error) => Err(error),
    }
}

/// How many commands are read of a script for threads, or why it is refused.
fn counted(alloc: Global, script: &str) -> Result<usize, ScriptError> {
    counted_in(alloc, Mode::Run, script)
}

/// What is told of a script whose first line is refused.
fn bad(cause: Cause) -> Result<usize, ScriptError> {
    bad_at(2, cause)
}

fn bad_at(line: u32, cause: Cause) -> Result<usize, ScriptError> {
    Err(ScriptError::Bad { line, cause })
}

/// Whether each line is a script of which so much is told.
fn all_are(alloc: Global, mode: Mode, lines: &str, want: Result<usize, ScriptError>) -> bool {
    for line in lines.lines() {
        if counted_in(alloc, mode, line) != want {
            return false;
        }
    }
    true
}

/// Whether each line is refused for this cause in a script for threads.
fn all_bad(alloc: Global, lines: &str, cause: Cause) -> bool {
    all_are(alloc, Mode::Run, lines, bad(cause))
}

/// What is told of a script of these lines and of one more.
fn with_line(alloc: Global, earlier: &str, line: &str) -> Result<usize, ScriptError> {
    match format!(in alloc; "{earlier}{line}") {
        Ok(script) => counted(alloc, script.as_str()),
        Err(_) => Err(ScriptError::Memory { line: 0 }),
    }
}

/// Whether each line is, behind these, one of which so much is told.
fn all_after(alloc: Global, earlier: &str, lines: &str, want: Result<usize, ScriptError>) -> bool {
    for line in lines.lines() {
        if with_line(alloc, earlier, line) != want {
            return false;
        }
    }
    true
}

/// Lines that say when something happens.
const SCHEDULES: &str = r#"{"settle":true}
{"history":true}
{"deliver":0}
{"step":"n1:1"}
{"step":5}
{"list_step":{"node":"n1","parent":"n1:1"}}
{"list_step":{"x":1}}
{"shuffle":{"seed":1,"moves":1}}
{"shuffle":5}
{"summary":true}"#;

#[test]
fn threads_take_no_schedule(rt: HostRuntime) {
    assert!(rt; all_bad(rt.alloc(), SCHEDULES, Cause::ScheduleLineInRun));
}

#[test]
fn threads_take_searches_and_cancels(rt: HostRuntime) {
    let alloc = rt.alloc();
    let script = "{\"search\":{\"index\":\"a\"}}\n{\"cancel\":{\"command\":1}}\n";
    assert!(rt; counted(alloc, script) == Ok(2));
    assert!(rt; counted(alloc, r#"{"cancel":{"command":1}}"#) == bad(Cause::BadReference));
    assert!(rt; counted(alloc, r#"{"search":{"x":1}}"#) == bad(Cause::UnknownField));
    assert!(rt; counted(alloc, r#"{"foo":1}"#) == bad(Cause::UnknownCommand));
}

const LISTS: &str =
    r#"{"list":{"group_by":"parents","actions":"*search*,","nodes":"n1","parent_task_id":"n9:1","detailed":true}}
{"list":{}}"#;

const BAD_LISTS: &str = r#"{"list":true}
{"list":{"group_by":"x"}}
{"list":{"actions":null}}
{"list":{"detailed":"true"}}
{"list":{"parent_task_id":1}}"#;

#[test]
fn reads_lists(rt: HostRuntime) {
    let alloc = rt.alloc();
    assert!(rt; all_are(alloc, Mode::Run, LISTS, Ok(1)));
    assert!(rt; all_bad(alloc, BAD_LISTS, Cause::BadField));
    assert!(rt; counted(alloc, r#"{"list":{"parent_task_id":"unset"}}"#) == bad(Cause::BadTaskId));
    assert!(rt;
        counted(alloc, r#"{"list":{"detailed":1,"reason":"x"}}"#) == bad(Cause::UnknownField)
    );
}

const CANCELS: &str = r#"{"cancel":{}}
{"cancel":{"actions":"","nodes":"n*"}}
{"cancel":{"parent_task_id":"n1:1"}}"#;

const BAD_CANCELS: &str = r#"{"cancel":{"task_id":"n1","nodes":"n1"}}
{"cancel":{"command":9,"nodes":"n1"}}"#;

#[test]
fn reads_cancels_by_a_filter(rt: HostRuntime) {
    let alloc = rt.alloc();
    assert!(rt; all_are(alloc, Mode::Run, CANCELS, Ok(1)));
    assert!(rt; all_bad(alloc, BAD_CANCELS, Cause::BadField));
    assert!(rt; counted(alloc, r#"{"cancel":{"parent_task_id":"n1"}}"#) == bad(Cause::BadTaskId));
}

#[test]
fn reads_opaque_ids(rt: HostRuntime) {
    let alloc = rt.alloc();
    let search = r#"{"search":{"index":"a","opaque_id":""}}"#;
    assert!(rt; counted(alloc, search) == Ok(1));
    let number = r#"{"search":{"index":"a","opaque_id":7}}"#;
    assert!(rt; counted(alloc, number) == bad(Cause::BadField));
}

/// Keep-alives that are written wrongly, are too short or are too long. The last but one would be 34,448,384 ms if it wrapped.
const BAD_KEEP_ALIVES: &str = r#"{"search":{"index":"a","scroll":1}}
{"search":{"index":"a","scroll":null}}
{"search":{"index":"a","scroll":""}}
{"search":{"index":"a","scroll":"m"}}
{"search":{"index":"a","scroll":"1"}}
{"search":{"index":"a","scroll":"0"}}
{"search":{"index":"a","scroll":"0s"}}
{"search":{"index":"a","scroll":"0ms"}}
{"search":{"index":"a","scroll":"01m"}}
{"search":{"index":"a","scroll":"+1m"}}
{"search":{"index":"a","scroll":"-1m"}}
{"search":{"index":"a","scroll":"1.5m"}}
{"search":{"index":"a","scroll":"1 m"}}
{"search":{"index":"a","scroll":" 1m"}}
{"search":{"index":"a","scroll":"1m "}}
{"search":{"index":"a","scroll":"1M"}}
{"search":{"index":"a","scroll":"1w"}}
{"search":{"index":"a","scroll":"1mm"}}
{"search":{"index":"a","scroll":"1sm"}}
{"search":{"index":"a","scroll":"1m1s"}}
{"search":{"index":"a","scroll":"25h"}}
{"search":{"index":"a","scroll":"86401s"}}
{"search":{"index":"a","scroll":"86400001ms"}}
{"search":{"index":"a","scroll":"18446744073709551616ms"}}
{"search":{"index":"a","scroll":"213503982335d"}}
{"scroll":{"scroll_id":"n1:1","scroll":"2d"}}"#;

/// Milliseconds, or a word where there is no keep-alive, and the line that says so.
const KEEP_ALIVES: &str = r#"none {"search":{"index":"a"}}
1 {"search":{"index":"a","scroll":"1ms"}}
90000 {"search":{"index":"a","scroll":"90s"}}
86400000 {"search":{"index":"a","scroll":"1440m"}}
82800000 {"search":{"index":"a","scroll":"23h"}}
86400000 {"search":{"index":"a","scroll":"1d"}}
none {"scroll":{"scroll_id":"n9:1"}}
300000 {"scroll":{"scroll_id":"n9:1","scroll":"5m"}}"#;

/// The keep-alive of a line, in milliseconds.
fn keep_alive_of(alloc: Global, line: &str) -> Option<u64> {
    if line.len() > 67_108_864 {
        return None;
    }
    let script = read_script(alloc, line.as_bytes(), 2, Mode::Sim, &CLUSTER).ok()?;
    match script.commands.as_slice().first() {
        Some(Command::Search { scroll, .. }) => *scroll,
        Some(Command::Scroll { keep, .. }) => *keep,
        _ => None,
    }
}

/// Whether a line is read, and has the keep-alive that stands before it.
fn has_keep_alive(alloc: Global, row: &str) -> bool {
    match row.split_once(' ') {
        Some((want, line)) => {
            counted(alloc, line) == Ok(1) && keep_alive_of(alloc, line) == want.parse::<u64>().ok()
        }
        None => false,
    }
}

fn all_have_keep_alives(alloc: Global, rows: &str) -> bool {
    for row in rows.lines() {
        if !has_keep_alive(alloc, row) {
            return false;
        }
    }
    true
}

#[test]
fn reads_keep_alives(rt: HostRuntime) {
    assert!(rt; all_have_keep_alives(rt.alloc(), KEEP_ALIVES));
    assert!(rt; all_bad(rt.alloc(), BAD_KEEP_ALIVES, Cause::BadField));
}

const BAD_CONTEXTS: &str = r#"{"scroll":{}}
{"scroll":5}
{"scroll":{"scroll_id":"n1:1","command":1}}
{"scroll":{"scroll_id":5}}
{"scroll":{"scroll_id":"x","opaque_id":5}}
{"scroll":{"command":9,"scroll":"1"}}
{"clear_scroll":{}}
{"clear_scroll":{"scroll_id":"n1:1","command":1}}"#;

const BAD_CONTEXT_IDS: &str = r#"{"scroll":{"scroll_id":"x"}}
{"scroll":{"scroll_id":"unset"}}
{"clear_scroll":{"scroll_id":"n1:01"}}"#;

const UNKNOWN_IN_CONTEXTS: &str = r#"{"scroll":{"command":9,"index":"a"}}
{"clear_scroll":{"scroll_id":"n1:1","scroll":"1m"}}"#;

#[test]
fn reads_contexts(rt: HostRuntime) {
    let alloc = rt.alloc();
    assert!(rt; all_bad(alloc, BAD_CONTEXTS, Cause::BadField));
    assert!(rt; all_bad(alloc, BAD_CONTEXT_IDS, Cause::BadTaskId));
    assert!(rt; all_bad(alloc, UNKNOWN_IN_CONTEXTS, Cause::UnknownField));
    assert!(rt; counted(alloc, r#"{"clear_scroll":{"scroll_id":"n15:1"}}"#) == Ok(1));
}

/// A search with a context, a page of it, a search without one, and a clear.
const SCROLLS: &str = r#"{"search":{"index":"a","scroll":"1m"}}
{"scroll":{"command":1,"opaque_id":"q"}}
{"search":{"index":"a"}}
{"clear_scroll":{"command":1}}
{"cancel":{"command":2}}
"#;

const NAMES: &str = r#"{"scroll":{"command":1}}
{"clear_scroll":{"command":1}}
{"cancel":{"command":1}}"#;

/// Names of commands that are later, have no context, or can not be cancelled.
const BAD_NAMES: &str = r#"{"scroll":{"command":0}}
{"scroll":{"command":2}}
{"scroll":{"command":3}}
{"clear_scroll":{"command":4}}
{"clear_scroll":{"command":6}}
{"clear_scroll":{"command":-1}}
{"cancel":{"command":4}}
{"cancel":{"command":5}}"#;

#[test]
fn names_earlier_commands(rt: HostRuntime) {
    let alloc = rt.alloc();
    assert!(rt; counted(alloc, SCROLLS) == Ok(5));
    assert!(rt; all_after(alloc, SCROLLS, NAMES, Ok(6)));
    assert!(rt; all_after(alloc, SCROLLS, BAD_NAMES, bad_at(7, Cause::BadReference)));
    let text = r#"{"clear_scroll":{"command":"1"}}"#;
    assert!(rt; with_line(alloc, SCROLLS, text) == bad_at(7, Cause::BadField));
}

/// The slices and the rate of a line that is a reindex.
fn pace_of(alloc: Global, line: &str) -> Option<(u32, Option<u32>)> {
    if line.len() > 67_108_864 {
        return None;
    }
    let script = read_script(alloc, line.as_bytes(), 2, Mode::Run, &CLUSTER).ok()?;
    match script.commands.as_slice().first() {
        Some(Command::Reindex { slices, rate, .. }) => Some((*slices, *rate)),
        _ => None,
    }
}

/// Whether a line is a reindex with these slices and this rate.
fn has_pace(alloc: Global, line: &str, slices: u32, rate: Option<u32>) -> bool {
    pace_of(alloc, line) == Some((slices, rate))
}

#[test]
fn reads_reindexes(rt: HostRuntime) {
    let alloc = rt.alloc();
    let whole =
        r#"{"reindex":{"body":{"x":1},"node":"n3","slices":1,"requests_per_second":-1,"opaque_id":"q"}}"#;
    let slow = r#"{"reindex":{"body":{},"slices":32,"requests_per_second":1}}"#;
    let fast = r#"{"reindex":{"requests_per_second":1000000,"body":{}}}"#;
    assert!(rt; has_pace(alloc, r#"{"reindex":{"body":{}}}"#, 1, None));
    assert!(rt; has_pace(alloc, whole, 1, None));
    assert!(rt; has_pace(alloc, slow, 32, Some(1)) && has_pace(alloc, fast, 1, Some(1_000_000)));
    let cancelled = "{\"reindex\":{\"body\":{}}}\n{\"cancel\":{\"command\":1}}";
    assert!(rt; counted(alloc, cancelled) == Ok(2));
}

const BAD_REINDEXES: &str = r#"{"reindex":[]}
{"reindex":{}}
{"reindex":{"body":5}}
{"reindex":{"body":null}}
{"reindex":{"body":{},"slices":0}}
{"reindex":{"body":{},"slices":33}}
{"reindex":{"body":{},"slices":"auto"}}
{"reindex":{"body":{},"requests_per_second":0}}
{"reindex":{"body":{},"requests_per_second":-2}}
{"reindex":{"body":{},"requests_per_second":1000001}}
{"reindex":{"body":{},"requests_per_second":18446744073709551615}}
{"reindex":{"body":{},"node":"n4","slices":0}}"#;

#[test]
fn refuses_reindexes(rt: HostRuntime) {
    let alloc = rt.alloc();
    assert!(rt; all_bad(alloc, BAD_REINDEXES, Cause::BadField));
    assert!(rt;
        all_bad(
            alloc,
            r#"{"reindex":{"body":{},"index":"a"}}"#,
            Cause::UnknownField
        )
    );
    assert!(rt;
        all_bad(
            alloc,
            r#"{"reindex":{"body":{},"node":"n4"}}"#,
            Cause::UnknownNode
        )
    );
    let scroll = "{\"reindex\":{\"body\":{}}}\n{\"scroll\":{\"command\":1}}";
    assert!(rt; counted(alloc, scroll) == bad_at(3, Cause::BadReference));
}

const BAD_TICKS: &str = r#"{"tick":86400001}
{"tick":-1}
{"tick":"1s"}
{"tick":true}"#;

#[test]
fn reads_ticks(rt: HostRuntime) {
    let alloc = rt.alloc();
    assert!(rt; counted(alloc, "{\"tick\":0}\n{\"tick\":86400000}") == Ok(2));
    assert!(rt; all_bad(alloc, BAD_TICKS, Cause::BadField));
}

/// The seed and the moves of a line that is a shuffle.
fn shuffle_of(alloc: Global, line: &str) -> Option<(u64, u32)> {
    if line.len() > 67_108_864 {
        return None;
    }
    let script = read_script(alloc, line.as_bytes(), 2, Mode::Sim, &CLUSTER).ok()?;
    match script.commands.as_slice().first() {
        Some(Command::Shuffle { seed, moves }) => Some((*seed, *moves)),
        _ => None,
    }
}

/// Whether a line is a shuffle with this seed and so many moves.
fn shuffles(alloc: Global, line: &str, seed: u64, moves: u32) -> bool {
    shuffle_of(alloc, line) == Some((seed, moves))
}

const BAD_SHUFFLES: &str = r#"{"shuffle":true}
{"shuffle":{"moves":1}}
{"shuffle":{"seed":1}}
{"shuffle":{"seed":-1,"moves":1}}
{"shuffle":{"seed":"1","moves":1}}
{"shuffle":{"seed":1,"moves":-1}}
{"shuffle":{"seed":1,"moves":1000001}}
{"shuffle":{"seed":1,"moves":4294967296}}"#;

#[test]
fn reads_shuffles(rt: HostRuntime) {
    let alloc = rt.alloc();
    let most = r#"{"shuffle":{"seed":18446744073709551615,"moves":1000000}}"#;
    assert!(rt; shuffles(alloc, r#"{"shuffle":{"seed":0,"moves":0}}"#, 0, 0));
    assert!(rt; shuffles(alloc, r#"{"shuffle":{"moves":40,"seed":7}}"#, 7, 40));
    assert!(rt; shuffles(alloc, most, 18_446_744_073_709_551_615, 1_000_000));
    assert!(rt; all_are(alloc, Mode::Sim, BAD_SHUFFLES, bad(Cause::BadField)));
    let unknown = r#"{"shuffle":{"seed":-1,"moves":1,"x":1}}"#;
    assert!(rt; counted_in(alloc, Mode::Sim, unknown) == bad(Cause::UnknownField));
}

const BAD_SUMMARIES: &str = r#"{"summary":false}
{"summary":1}
{"summary":{}}"#;

#[test]
fn reads_summaries(rt: HostRuntime) {
    let alloc = rt.alloc();
    assert!(rt; counted_in(alloc, Mode::Sim, r#"{"summary":true}"#) == Ok(1));
    assert!(rt; all_are(alloc, Mode::Sim, BAD_SUMMARIES, bad(Cause::BadField)));
}

/// Four commands that can be waited for, and three that can not: a reindex that may wait for the clock, a tick and a list.
const AWAITED: &str = r#"{"search":{"index":"a","scroll":"1m"}}
{"scroll":{"command":1}}
{"cancel":{"command":1}}
{"reindex":{"body":{},"requests_per_second":-1}}
{"reindex":{"body":{},"requests_per_second":5}}
{"tick":1}
{"list":{}}
"#;

const WAITS: &str = r#"{"wait_for":{"command":1}}
{"wait_for":{"command":2}}
{"wait_for":{"command":3}}
{"wait_for":{"command":4}}"#;

const ENDLESS_WAITS: &str = r#"{"wait_for":{"command":5}}
{"wait_for":{"command":6}}
{"wait_for":{"command":7}}"#;

const LATER_WAITS: &str = r#"{"wait_for":{"command":0}}
{"wait_for":{"command":8}}
{"wait_for":{"command":9}}
{"wait_for":{"command":-1}}"#;

const BAD_WAITS: &str = r#"{"wait_for":{"command":"1"}}
{"wait_for":{}}
{"wait_for":1}"#;

#[test]
fn reads_waits(rt: HostRuntime) {
    let alloc = rt.alloc();
    assert!(rt; all_after(alloc, AWAITED, WAITS, Ok(8)));
    assert!(rt; all_after(alloc, AWAITED, ENDLESS_WAITS, bad_at(9, Cause::NotWaitable)));
    assert!(rt; all_after(alloc, AWAITED, LATER_WAITS, bad_at(9, Cause::BadReference)));
    assert!(rt; all_after(alloc, AWAITED, BAD_WAITS, bad_at(9, Cause::BadField)));
    let unknown = r#"{"wait_for":{"command":1,"node":"n1"}}"#;
    assert!(rt; with_line(alloc, AWAITED, unknown) == bad_at(9, Cause::UnknownField));
}

#[test]
fn waits_for_no_later_command_and_for_no_wait(rt: HostRuntime) {
    let alloc = rt.alloc();
    let later = "{\"wait_for\":{\"command\":2}}\n{\"search\":{\"index\":\"a\"}}";
    assert!(rt; counted(alloc, later) == bad(Cause::BadReference));
    let waits =
        "{\"search\":{\"index\":\"a\"}}\n{\"wait_for\":{\"command\":1}}\n{\"wait_for\":{\"command\":2}}";
    assert!(rt; counted(alloc, waits) == bad_at(4, Cause::NotWaitable));
}
