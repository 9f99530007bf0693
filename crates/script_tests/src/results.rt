//! The fields of gets, forgets and lists of results, and of reindexes whose replies are stored. Threads take none of these.

use script_lang::{Command, Mode, ScriptError, TaskTarget, read_script};
use std::alloc::Global;
use task_ids::{Cause, Cluster};

const CLUSTER: Cluster = Cluster {
    nodes: 3,
    shards: 2,
    slots: 256,
};

/// A reindex whose reply is stored, and a tick, which starts nothing.
const BEFORE: &str = r#"{"reindex":{"body":{},"store":true}}
{"tick":1}
"#;

/// Why a script for a mode is refused, if it is.
fn cause_in(alloc: Global, mode: Mode, script: &str) -> Option<Cause> {
    if script.len() > 67_108_864 {
        return None;
    }
    match read_script(alloc, script.as_bytes(), 2, mode, &CLUSTER) {
        Err(ScriptError::Bad { cause, .. }) => Some(cause),
        _ => None,
    }
}

/// Whether each line is refused for this cause behind the lines above, and where there is none whether each is read.
fn all_so(alloc: Global, lines: &str, cause: Option<Cause>) -> bool {
    for line in lines.lines() {
        let Ok(script) = format!(in alloc; "{BEFORE}{line}") else {
            return false;
        };
        if cause_in(alloc, Mode::Sim, script.as_str()) != cause {
            return false;
        }
    }
    true
}

const GOOD: &str = r#"{"get_task":{"command":1}}
{"get_task":{"task_id":"n9:7","wait_for_completion":true}}
{"forget_task":{"command":1}}
{"forget_task":{"task_id":"n1:1"}}
{"list_results":{}}
{"reindex":{"body":{},"store":false}}"#;

const BAD_FIELDS: &str = r#"{"get_task":{}}
{"get_task":5}
{"get_task":{"command":1,"task_id":"n1:1"}}
{"get_task":{"command":"1"}}
{"get_task":{"command":1,"wait_for_completion":1}}
{"get_task":{"task_id":1}}
{"forget_task":{}}
{"forget_task":{"command":1,"task_id":"n1:1"}}
{"list_results":true}
{"reindex":{"body":{},"store":"true"}}
{"reindex":{"body":{},"store":null}}"#;

const BAD_IDS: &str = r#"{"get_task":{"task_id":"unset"}}
{"get_task":{"task_id":"n1:01"}}
{"forget_task":{"task_id":"x"}}"#;

const BAD_NAMES: &str = r#"{"get_task":{"command":2}}
{"get_task":{"command":3}}
{"forget_task":{"command":2}}
{"forget_task":{"command":0}}"#;

const UNKNOWN: &str = r#"{"get_task":{"command":1,"detailed":true}}
{"forget_task":{"command":1,"wait_for_completion":true}}
{"list_results":{"command":1}}"#;

#[test]
fn reads_what_is_about_results(rt: HostRuntime) {
    let alloc = rt.alloc();
    assert!(rt; all_so(alloc, GOOD, None));
    assert!(rt; all_so(alloc, BAD_FIELDS, Some(Cause::BadField)));
    assert!(rt; all_so(alloc, BAD_IDS, Some(Cause::BadTaskId)));
    assert!(rt; all_so(alloc, BAD_NAMES, Some(Cause::BadReference)));
    assert!(rt; all_so(alloc, UNKNOWN, Some(Cause::UnknownField)));
}

/// What stands in a line is not looked at where threads take no such line, and in a reindex the field alone counts.
const NOT_FOR_THREADS: &str = r#"{"get_task":{"command":1}}
{"get_task":{"x":1}}
{"forget_task":5}
{"list_results":{}}
{"reindex":{"body":{},"store":true}}
{"reindex":{"store":false}}
{"reindex":{"store":null,"x":1}}"#;

#[test]
fn threads_take_no_results(rt: HostRuntime) {
    let alloc = rt.alloc();
    for line in NOT_FOR_THREADS.lines() {
        assert!(rt; cause_in(alloc, Mode::Run, line) == Some(Cause::ScheduleLineInRun));
    }
    assert!(rt; cause_in(alloc, Mode::Run, r#"{"reindex":["store"]}"#) == Some(Cause::BadField));
}

/// The task and the flag of a script's last line, where that is a get.
fn get_of(alloc: Global, script: &str) -> Option<(TaskTarget, bool)> {
    if script.len() > 67_108_864 {
        return None;
    }
    let script = read_script(alloc, script.as_bytes(), 2, Mode::Sim, &CLUSTER).ok()?;
    match script.commands.as_slice().last() {
        Some(Command::GetTask { task, wait }) => Some((*task, *wait)),
        _ => None,
    }
}

#[test]
fn waits_where_it_is_said(rt: HostRuntime) {
    let alloc = rt.alloc();
    let by_id = r#"{"get_task":{"task_id":"n2:5","wait_for_completion":true}}"#;
    let named = "{\"search\":{\"index\":\"a\"}}\n{\"get_task\":{\"command\":1}}";
    assert!(rt; matches!(get_of(alloc, by_id), Some((TaskTarget::Id(_), true))));
    assert!(rt; get_of(alloc, named) == Some((TaskTarget::Command(1), false)));
}
