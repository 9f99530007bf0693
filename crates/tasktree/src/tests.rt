//! What a run of the built program does not show: an input that is made while writes fail, and each status. What it shows is compared by
//! the cases of the folder `tests` at the top; inputs in pieces and calls that fail are tried by `hostile_tests` and `run_tests`.

use es_io::MemSink;
use std::alloc::Global;
use task_ids::Cause;
use task_top::{Status, gen_top};

/// The first lines of the input that 1 makes.
const FIRST_LINES: &str = r#"{"index":{"_index":"g","_id":"0"}}
{"g":0,"r":443766}
{"index":{"_index":"g","_id":"1"}}
{"g":1,"r":534152}
{"index":{"_index":"g","_id":"2"}}
{"g":2,"r":679854}
"#;

/// The last lines of each input that a number makes.
const LAST_LINES: &str = r#"{"settle":true}
{"reindex":{"body":{"source":{"index":"g","query":{"term":{"g":3}}},"dest":{"index":"z"}}}}
{"settle":true}
{"list":{}}
{"summary":true}
"#;

/// How the input that 1 makes is written in pieces of 65,536 bytes, with a write that fails at this call (0 is none): the status,
/// and how many bytes were written. There is none where they do not begin as they should.
fn made(alloc: Global, failing: u64) -> Option<(Status, usize)> {
    let failing = Vec::from_slice(alloc, &[failing]).ok()?;
    let mut out = MemSink::new(alloc, 65_536, failing);
    let status = gen_top(alloc, 1, &mut out);
    let bytes = out.bytes();
    let begins = bytes.is_empty() || bytes.starts_with(FIRST_LINES.as_bytes());
    let ends = status != Status::Done || bytes.ends_with(LAST_LINES.as_bytes());
    if begins && ends {
        Some((status, bytes.len()))
    } else {
        None
    }
}

#[test]
fn an_input_is_made_by_its_number(rt: HostRuntime) {
    assert!(rt; made(rt.alloc(), 0) == Some((Status::Done, 1_161_315)));
    assert!(rt; made(rt.alloc(), 1) == Some((Status::WriteFault, 0)));
    assert!(rt; made(rt.alloc(), 3) == Some((Status::WriteFault, 131_072)));
}

/// Whether a status has this number and tells this text.
fn tells(alloc: Global, status: Status, code: u8, text: &str) -> bool {
    status.exit_code() == code
        && status
            .to_string(alloc)
            .is_ok_and(|told| told.as_str() == text)
}

#[test]
fn each_status_has_its_number_and_text(rt: HostRuntime) {
    let alloc = rt.alloc();
    let too_long = Status::Refused(0, Cause::TooLong);
    let not_whole = Status::Refused(12, Cause::NotWhole);
    let usage = "usage: tasktree sim|run [--nodes N] [--shards S] [--slots L] | gen N";
    assert!(rt; tells(alloc, Status::Done, 0, ""));
    assert!(rt; tells(alloc, Status::Usage, 1, usage));
    assert!(rt; tells(alloc, too_long, 2, "tasktree: input is too long"));
    assert!(rt;
        tells(
            alloc,
            not_whole,
            2,
            "tasktree: line 12: number is not whole"
        )
    );
    assert!(rt; tells(alloc, Status::ReadFault, 3, "tasktree: read failed"));
    assert!(rt; tells(alloc, Status::WriteFault, 4, "tasktree: write failed"));
    assert!(rt; tells(alloc, Status::Memory, 5, "tasktree: out of memory"));
    assert!(rt; tells(alloc, Status::NoThread, 6, "tasktree: no thread"));
    assert!(rt; tells(alloc, Status::HistoryFull, 7, "tasktree: history is full"));
    assert!(rt;
        tells(
            alloc,
            Status::NumbersSpent,
            8,
            "tasktree: task numbers are spent"
        )
    );
}
