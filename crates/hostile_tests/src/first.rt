//! A small search whose input comes in pieces, and whose reads and writes fail, each in turn.
ghost use Rattle.std.specs.Prelude.{◌<◌};

use crate::runs::{Outside, TAKEN, pieces_of, run};
use std::alloc::{AllocError, Global};
use task_top::Status;

/// Two documents and a search for both.
const FIRST_SEARCH: &str = r#"{"index":{"_index":"a","_id":"1"}}
{"v":7}
{"index":{"_index":"a","_id":"2"}}
{"v":8,"t":"x"}
--
{"search":{"index":"a","body":{"query":{"match_all":{}}}}}
"#;

/// Its one line.
const FIRST_LINE: &str =
    r#"{"command":1,"reply":{"_shards":{"failed":0,"successful":1,"total":1},"hits":{"hits":[{"_id":"1","_index":"a","_source":{"v":7}},{"_id":"2","_index":"a","_source":{"t":"x","v":8}}],"total":{"relation":"eq","value":2}}}}
"#;

/// Whether the search gives its line where its input comes in pieces of so many bytes.
fn gives_its_line(alloc: Global, piece: usize) -> Result<bool, AllocError>
    requires piece { 0 < piece }
{
    let ran = run(alloc, FIRST_SEARCH, pieces_of(piece))?;
    Ok(ran.is(Status::Done, FIRST_LINE.as_bytes()))
}

#[test]
fn an_input_in_pieces_gives_the_same_lines(rt: HostRuntime) -> Result<(), AllocError> {
    assert!(rt; gives_its_line(rt.alloc(), 1)?);
    assert!(rt; gives_its_line(rt.alloc(), 7)?);
    assert!(rt; gives_its_line(rt.alloc(), 64)?);
    Ok(())
}

#[test]
fn a_write_that_fails_leaves_the_pieces_before_it(rt: HostRuntime) -> Result<(), AllocError> {
    for before in 0..20_u8 {
        let outside = Outside {
            failing_write: u64::from(before) + 1,
            ..pieces_of(64)
        };
        let ran = run(rt.alloc(), FIRST_SEARCH, outside)?;
        let Some(sent) = FIRST_LINE.as_bytes().get(..TAKEN * usize::from(before)) else {
            panic!(rt; "the line is short");
        };
        assert!(rt; ran.is(Status::WriteFault, sent), "{before}");
    }
    Ok(())
}

/// At how many reads the run of the search ends with that fault and nothing written, each in turn, before a read is to fail that it does not
/// come to. There is none where a run comes to something else.
fn count_reads(alloc: Global, piece: usize) -> Result<Option<u64>, AllocError>
    requires piece { 0 < piece }
{
    for before in 0..1_000 {
        let outside = Outside {
            failing_read: before + 1,
            ..pieces_of(piece)
        };
        let ran = run(alloc, FIRST_SEARCH, outside)?;
        if ran.is(Status::Done, FIRST_LINE.as_bytes()) {
            return Ok(Some(before));
        }
        if !ran.is(Status::ReadFault, &[]) {
            return Ok(None);
        }
    }
    Ok(None)
}

#[test]
fn a_read_that_fails_ends_the_run(rt: HostRuntime) -> Result<(), AllocError> {
    // The last read finds the end.
    assert_eq!(rt; count_reads(rt.alloc(), 1)?, Some(157));
    assert_eq!(rt; count_reads(rt.alloc(), 7)?, Some(24));
    assert_eq!(rt; count_reads(rt.alloc(), 64)?, Some(4));
    Ok(())
}
