//! What the stored run and the pictures of the examples do not show: limits, streams that fail, and each status.

use es_io::{MemSink, MemSource};
use picture_parts::{Fault, Wanted, draw_all, drawn};
use std::alloc::{AllocError, Global};
use std::test::Fail;

const LINE: &str = r#"{"command":1,"reply":["root 1 n1:1","ask n1:1 1 n1","put n1:2 n1:1 1"]}"#;

/// A line with a history of so many turns of work.
fn works(alloc: Global, events: usize) -> Result<String, AllocError> {
    let mut line = String::from_str(alloc, r#"{"command":1,"reply":["root 1 n1:1""#)?;
    for _ in 1..events {
        line.push_str(r#","work n1:1""#)?;
    }
    line.push_str("]}\n")?;
    Ok(line)
}

/// Whether a text stands in the picture of a line.
fn shows(alloc: Global, line: &str, part: &str) -> bool {
    match drawn(alloc, Wanted::Picture, line.as_bytes()) {
        Ok(svg) => svg.as_str().contains(part),
        Err(_) => false,
    }
}

/// Whether a line has more events than are drawn, and so many.
fn has_too_many(alloc: Global, line: &str, many: usize) -> bool {
    match drawn(alloc, Wanted::Picture, line.as_bytes()) {
        Err(Fault::TooManyEvents { line, events }) => line == 1 && events == many,
        _ => false,
    }
}

#[test]
fn two_thousand_events_have_a_picture_and_one_more_has_none(rt: HostRuntime) -> Result<(), Fail> {
    let title = "<title>A history of 2000 events on 1 node</title>";
    let line = works(rt.alloc(), 2000)?;
    assert!(rt; shows(rt.alloc(), line.as_str(), title));
    let line = works(rt.alloc(), 2001)?;
    assert!(rt; has_too_many(rt.alloc(), line.as_str(), 2001));
    Ok(())
}

#[test]
fn the_newest_history_is_drawn(rt: HostRuntime) {
    let two = r#"{"command":1,"reply":["root 1 n1:1","pass n9:8"]}
{"command":2,"reply":[]}
{"command":3,"reply":["ask n1:1 1 n1"]}
"#;
    assert!(rt;
        shows(
            rt.alloc(),
            two,
            "<title>A history of 0 events on 1 node</title>"
        )
    );
}

#[test]
fn texts_are_escaped(rt: HostRuntime) {
    let hostile = r#"{"reply":["refuse n1:1 1 <b>&\"\u0000\n\u202e"]}"#;
    assert!(rt; drawn(rt.alloc(), Wanted::Picture, hostile.as_bytes()).is_err());
    let hostile = r#"{"reply":["root 1 n1:1","refuse n1:1 1 <b>&\"\u0000\n\u202e"]}"#;
    assert!(rt;
        shows(
            rt.alloc(),
            hostile,
            ">refuse n1:1 1 &lt;b&gt;&amp;&quot;␀␊\u{fffd}</text>"
        )
    );
}

#[test]
fn a_message_goes_from_the_event_that_sent_it_to_the_one_that_delivered_it(rt: HostRuntime) {
    // Rows are 24 high and the first has its middle at 56. The bars' middles are at 368 and 612, and each is 44 wide.
    let way = r#"<path class="line request" d="M390 80L590 104" marker-end="url(#request-tip)"/>"#;
    assert!(rt; shows(rt.alloc(), LINE, way));
}

/// Whether a text stands in the page of printed lines.
fn tells(alloc: Global, lines: &str, part: &str) -> bool {
    match drawn(alloc, Wanted::Page, lines.as_bytes()) {
        Ok(page) => page.as_str().contains(part),
        Err(_) => false,
    }
}

#[test]
fn a_page_tells_what_events_came_of_and_what_they_sent(rt: HostRuntime) {
    let ask =
        r#"data-text="ask n1:1 1 n1" data-task="n1:1" data-trees="n1:1" data-causes="1" data-effects="3" data-sent="request n1 3">"#;
    assert!(rt; tells(rt.alloc(), LINE, ask));
    let put =
        r#"data-text="put n1:2 n1:1 1" data-task="n1:2" data-trees="n1:1" data-causes="2" data-effects="" data-sent="">"#;
    assert!(rt; tells(rt.alloc(), LINE, put));
}

#[test]
fn a_page_has_the_command_of_each_event_where_the_lines_account_for_all(rt: HostRuntime) {
    let all = r#"{"command":4,"reply":{"hits":{}}}
{"command":5,"reply":["ask n1:1 1 n1"]}
{"command":6,"reply":{"events":1}}
{"command":7,"reply":["root 4 n1:1","ask n1:1 1 n1","put n1:2 n1:1 1"]}
"#;
    let put = r#"data-text="put n1:2 n1:1 1" data-task="n1:2" data-trees="n1:1" data-command="6""#;
    assert!(rt; tells(rt.alloc(), all, put));
    let (_, fewer) = all.split_once('\n').unwrap_or(("", ""));
    let unknown = r#"data-text="put n1:2 n1:1 1" data-task="n1:2" data-trees="n1:1" data-causes"#;
    assert!(rt; tells(rt.alloc(), fewer, unknown));
}

#[test]
fn no_text_of_a_task_is_markup_in_a_page(rt: HostRuntime) {
    let lines =
        r#"{"command":1,"reply":{"tasks":[{"action":"a","description":"</script><img src=x onerror=alert(1)>","headers":{"X-Opaque-Id":"\"'&"},"id":1,"node":"n1"}]}}
{"command":2,"reply":["root 1 n1:1","refuse n1:1 1 </title><svg onload=alert(1)>"]}
"#;
    let told =
        "<td>a</td><td>&lt;/script&gt;&lt;img src=x onerror=alert(1)&gt;</td><td>&quot;'&amp;</td></tr>";
    assert!(rt; tells(rt.alloc(), lines, told));
    assert!(rt; !tells(rt.alloc(), lines, "<img"));
    assert!(rt; !tells(rt.alloc(), lines, "<svg onload"));
}

/// How drawing ends over input in pieces, with reads and writes that fail at these calls, and how many bytes are written.
fn ends_over(
    alloc: Global,
    input: Vec<u8>,
    failing_reads: Vec<u64>,
    failing_writes: Vec<u64>,
) -> (Result<(), Fault>, usize) {
    let mut source = MemSource::new(input, 7, failing_reads);
    let mut sink = MemSink::new(alloc, 100, failing_writes);
    let end = draw_all(alloc, Wanted::Picture, &mut source, &mut sink);
    (end, sink.bytes().len())
}

/// The same over a line, with a read and a write that fail (0 is none).
fn ends(
    alloc: Global,
    failing_read: u64,
    failing_write: u64,
) -> Option<(Result<(), Fault>, usize)> {
    let input = Vec::from_slice(alloc, LINE.as_bytes()).ok()?;
    let reads = Vec::from_slice(alloc, &[failing_read]).ok()?;
    let writes = Vec::from_slice(alloc, &[failing_write]).ok()?;
    Some(ends_over(alloc, input, reads, writes))
}

#[test]
fn a_failing_read_writes_nothing_and_a_failing_write_leaves_what_came_before(rt: HostRuntime) {
    assert!(rt; matches!(ends(rt.alloc(), 2, 0), Some((Err(Fault::ReadFault), 0))));
    assert!(rt; matches!(ends(rt.alloc(), 0, 3), Some((Err(Fault::WriteFault), 200))));
    assert!(rt; matches!(ends(rt.alloc(), 0, 0), Some((Ok(()), _))));
}

/// Whether a fault has this exit status and this text.
fn has_text(alloc: Global, fault: Fault, code: u8, text: &str) -> bool {
    match fault.to_string(alloc) {
        Ok(told) => fault.exit_code() == code && told.as_str() == text,
        Err(_) => false,
    }
}

fn many() -> Fault {
    Fault::TooManyEvents {
        line: 3,
        events: 2345,
    }
}

#[test]
fn each_fault_has_its_status_and_text(rt: HostRuntime) {
    let alloc = rt.alloc();
    let advice =
        "picture: line 3: 2345 events are more than 2000; ask for the history earlier in the script, or run a shorter one";
    assert!(rt;
        has_text(
            alloc,
            Fault::Usage,
            1,
            "usage: picture [--html] <LINES >PICTURE"
        )
    );
    assert!(rt; has_text(alloc, Fault::TooLong, 2, "picture: input is too long"));
    assert!(rt; has_text(alloc, many(), 2, advice));
    assert!(rt; has_text(alloc, Fault::ReadFault, 3, "picture: read failed"));
    assert!(rt; has_text(alloc, Fault::WriteFault, 4, "picture: write failed"));
    assert!(rt; has_text(alloc, Fault::Memory, 5, "picture: out of memory"));
}
