//! Runs over fronts of a test file, and into sinks with little room.

use crate::given::tree_of;
use crate::runs::status_name;
use crate::shown::push_line;
use ct_base::Mem;
use ct_outside::MemSink;
use ct_show_rows::Row;
use ct_top::{Status, run};
use std::alloc::Global;

/// The bytes that a sink has room for.
const ROOM: usize = 100_000;

/// Runs `test:all` over the files of a row, with this test file where one is given.
fn run_with(alloc: Global, row: &Row, text: Option<&[u8]>, room: usize) -> Mem<(Status, MemSink)> {
    let mut tree = tree_of(alloc, row)?;
    if let Some(text) = text {
        tree.put("test/test_a.c", text)?;
    }
    let words = vec![in alloc; String::from_str(alloc, "test:all")?]?;
    let mut sink = MemSink::new(alloc, room, Vec::new(alloc))?;
    let status = run(alloc, words.as_slice(), &mut tree, &mut sink);
    Ok((status, sink))
}

/// Whether a text is one line that refuses the test file.
fn is_refusal(text: &[u8]) -> bool {
    let lines = text.split(|byte| *byte == b'\n').count();
    lines == 2
        && text.starts_with("ERROR: test/test_a.c:".as_bytes())
        && text.ends_with("\n".as_bytes())
}

/// The text of the test file.
fn test_text(row: &Row) -> &[u8] {
    for part in &row.parts {
        if part.value_of("file") == Some("test/test_a.c") {
            return part.text.as_slice();
        }
    }
    "".as_bytes()
}

/// Appends whether the run over each front of the test file passes with the report of the whole file or of an
/// empty one, or is refused by one line.
pub fn push_fronts(alloc: Global, row: &Row, report: &[u8], out: &mut String) -> Mem<()> {
    let text = test_text(row);
    let (_, empty) = run_with(alloc, row, Some("".as_bytes()), ROOM)?;
    for length in 0..text.len() {
        let (status, sink) = run_with(alloc, row, text.get(..length), ROOM)?;
        let taken = sink.taken();
        let passed = status == Status::Passed && (taken == report || taken == empty.taken());
        if !passed && !(status == Status::Refused && is_refusal(taken)) {
            let line = format!(in alloc; "front {length}: {}", status_name(status))?;
            return push_line(line.as_str(), out);
        }
    }
    push_line("each front: passed, or refused by one line", out)
}

/// Appends whether the run into each room that is too small ends with a fault of the sink, which took a front of
/// the report.
pub fn push_rooms(alloc: Global, row: &Row, report: &[u8], out: &mut String) -> Mem<()> {
    for room in 0..report.len() {
        let (status, sink) = run_with(alloc, row, None, room)?;
        if status != Status::OutFault || Some(sink.taken()) != report.get(..room) {
            let line = format!(in alloc; "room {room}: {}", status_name(status))?;
            return push_line(line.as_str(), out);
        }
    }
    let (status, sink) = run_with(alloc, row, None, report.len())?;
    if sink.taken() != report {
        return push_line("room for the report: it is another", out);
    }
    out.push_str("each room: OutFault and a front; room for the report: ")?;
    push_line(status_name(status), out)
}
