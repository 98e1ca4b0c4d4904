//! Runs over whole projects.

use crate::fronts::{push_fronts, push_rooms};
use crate::given::tree_of;
use crate::shown::{push_line, push_text};
use crate::sinks::sink_of;
use crate::watched::Watched;
use ct_base::Mem;
use ct_outside::MemSink;
use ct_show_rows::Row;
use ct_top::{Status, run};
use std::alloc::Global;

/// Appends how a run over the project of a row ends, and what its sink took. A text without an option is that of
/// the test file `test/test_a.c` behind the line that includes `unity.h`, beside an empty project file; the
/// files and the failing calls are told by options, and so are the room of the sink, the read that does not find
/// a listed file, by `absent READ`, and the words, by `words` with a word on each line. The options `each front`
/// and `each room` tell of the runs over each front of the test file, and into each room that is too small.
pub fn project_outcome(alloc: Global, row: &Row, out: &mut String) -> Mem<()> {
    let (status, sink) = run_of(alloc, row)?;
    push_line(status_name(status), out)?;
    push_text(sink.taken(), out)?;
    if row.has("each front") {
        push_fronts(alloc, row, sink.taken(), out)?;
    }
    if row.has("each room") {
        push_rooms(alloc, row, sink.taken(), out)?;
    }
    Ok(())
}

/// The run of a row.
fn run_of(alloc: Global, row: &Row) -> Mem<(Status, MemSink)> {
    let mut files = tree_of(alloc, row)?;
    for part in &row.parts {
        if part.option.is_empty() {
            let mut text = Vec::from_slice(alloc, "#include \"unity.h\"\n".as_bytes())?;
            text.extend_from_slice(part.text.as_slice())?;
            files.put("project.yml", "".as_bytes())?;
            files.put("test/test_a.c", text.as_slice())?;
        }
    }
    let absent = row.value_of("absent").and_then(|read| read.parse().ok());
    let mut tree = Watched::new(alloc, files, absent.unwrap_or(0));
    let mut sink = sink_of(alloc, row)?;
    let words = words_of(alloc, row)?;
    let status = run(alloc, words.as_slice(), &mut tree, &mut sink);
    Ok((status, sink))
}

/// The words of a row, which are `test:all` where it names none.
fn words_of(alloc: Global, row: &Row) -> Mem<Vec<String>> {
    let mut words = Vec::new(alloc);
    for part in &row.parts {
        if part.value_of("words").is_some() {
            for word in str::from_utf8(part.text.as_slice()).unwrap_or("").lines() {
                words.push(String::from_str(alloc, word)?)?;
            }
            return Ok(words);
        }
    }
    words.push(String::from_str(alloc, "test:all")?)?;
    Ok(words)
}

/// The name of a status.
pub fn status_name(status: Status) -> &'static str {
    match status {
        Status::Passed => "Passed",
        Status::Failed => "Failed",
        Status::Refused => "Refused",
        Status::ReadFault => "ReadFault",
        Status::WriteFault => "WriteFault",
        Status::OutFault => "OutFault",
        Status::OutOfMemory => "OutOfMemory",
        _ => "Usage",
    }
}
