// Lines of a trace, from their text.

use flow_trace::line::Line;
use flow_trace::out::LineOut;
use flow_trace::read::read_line;
use std::alloc::Global;

// Puts a line that is told by its text.
fn put_line<L: LineOut>(alloc: Global, out: &mut L, bytes: &[u8]) -> bool {
    match read_line(alloc, bytes) {
        Ok(line) => out.put(&line).is_ok(),
        Err(_) => false,
    }
}

/// Puts the lines of a text, and answers whether each was one and was put.
pub fn put_lines<L: LineOut>(alloc: Global, out: &mut L, text: &str) -> bool {
    for line in text.lines() {
        if !put_line(alloc, out, line.as_bytes()) {
            return false;
        }
    }
    true
}

/// The lines of a text, or none where one isn't a line.
pub fn lines_of(alloc: Global, text: &str) -> Option<Vec<Line>> {
    let mut lines = Vec::new(alloc);
    for line in text.lines() {
        let line = read_line(alloc, line.as_bytes()).ok()?;
        lines.push(line).ok()?;
    }
    Some(lines)
}
