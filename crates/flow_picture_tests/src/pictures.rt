// Runs as pictures: three marks in one event, a process that is killed and boots twice, a packet that comes, one that is lost and one
// that is discarded, and a text with signs that are written otherwise.

use crate::lines::put_lines;
use flow_base::ids::ProcId;
use flow_base::mem_sink::MemSink;
use flow_chart::{ChartOut, MOST_EVENTS, write_picture};
use flow_trace::line::Line;
use flow_trace::out::LineOut;
use std::alloc::Global;
use std::test::Fail;

const TRACE: &str = "trace 1
event 1 0 boot 0
start 1 main
send 1 1 7 \"<&\\\"\\xff\"
event 2 0 boot 1
start 1 main
event 3 3 packet 1 1
print 1 \"<&\\\"\\xff>\"
print 1 -3
fail 1 9001
event 4 4 kill 1
send 2 1 7 \"x\"
lost 2 draw
event 5 5 boot 1
send 3 0 7 \"\"
event 6 6 packet 0 3
discard 3
event 7 7 kill 1
event 8 8 boot 1
event 9 9 cut 0 1
end idle
";

const PICTURE: &[u8] = b"<svg xmlns=\"http://www.w3.org/2000/svg\" width=\"490\" height=\"278\">
<style>text{font:11px monospace}.t{fill:#888}.p{fill:#063}.f{fill:#a00}.e{fill:#333}\
.b{stroke:#9ab;stroke-width:5}.a{stroke:#36c}.l{stroke:#c00;stroke-dasharray:3}</style>
<rect width=\"100%\" height=\"100%\" fill=\"#fff\"/>
<text x=\"175\" y=\"20\">process 0</text>
<text x=\"365\" y=\"20\">process 1</text>
<line class=\"b\" x1=\"395\" y1=\"76\" x2=\"395\" y2=\"148\"/>
<line class=\"b\" x1=\"395\" y1=\"166\" x2=\"395\" y2=\"202\"/>
<line class=\"b\" x1=\"205\" y1=\"58\" x2=\"205\" y2=\"238\"/>
<line class=\"b\" x1=\"395\" y1=\"220\" x2=\"395\" y2=\"238\"/>
<line class=\"a\" x1=\"205\" y1=\"58\" x2=\"395\" y2=\"94\"/>
<line class=\"l\" x1=\"395\" y1=\"148\" x2=\"425\" y2=\"160\"/>
<line class=\"a\" x1=\"395\" y1=\"166\" x2=\"205\" y2=\"184\"/>
<text class=\"t\" x=\"8\" y=\"62\">1 at 0</text>
<circle class=\"e\" cx=\"205\" cy=\"58\" r=\"3\"/>
<text class=\"t\" x=\"8\" y=\"80\">2 at 0</text>
<circle class=\"e\" cx=\"395\" cy=\"76\" r=\"3\"/>
<text class=\"t\" x=\"8\" y=\"98\">3 at 3</text>
<circle class=\"e\" cx=\"395\" cy=\"94\" r=\"3\"/>
<text class=\"p\" x=\"403\" y=\"98\">\"&lt;&amp;\\\"\\xff&gt;\"</text>
<text class=\"p\" x=\"403\" y=\"116\">-3</text>
<text class=\"f\" x=\"403\" y=\"134\">fail 1 9001</text>
<text class=\"t\" x=\"8\" y=\"152\">4 at 4</text>
<circle class=\"e\" cx=\"395\" cy=\"148\" r=\"3\"/>
<text class=\"f\" x=\"403\" y=\"152\">kill</text>
<text class=\"t\" x=\"8\" y=\"170\">5 at 5</text>
<circle class=\"e\" cx=\"395\" cy=\"166\" r=\"3\"/>
<text class=\"t\" x=\"8\" y=\"188\">6 at 6</text>
<circle class=\"e\" cx=\"205\" cy=\"184\" r=\"3\"/>
<text class=\"f\" x=\"213\" y=\"188\">discard 3</text>
<text class=\"t\" x=\"8\" y=\"206\">7 at 7</text>
<circle class=\"e\" cx=\"395\" cy=\"202\" r=\"3\"/>
<text class=\"f\" x=\"403\" y=\"206\">kill</text>
<text class=\"t\" x=\"8\" y=\"224\">8 at 8</text>
<circle class=\"e\" cx=\"395\" cy=\"220\" r=\"3\"/>
<text class=\"t\" x=\"8\" y=\"242\">9 at 9</text>
<circle class=\"e\" cx=\"205\" cy=\"238\" r=\"3\"/>
<text class=\"f\" x=\"213\" y=\"242\">cut 1</text>
<text x=\"8\" y=\"266\">end idle</text>
</svg>
";

// Whether the picture of what was drawn is this one.
fn is_picture(alloc: Global, chart: &ChartOut, picture: &[u8]) -> bool {
    let Some(drawing) = &chart.drawing else {
        return false;
    };
    let mut out = MemSink::new(alloc, Vec::new(alloc));
    write_picture(alloc, 2, drawing, &mut out).is_ok() && out.bytes() == picture
}

fn is_drawn(alloc: Global) -> bool {
    match ChartOut::new(alloc) {
        Ok(mut chart) => put_lines(alloc, &mut chart, TRACE) && is_picture(alloc, &chart, PICTURE),
        Err(_) => false,
    }
}

// Whether there is a picture of so many events.
fn has_room(alloc: Global, events: u32) -> bool {
    let Ok(mut chart) = ChartOut::new(alloc) else {
        return false;
    };
    for number in 0..events {
        let boot = Line::Boot(u64::from(number), 0, ProcId(0));
        if chart.put(&boot).is_err() {
            return false;
        }
    }
    chart.drawing.is_some()
}

#[test]
fn a_run_is_drawn(rt: HostRuntime) -> Result<(), Fail> {
    let is_right = is_drawn(rt.alloc());
    assert!(rt; is_right);
    Ok(())
}

#[test]
fn there_is_room_for_most_events(rt: HostRuntime) -> Result<(), Fail> {
    let is_right = has_room(rt.alloc(), MOST_EVENTS);
    assert!(rt; is_right);
    let is_over = has_room(rt.alloc(), 2_001);
    assert!(rt; !is_over);
    Ok(())
}
