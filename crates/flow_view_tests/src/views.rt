// Views of actors.

use flow_base::ids::{ActorId, CellId, ProcId};
use flow_base::memory::NoMemory;
use flow_base::name::Name;
use flow_base::place::Place;
use flow_debug::print::{print_head, print_view};
use flow_debug::view::{ActorView, VarView};
use flow_value::value::{Kind, Value};
use std::alloc::Global;

const LINES: &[u8] = b"\
actor 1 300 main 2 at 8:5
branch 1 300 0 18446744073709551615
branch 1 300 1 3
var 1 300 p = 0
var 1 300 x = Future#2
";

const HEAD: &[u8] = b"debug 1\nat 1 0\n";

fn variables(alloc: Global) -> Result<Vec<VarView>, NoMemory> {
    let mut vars = Vec::new(alloc);
    vars.push(VarView {
        name: Name::new(alloc, b"p")?,
        value: Value::Int(0),
    })?;
    vars.push(VarView {
        name: Name::new(alloc, b"x")?,
        value: Value::Ref(Kind::Future, CellId(2)),
    })?;
    Ok(vars)
}

fn is_printed(alloc: Global) -> Result<bool, NoMemory> {
    let view = ActorView {
        process: ProcId(1),
        actor: ActorId(300),
        name: Name::new(alloc, b"main")?,
        group: 2,
        at: Place {
            line: 8,
            column: 5,
            byte: 70,
        },
        cells: Vec::from_array(alloc, [CellId(u64::MAX), CellId(3)])?,
        vars: variables(alloc)?,
    };
    let text = print_view(alloc, &view)?;
    Ok(text.as_slice() == LINES)
}

fn head_is_printed(alloc: Global) -> Result<bool, NoMemory> {
    let text = print_head(alloc, 1, 0)?;
    Ok(text.as_slice() == HEAD)
}

#[test]
fn prints_a_view(rt: HostRuntime) -> Result<(), NoMemory> {
    assert!(rt; is_printed(rt.alloc())?);
    assert!(rt; head_is_printed(rt.alloc())?);
    Ok(())
}
