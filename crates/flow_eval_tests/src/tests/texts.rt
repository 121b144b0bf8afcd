// Texts at their limit.

use super::{Every, add_var, first_wrong_over};
use flow_base::memory::NoMemory;
use flow_base::text::Text;
use flow_eval::variables::Var;
use flow_value::value::Value;
use std::alloc::Global;

// Over a variable `t`, the longest text that there is.
const LONGEST: &str = "\
t + \"\" == t => true
t + \"b\" => throws 9002
";

fn longest(alloc: Global) -> Result<Text, NoMemory> {
    let bytes = vec![in alloc; b'a'; Text::LIMIT]?;
    Text::new(alloc, &bytes)
}

fn first_wrong_in(
    alloc: Global,
    vars: &mut Vec<Var>,
    view: &Every,
) -> Result<Option<&'static str>, NoMemory> {
    add_var(alloc, vars, b"t", Value::text(alloc, longest(alloc)?)?)?;
    Ok(first_wrong_over(alloc, vars, view, LONGEST))
}

fn first_wrong(alloc: Global) -> Result<Option<&'static str>, NoMemory> {
    let mut vars = Vec::new(alloc);
    first_wrong_in(alloc, &mut vars, &Every { outcome: None })
}

#[test]
fn texts_at_their_limit(rt: HostRuntime) -> Result<(), NoMemory> {
    assert_eq!(rt; first_wrong(rt.alloc())?, None);
    Ok(())
}
