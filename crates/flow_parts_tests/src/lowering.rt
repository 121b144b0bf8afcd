// Parts of lowering: where a name stands, and what the catch part of a block drops.

use flow_base::memory::NoMemory;
use flow_catch::catcher::catcher;
use flow_catch::scopes::Scopes;
use flow_choose::places::{place_of, var_over};
use flow_class::class::Slotted;
use std::alloc::Global;

fn is_no_place(alloc: Global, name: &[u8]) -> bool {
    let scopes = Scopes::new(alloc);
    place_of(&[], &scopes, name).is_none()
}

fn is_var_over(alloc: Global, place: Option<Slotted>, wanted: &[u8]) -> Result<bool, NoMemory> {
    let name = var_over(alloc, place)?;
    Ok(name.bytes() == wanted)
}

#[test]
fn a_name_that_is_not_in_force_is_no_place(rt: HostRuntime) -> Result<(), NoMemory> {
    let alloc = rt.alloc();
    assert!(rt; is_no_place(alloc, b"x"));
    assert!(rt; is_var_over(alloc, None, b"_")?);
    assert!(rt; is_var_over(alloc, Some(Slotted::Local(12)), b"l12")?);
    Ok(())
}

fn drops_the_newest_first(alloc: Global) -> Result<bool, NoMemory> {
    let part = catcher(alloc, &[3, 5], 7, Some(9))?;
    Ok(part.drops.as_slice() == [5, 3].as_slice() && part.block == 7)
}

#[test]
fn a_catcher_drops_the_newest_first(rt: HostRuntime) -> Result<(), NoMemory> {
    assert!(rt; drops_the_newest_first(rt.alloc())?);
    Ok(())
}
