// Tests of flow_numbered.

use flow_base::memory::NoMemory;
use flow_numbered::numbered::Numbered;
use std::alloc::Global;

// Adds a thing, where its number is above all that were added.
fn insert(things: &mut Numbered<u64>, number: u64, value: u64) -> Result<bool, NoMemory> {
    if things.greatest() >= number {
        return Ok(false);
    }
    things.insert(number, value)?;
    Ok(true)
}

// Changes a thing that is there.
fn change(things: &mut Numbered<u64>, number: u64, value: u64) -> bool {
    if !things.contains(number) {
        return false;
    }
    *things.get_mut(number) = value;
    true
}

// Removes a thing that is there.
fn remove(things: &mut Numbered<u64>, number: u64) -> Option<u64> {
    if !things.contains(number) {
        return None;
    }
    Some(things.remove(number))
}

fn adds(things: &mut Numbered<u64>) -> Result<bool, NoMemory> {
    Ok(insert(things, 2, 20)? && insert(things, 5, 50)? && change(things, 5, 51))
}

fn holds(things: &Numbered<u64>) -> bool {
    things.get(2) == Some(&20) && things.get(5) == Some(&51) && things.get(3).is_none()
}

fn finds(things: &mut Numbered<u64>) -> Result<bool, NoMemory> {
    Ok(adds(things)? && holds(things))
}

fn finds_alone(alloc: Global) -> Result<bool, NoMemory> {
    let mut things: Numbered<u64> = Numbered::new(alloc);
    finds(&mut things)
}

#[test]
fn things_are_found_by_number(rt: HostRuntime) -> Result<(), NoMemory> {
    assert!(rt; finds_alone(rt.alloc())?);
    Ok(())
}

fn adds_three(things: &mut Numbered<u64>) -> Result<bool, NoMemory> {
    Ok(insert(things, 2, 20)? && insert(things, 5, 50)? && insert(things, 9, 90)?)
}

fn skips_none(things: &mut Numbered<u64>) -> bool {
    things.next_above(2) == Some(5)
        && things.next_above(3) == Some(5)
        && remove(things, 5) == Some(50)
        && things.next_above(2) == Some(9)
        && things.next_above(9).is_none()
}

fn clears(things: &mut Numbered<u64>) -> Result<bool, NoMemory> {
    things.clear();
    Ok(things.next_above(0).is_none() && insert(things, 10, 100)?)
}

fn goes_on(things: &mut Numbered<u64>) -> Result<bool, NoMemory> {
    Ok(adds_three(things)? && skips_none(things) && clears(things)?)
}

fn goes_on_alone(alloc: Global) -> Result<bool, NoMemory> {
    let mut things: Numbered<u64> = Numbered::new(alloc);
    goes_on(&mut things)
}

#[test]
fn the_next_number_skips_none(rt: HostRuntime) -> Result<(), NoMemory> {
    assert!(rt; goes_on_alone(rt.alloc())?);
    Ok(())
}
