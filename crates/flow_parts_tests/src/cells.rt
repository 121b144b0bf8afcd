// Tests of flow_cell.

ghost use Rattle.std.specs.Prelude.{◌≡◌, []};

use flow_base::ids::{ActorId, CellId};
use flow_base::memory::NoMemory;
use flow_cell::cells::Cells;
use flow_cell::counts::{Loss, References, Side};
use flow_cell::waiter::Waiter;
use std::alloc::Global;

const LOSSES: [Loss; 4] = [Loss::Kept, Loss::LastPromise, Loss::LastFuture, Loss::Gone];

// What is lost of two promises and a future, where a promise comes again.
fn losses() -> [Loss; 4] {
    let mut references = References::new();
    references.hold(Side::Promise);
    references.hold(Side::Promise);
    references.hold(Side::Future);
    let first = references.release(Side::Promise);
    let second = references.release(Side::Promise);
    references.hold(Side::Promise);
    let third = references.release(Side::Future);
    [first, second, third, references.release(Side::Promise)]
}

#[test]
fn losses_by_side(rt: HostRuntime) {
    assert!(rt; losses() == LOSSES);
}

fn tells_content(cells: &mut Cells<u64>) -> Result<bool, NoMemory>
    requires { cells.old ≡ record { things = []; greatest = 0 } }
{
    let cell = CellId(4);
    cells.make(cell)?;
    let unset = cells.content(cell).is_none();
    cells.set(cell, 7);
    let told = cells.content(cell) == Some(&7);
    Ok(unset && told)
}

fn tells_content_alone(alloc: Global) -> Result<bool, NoMemory> {
    let mut cells: Cells<u64> = Cells::new(alloc)?;
    tells_content(&mut cells)
}

#[test]
fn content_is_told(rt: HostRuntime) -> Result<(), NoMemory> {
    assert!(rt; tells_content_alone(rt.alloc())?);
    Ok(())
}

fn releases(cells: &mut Cells<u64>) -> Result<Loss, NoMemory>
    requires { cells.old ≡ record { things = []; greatest = 0 } }
{
    let cell = CellId(4);
    cells.make(cell)?;
    cells.hold(cell, Side::Future);
    Ok(cells.release(cell, Side::Future))
}

fn releases_alone(alloc: Global) -> Result<Loss, NoMemory> {
    let mut cells: Cells<u64> = Cells::new(alloc)?;
    releases(&mut cells)
}

#[test]
fn a_held_cell_is_released(rt: HostRuntime) -> Result<(), NoMemory> {
    assert!(rt; releases_alone(rt.alloc())? == Loss::Gone);
    Ok(())
}

fn is_left_by_the_oldest(cells: &mut Cells<u64>) -> Result<bool, NoMemory>
    requires { cells.old ≡ record { things = []; greatest = 0 } }
{
    let cell = CellId(1);
    let one = Waiter {
        actor: ActorId(1),
        callback: 0,
    };
    let two = Waiter {
        actor: ActorId(2),
        callback: 0,
    };
    cells.make(cell)?;
    let nobody = cells.first_waiter(cell).is_none();
    cells.add_waiter(cell, one)?;
    cells.add_waiter(cell, two)?;
    cells.remove_waiter(cell, one);
    let left = cells.first_waiter(cell) == Some(two);
    let alone = cells.waiter_at(cell, 1).is_none();
    Ok(nobody && left && alone)
}

fn is_left_alone(alloc: Global) -> Result<bool, NoMemory> {
    let mut cells: Cells<u64> = Cells::new(alloc)?;
    is_left_by_the_oldest(&mut cells)
}

#[test]
fn waiters_stand_oldest_first(rt: HostRuntime) -> Result<(), NoMemory> {
    assert!(rt; is_left_alone(rt.alloc())?);
    Ok(())
}

fn lone_waiter_leaves(cells: &mut Cells<u64>) -> Result<bool, NoMemory>
    requires { cells.old ≡ record { things = []; greatest = 0 } }
{
    let cell = CellId(1);
    let one = Waiter {
        actor: ActorId(1),
        callback: 3,
    };
    cells.make(cell)?;
    let before = cells.waits(cell, one);
    cells.add_waiter(cell, one)?;
    let between = cells.waits(cell, one);
    cells.remove_waiter(cell, one);
    Ok(!before && between && !cells.waits(cell, one) && !cells.waits(CellId(2), one))
}

fn lone_waiter_leaves_alone(alloc: Global) -> Result<bool, NoMemory> {
    let mut cells: Cells<u64> = Cells::new(alloc)?;
    lone_waiter_leaves(&mut cells)
}

#[test]
fn a_lone_waiter_leaves(rt: HostRuntime) -> Result<(), NoMemory> {
    assert!(rt; lone_waiter_leaves_alone(rt.alloc())?);
    Ok(())
}

fn newest_leaves(cells: &mut Cells<u64>) -> Result<bool, NoMemory>
    requires { cells.old ≡ record { things = []; greatest = 0 } }
{
    let cell = CellId(1);
    let one = Waiter {
        actor: ActorId(1),
        callback: 3,
    };
    cells.make(cell)?;
    cells.add_waiter(cell, one)?;
    cells.add_waiter(cell, one)?;
    cells.remove_waiter(cell, one);
    let still = cells.waits(cell, one);
    let first = cells.waiter_at(cell, 0) == Some(one);
    let alone = cells.waiter_at(cell, 1).is_none();
    Ok(still && first && alone)
}

fn newest_leaves_alone(alloc: Global) -> Result<bool, NoMemory> {
    let mut cells: Cells<u64> = Cells::new(alloc)?;
    newest_leaves(&mut cells)
}

#[test]
fn the_newest_of_a_waiter_leaves(rt: HostRuntime) -> Result<(), NoMemory> {
    assert!(rt; newest_leaves_alone(rt.alloc())?);
    Ok(())
}

// The next of three cells is told after one that is there and one that isn't, and after one of them is removed.
fn skips_none(cells: &mut Cells<u64>) -> Result<bool, NoMemory>
    requires { cells.old ≡ record { things = []; greatest = 0 } }
{
    cells.make(CellId(2))?;
    cells.make(CellId(5))?;
    cells.make(CellId(9))?;
    let above_two = cells.next_cell(CellId(2));
    let above_three = cells.next_cell(CellId(3));
    let removed = cells.remove(CellId(5));
    let five = Some(CellId(5));
    Ok(
        above_two == five
            && above_three == five
            && removed.is_none()
            && cells.next_cell(CellId(2)) == Some(CellId(9))
            && cells.next_cell(CellId(9)).is_none(),
    )
}

fn clears(cells: &mut Cells<u64>) -> Result<bool, NoMemory> {
    cells.clear();
    if cells.next_cell(CellId(0)).is_some() || cells.greatest() >= 10 {
        return Ok(false);
    }
    cells.make(CellId(10))?;
    Ok(true)
}

fn skips_none_and_clears(cells: &mut Cells<u64>) -> Result<bool, NoMemory>
    requires { cells.old ≡ record { things = []; greatest = 0 } }
{
    Ok(skips_none(cells)? && clears(cells)?)
}

fn skips_none_alone(alloc: Global) -> Result<bool, NoMemory> {
    let mut cells: Cells<u64> = Cells::new(alloc)?;
    skips_none_and_clears(&mut cells)
}

#[test]
fn the_next_cell_skips_none(rt: HostRuntime) -> Result<(), NoMemory> {
    assert!(rt; skips_none_alone(rt.alloc())?);
    Ok(())
}
