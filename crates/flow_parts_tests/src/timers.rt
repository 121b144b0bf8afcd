// Tests of flow_timers.

ghost use Rattle.std.specs.Prelude.{◌<◌};

use flow_base::memory::NoMemory;
use flow_timers::Timers;
use std::alloc::Global;

// Whether an event that is made after few others gets this number.
fn adds(timers: &mut Timers<char>, time: u64, what: char, number: u64) -> Result<bool, NoMemory> {
    Ok(timers.made() < 1000 && timers.add(time, what)? == number)
}

fn gets_numbers(timers: &mut Timers<char>) -> Result<bool, NoMemory> {
    Ok(
        timers.first().is_none()
            && adds(timers, 5, 'a', 1)?
            && adds(timers, 3, 'b', 2)?
            && adds(timers, 5, 'c', 3)?
            && adds(timers, 3, 'd', 4)?,
    )
}

// The first event is taken out, and what isn't pending isn't.
fn takes_the_first(timers: &mut Timers<char>) -> bool {
    timers.first() == Some((3, 2))
        && timers.remove(3, 2) == Some('b')
        && timers.remove(3, 2).is_none()
        && timers.remove(5, 4).is_none()
        && timers.remove(4, 4).is_none()
}

fn takes_the_others(timers: &mut Timers<char>) -> bool {
    timers.remove(5, 3) == Some('c')
        && timers.remove(3, 4) == Some('d')
        && timers.first() == Some((5, 1))
        && timers.remove(5, 1) == Some('a')
        && timers.first().is_none()
}

fn keeps_order(timers: &mut Timers<char>) -> Result<bool, NoMemory> {
    Ok(
        gets_numbers(timers)?
            && takes_the_first(timers)
            && takes_the_others(timers)
            && adds(timers, 0, 'e', 5)?,
    )
}

fn keeps_order_alone(alloc: Global) -> Result<bool, NoMemory> {
    let mut timers = Timers::new(alloc)?;
    keeps_order(&mut timers)
}

#[test]
fn least_time_then_number(rt: HostRuntime) -> Result<(), NoMemory> {
    assert!(rt; keeps_order_alone(rt.alloc())?);
    Ok(())
}

/// The entries with their contents copied.
fn owned(alloc: Global, timers: &Timers<char>) -> Result<Vec<(u64, u64, char)>, NoMemory> {
    let mut entries = Vec::new(alloc);
    copy_all(timers, &mut entries)?;
    Ok(entries)
}

fn copy_all(timers: &Timers<char>, entries: &mut Vec<(u64, u64, char)>) -> Result<(), NoMemory> {
    for (time, number, what) in timers.entries()? {
        entries.push((time, number, *what))?;
    }
    Ok(())
}

fn lists(
    alloc: Global,
    timers: &Timers<char>,
    wanted: &[(u64, u64, char)],
) -> Result<bool, NoMemory> {
    let entries = owned(alloc, timers)?;
    Ok(entries.as_slice() == wanted)
}

// Whether both have the same entries.
fn list_alike(
    alloc: Global,
    timers: &Timers<char>,
    again: &Timers<char>,
) -> Result<bool, NoMemory> {
    let entries = owned(alloc, timers)?;
    lists(alloc, again, &entries)
}

const ORDER: [(u64, u64, char); 4] = [(2, 4, 'd'), (2, 9, 'i'), (7, 1, 'a'), (7, 3, 'c')];

// Whether this is the first entry, which is taken out.
fn gives(timers: &mut Timers<char>, (time, number, what): (u64, u64, char)) -> bool {
    timers.first() == Some((time, number)) && timers.remove(time, number) == Some(what)
}

fn give_in_order(timers: &mut Timers<char>, again: &mut Timers<char>) -> bool {
    for entry in ORDER {
        if !gives(timers, entry) || !gives(again, entry) {
            return false;
        }
    }
    true
}

fn go_on_alike(
    alloc: Global,
    timers: &mut Timers<char>,
    again: &mut Timers<char>,
) -> Result<bool, NoMemory> {
    Ok(
        list_alike(alloc, timers, again)?
            && adds(again, 9, 'j', 10)?
            && give_in_order(timers, again)
            && again.first() == Some((9, 10)),
    )
}

fn restored(alloc: Global) -> Result<Timers<char>, NoMemory> {
    let given = vec![in alloc; (7, 3, 'c'), (2, 9, 'i'), (7, 1, 'a'), (2, 4, 'd')]?;
    Timers::restore(alloc, 9, given)
}

fn restored_again(alloc: Global, timers: &Timers<char>) -> Result<Timers<char>, NoMemory> {
    Timers::restore(alloc, 9, owned(alloc, timers)?)
}

fn restores(alloc: Global, timers: &mut Timers<char>) -> Result<bool, NoMemory> {
    let mut again = restored_again(alloc, timers)?;
    go_on_alike(alloc, timers, &mut again)
}

fn restores_alone(alloc: Global) -> Result<bool, NoMemory> {
    let mut timers = restored(alloc)?;
    restores(alloc, &mut timers)
}

#[test]
fn restores_parts(rt: HostRuntime) -> Result<(), NoMemory> {
    assert!(rt; restores_alone(rt.alloc())?);
    Ok(())
}

/// The next number of a simple row of numbers below 2^31.
fn scattered(number: u64) -> u64
    ensures { result < 2147483648 }
{
    (number.wrapping_mul(1103515245).wrapping_add(12345)) % 2147483648
}

// Makes an event after few others.
fn add(timers: &mut Timers<u32>, time: u64, count: u32) -> Result<bool, NoMemory> {
    if timers.made() >= 1 << 40 {
        return Ok(false);
    }
    timers.add(time, count)?;
    Ok(true)
}

// Takes out the first event, which comes at this time or later, and gives its time.
fn take(timers: &mut Timers<u32>, now: u64) -> Option<u64> {
    let (time, number) = timers.first()?;
    if time < now || timers.remove(time, number).is_none() {
        return None;
    }
    Some(time)
}

// An event is made, and the first is taken out where forty thousand others are pending: the time then.
fn pass(
    timers: &mut Timers<u32>,
    now: u64,
    delay: u64,
    count: u32,
) -> Result<Option<u64>, NoMemory> {
    if !add(timers, now.saturating_add(delay), count)? {
        return Ok(None);
    }
    if count < 40_000 {
        return Ok(Some(now));
    }
    Ok(take(timers, now))
}

fn passes(timers: &mut Timers<u32>) -> Result<bool, NoMemory> {
    let mut number: u64 = 1;
    let mut now: u64 = 0;
    for count in 0..1_000_000u32 {
        number = scattered(number);
        let Some(time) = pass(timers, now, number % 5000, count)? else {
            return Ok(false);
        };
        now = time;
    }
    Ok(true)
}

fn lists_forty_thousand(timers: &Timers<u32>) -> Result<bool, NoMemory> {
    let listed = timers.entries()?;
    Ok(listed.len() == 40_000)
}

fn passes_a_million(timers: &mut Timers<u32>) -> Result<bool, NoMemory> {
    Ok(passes(timers)? && timers.made() == 1_000_000 && lists_forty_thousand(timers)?)
}

fn passes_alone(alloc: Global) -> Result<bool, NoMemory> {
    let mut timers = Timers::new(alloc)?;
    passes_a_million(&mut timers)
}

#[test]
fn a_million_with_forty_thousand_pending(rt: HostRuntime) -> Result<(), NoMemory> {
    assert!(rt; passes_alone(rt.alloc())?);
    Ok(())
}
