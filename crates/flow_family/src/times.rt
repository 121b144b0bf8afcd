// At which times events come.

ghost use Rattle.std.specs.Prelude.{◌≡◌, OnOk};
ghost use Rattle.flow_family.specs.Families.{is_later, time_added};

use flow_base::memory::NoMemory;
use flow_lab_monitors::late::event_time;
use flow_trace::line::Line;

// Whether a time is later than each of some that rise.
fn is_later(time: u64, times: &[u64]) -> bool
    ensures { result ≡ is_later time times.now }
{
    match times.last() {
        None => true,
        Some(last) => *last < time,
    }
}

/// Adds the time of an event, by its line, where it is later than those before it.
pub fn add_time(times: &mut Vec<u64>, line: &Line) -> Result<(), NoMemory>
    ensures { OnOk result (times.new.items ≡ time_added line.now times.old.items) }
{
    let Some(time) = event_time(line) else {
        return Ok(());
    };
    if is_later(time, times) {
        times.push(time)?;
    }
    Ok(())
}
