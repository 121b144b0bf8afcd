// Faults, as words tell them.

ghost use Rattle.std.specs.Prelude.{◌≡◌, ◌+◌, ◌^◌, ◌<◌, ◌≤◌, replicate};
ghost use Rattle.flow_draw.specs.declared.question.Question.TheVariants.{Among};
ghost use Rattle.flow_draw.specs.Words.{word_at, asked};
ghost use Rattle.flow_storm.specs.Storms.{fault_of, other_process, strike_by};

use flow_base::ids::ProcId;
use flow_draw::Draws;

/// What befalls a world: a process is killed and boots again, the link of two processes is cut and heals, a process is stopped
/// and boots again, or requests of a disk fail.
#[derive(Clone, Copy, PartialEq, Eq)]
pub enum Fault {
    Crash,
    CutOff,
    Stop,
    Disk,
}

/// A fault, the process that it befalls, another one where there is one, the time at which it comes, in ticks, and how much
/// later it is over: at least one tick. Of a disk that is how many of its requests fail.
#[derive(Clone, Copy, PartialEq, Eq)]
pub struct Strike {
    pub fault: Fault,
    pub process: ProcId,
    pub other: ProcId,
    pub time: u64,
    pub length: u64,
}

// The fault of a kind, from 0 to 7, in a world of so many processes.
fn fault_of(kind: u32, processes: u8) -> Fault
    ensures { result ≡ fault_of kind processes }
{
    if kind < 3 {
        return Fault::Crash;
    }
    if kind < 6 {
        return if processes == 1 {
            Fault::Crash
        } else {
            Fault::CutOff
        };
    }
    if kind == 6 {
        return Fault::Stop;
    }
    Fault::Disk
}

// One of so many processes that isn't this one, where there is another.
fn other_process(process: u8, word: u32, processes: u8) -> u8
    requires some { 1 ≤ processes }
    requires few { processes ≤ 64 }
    requires process { process < processes }
    ensures { result ≡ other_process process word processes }
{
    if processes == 1 {
        return process;
    }
    let further = word % u32::from(processes - 1);
    ((u32::from(process) + 1 + further) % u32::from(processes)) as u8
}

impl Strike {
    /// What the next five words tell, in a world of so many processes, 1 to 64, with times up to a horizon, at most
    /// 1,000,000,000 ticks.
    pub fn drawn(draws: &mut Draws, processes: u8, horizon: u64) -> Strike
        requires some { 1 ≤ processes }
        requires few { processes ≤ 64 }
        requires horizon { horizon ≤ 1000000000 }
        requires room { draws.old.used + 5 < 2 ^ 63 }
        ensures strike { result ≡ strike_by
            (λ k. word_at draws.old.seed draws.old.listed (draws.old.used + k)) processes horizon }
        ensures taken { draws.new ≡ asked draws.old (replicate 5 (Among (2 ^ 32))) }
    {
        let kind = draws.next() % 8;
        let process = (draws.next() % u32::from(processes)) as u8;
        let other = other_process(process, draws.next(), processes);
        let time = u64::from(draws.next()) % (horizon + 1);
        let length = 1 + u64::from(draws.next()) % (horizon / 8 + 1);
        Strike {
            fault: fault_of(kind, processes),
            process: ProcId(process),
            other: ProcId(other),
            time,
            length,
        }
    }
}
