// A sweep: runs in the worlds of a family, one after another.

ghost use Rattle.std.specs.Prelude.{◌≡◌, ◌+◌, ◌≤◌, ◌<◌, ◌^◌, [], ◌∷◌, length, IfOk, IfErr, OnOk, Ok, Some};
ghost use Rattle.std.specs.Io.KnownBytes.{Appends};
ghost use Rattle.flow_base.specs.Bytes.{AppendsPart, Grows};
ghost use Rattle.flow_base.specs.Faults.{HasCause};
ghost use Rattle.flow_worldfile.specs.Worlds.{IsInRange, most_orders, seen};
ghost use Rattle.flow_base.specs.declared.fault.OutFault.TheVariants.{OutOfMemory};
ghost use Rattle.flow_family.specs.Families.{IsFamily, losses_at, losses_of};
ghost use Rattle.flow_sweep.specs.Sweeps.{BeginsSeed, BeginsSweep, Goes, GoesThrough, OfSeed, RunFails, RunMade, Swept, loss_trial, loss_trials_of, tallied, told_text, went_of};

use crate::ran::Ran;
use crate::tally::Tally;
use crate::telling::{find_text, first_text};
use crate::trials::Trials;
use flow_base::fault::OutFault;
use flow_base::ids::ProcId;
use flow_base::memory::NoMemory;
use flow_base::output::write_whole;
use flow_base::sink::Sink;
use flow_family::losses::is_borne;
use flow_family::{Family, PowerLoss, with_loss};
use flow_worldfile::World0;
use std::alloc::Global;

/// Whether a sweep goes on, or has found what it was to find.
#[derive(Clone, Copy, PartialEq, Eq)]
pub enum Went {
    On,
    Found,
}

/// What is kept of runs: how many ended how. The first find ends them, or doesn't.
#[derive(Drop)]
pub struct Log {
    pub alloc: Global,
    pub first: bool,
    pub tally: Tally,
}

// Want of memory.
fn or_fault<T: Drop>(made: Result<T, NoMemory>) -> Result<T, OutFault>
    ensures value { IfOk result (λ x. made ≡ Ok x) }
    ensures fault { IfErr result (λ f. f ≡ OutOfMemory) }
{
    match made {
        Ok(value) => Ok(value),
        Err(_) => Err(OutFault::OutOfMemory),
    }
}

impl Log {
    // Writes what a run came to, if it is to be told, and counts it.
    fn tell<S: Sink>(
        &mut self,
        seed: u64,
        loss: Option<PowerLoss>,
        world: &World0,
        ran: &Ran,
        out: &mut S,
    ) -> Result<Went, OutFault>
        ensures went { IfOk result (λ went. went ≡ went_of self.old.first ran.now.ended) }
        ensures counted { OnOk result (self.new.tally ≡ tallied ran.now self.old.tally) }
        ensures whole { OnOk result (Appends (S.seen out.old).written (S.seen out.new).written
            (told_text self.old.first seed loss (seen world.now) ran.now)) }
        ensures part { AppendsPart (S.seen out.old).written (S.seen out.new).written
            (told_text self.old.first seed loss (seen world.now) ran.now) }
        ensures first { self.new.first ≡ self.old.first }
        ensures handed { Grows (S.seen out.old).handed (S.seen out.new).handed }
        ensures cause { HasCause (S.seen out.old).faults (S.seen out.new).faults result }
    {
        or_fault(self.tally.add(ran))?;
        if !ran.ended.is_find() {
            return Ok(Went::On);
        }
        if self.first {
            let text = or_fault(first_text(self.alloc, seed, loss, ran, world))?;
            write_whole(out, &text)?;
            return Ok(Went::Found);
        }
        let text = or_fault(find_text(self.alloc, b"", seed, loss, ran))?;
        write_whole(out, &text)?;
        Ok(Went::On)
    }

    // Makes a run, and tells it.
    fn run<T: Trials, S: Sink>(
        &mut self,
        trials: &mut T,
        seed: u64,
        loss: Option<PowerLoss>,
        world: &World0,
        timed: bool,
        out: &mut S,
    ) -> Result<(Went, Vec<u64>), OutFault>
        requires range { IsInRange (seen world.now) }
        requires ready { T.ready trials.old }
        ensures made { IfOk result (λ x. RunMade (T.means (T.kept trials.old))
            (T.hearing (T.kept trials.old)) self.old.first
            (record { seed = seed; loss = loss; world = seen world.now }) timed self.old.tally
            self.new.tally (S.seen out.old).written (S.seen out.new).written x.0 x.1.items) }
        ensures fails { IfErr result (λ f. RunFails (T.means (T.kept trials.old))
            (T.hearing (T.kept trials.old)) self.old.first
            (record { seed = seed; loss = loss; world = seen world.now })
            (S.seen out.old).written (S.seen out.new).written) }
        ensures first { self.new.first ≡ self.old.first }
        ensures ready { OnOk result (T.ready trials.new) }
        ensures kept { OnOk result (T.kept trials.new ≡ T.kept trials.old) }
        ensures handed { Grows (S.seen out.old).handed (S.seen out.new).handed }
        ensures cause { HasCause (S.seen out.old).faults (S.seen out.new).faults result }
    {
        let (ran, times) = match trials.run(world, timed) {
            Ok(made) => made,
            Err(_) => return Err(OutFault::OutOfMemory),
        };
        match self.tell(seed, loss, world, &ran, out) {
            Ok(went) => Ok((went, times)),
            Err(fault) => Err(fault),
        }
    }

    // Makes the run with a loss of power.
    fn run_borne<T: Trials, S: Sink>(
        &mut self,
        trials: &mut T,
        seed: u64,
        loss: PowerLoss,
        own: &World0,
        down: u64,
        out: &mut S,
    ) -> Result<Went, OutFault>
        requires range { IsInRange (seen own.now) }
        requires room { length (seen own.now).script + 2 ≤ most_orders }
        requires ready { T.ready trials.old }
        requires process { loss.process.0 < (seen own.now).processes }
        requires borne { loss.time + down ≤ 2 ^ 62 }
        ensures goes { GoesThrough (T.means (T.kept trials.old)) (T.hearing (T.kept trials.old))
            (loss_trial down seed (seen own.now) loss ∷ [])
            self.old.first self.old.tally self.new.tally
            (S.seen out.old).written (S.seen out.new).written result }
        ensures first { self.new.first ≡ self.old.first }
        ensures ready { OnOk result (T.ready trials.new) }
        ensures kept { OnOk result (T.kept trials.new ≡ T.kept trials.old) }
        ensures handed { Grows (S.seen out.old).handed (S.seen out.new).handed }
        ensures cause { HasCause (S.seen out.old).faults (S.seen out.new).faults result }
    {
        let Ok(world) = with_loss(self.alloc, own, loss, down) else {
            return Err(OutFault::OutOfMemory);
        };
        match self.run(trials, seed, Some(loss), &world, false, out) {
            Ok((went, _)) => Ok(went),
            Err(fault) => Err(fault),
        }
    }

    // Makes the run with a loss of power, where the process can boot again.
    fn run_loss<T: Trials, S: Sink>(
        &mut self,
        trials: &mut T,
        seed: u64,
        loss: PowerLoss,
        own: &World0,
        down: u64,
        out: &mut S,
    ) -> Result<Went, OutFault>
        requires range { IsInRange (seen own.now) }
        requires room { length (seen own.now).script + 2 ≤ most_orders }
        requires ready { T.ready trials.old }
        requires process { loss.process.0 < (seen own.now).processes }
        ensures goes { GoesThrough (T.means (T.kept trials.old)) (T.hearing (T.kept trials.old))
            (loss_trials_of down seed (seen own.now)
            (losses_at down loss.process.0 (loss.time ∷ [])))
            self.old.first self.old.tally self.new.tally
            (S.seen out.old).written (S.seen out.new).written result }
        ensures first { self.new.first ≡ self.old.first }
        ensures ready { OnOk result (T.ready trials.new) }
        ensures kept { OnOk result (T.kept trials.new ≡ T.kept trials.old) }
        ensures handed { Grows (S.seen out.old).handed (S.seen out.new).handed }
        ensures cause { HasCause (S.seen out.old).faults (S.seen out.new).faults result }
    {
        if is_borne(loss.time, down) {
            return self.run_borne(trials, seed, loss, own, down, out);
        }
        Ok(Went::On)
    }

    // Makes the runs with a loss of power of a process at each of these times.
    fn run_losses_of<T: Trials, S: Sink>(
        &mut self,
        trials: &mut T,
        seed: u64,
        process: ProcId,
        times: &[u64],
        own: &World0,
        down: u64,
        out: &mut S,
    ) -> Result<Went, OutFault>
        requires range { IsInRange (seen own.now) }
        requires room { length (seen own.now).script + 2 ≤ most_orders }
        requires ready { T.ready trials.old }
        requires process { process.0 < (seen own.now).processes }
        ensures goes { GoesThrough (T.means (T.kept trials.old)) (T.hearing (T.kept trials.old))
            (loss_trials_of down seed (seen own.now) (losses_at down process.0 times.now))
            self.old.first self.old.tally self.new.tally
            (S.seen out.old).written (S.seen out.new).written result }
        ensures first { self.new.first ≡ self.old.first }
        ensures ready { OnOk result (T.ready trials.new) }
        ensures kept { OnOk result (T.kept trials.new ≡ T.kept trials.old) }
        ensures handed { Grows (S.seen out.old).handed (S.seen out.new).handed }
        ensures cause { HasCause (S.seen out.old).faults (S.seen out.new).faults result }
    {
        for time in times {
            let loss = PowerLoss {
                process,
                time: *time,
            };
            match self.run_loss(trials, seed, loss, own, down, out) {
                Ok(Went::On) => {}
                Ok(Went::Found) => return Ok(Went::Found),
                Err(fault) => return Err(fault),
            }
        }
        Ok(Went::On)
    }

    // Makes the runs with a loss of power of each process at each of these times.
    fn run_losses<T: Trials, S: Sink>(
        &mut self,
        trials: &mut T,
        seed: u64,
        times: &[u64],
        own: &World0,
        down: u64,
        out: &mut S,
    ) -> Result<Went, OutFault>
        requires range { IsInRange (seen own.now) }
        requires room { length (seen own.now).script + 2 ≤ most_orders }
        requires ready { T.ready trials.old }
        ensures goes { GoesThrough (T.means (T.kept trials.old)) (T.hearing (T.kept trials.old))
            (loss_trials_of down seed (seen own.now)
            (losses_of down times.now (seen own.now).processes))
            self.old.first self.old.tally self.new.tally
            (S.seen out.old).written (S.seen out.new).written result }
        ensures first { self.new.first ≡ self.old.first }
        ensures ready { OnOk result (T.ready trials.new) }
        ensures kept { OnOk result (T.kept trials.new ≡ T.kept trials.old) }
        ensures handed { Grows (S.seen out.old).handed (S.seen out.new).handed }
        ensures cause { HasCause (S.seen out.old).faults (S.seen out.new).faults result }
    {
        for process in 0..own.processes {
            match self.run_losses_of(trials, seed, ProcId(process), times, own, down, out) {
                Ok(Went::On) => {}
                Ok(Went::Found) => return Ok(Went::Found),
                Err(fault) => return Err(fault),
            }
        }
        Ok(Went::On)
    }

    // Makes the runs of a seed.
    fn run_seed<T: Trials, S: Sink>(
        &mut self,
        trials: &mut T,
        family: &Family,
        world: &World0,
        seed: u64,
        out: &mut S,
    ) -> Result<Went, OutFault>
        requires family { IsFamily family.now (seen world.now) }
        requires ready { T.ready trials.old }
        ensures goes { let means = T.means (T.kept trials.old) in
            let hearing = T.hearing (T.kept trials.old) in
            Goes (OfSeed means hearing family.now (seen world.now) seed)
            (BeginsSeed means hearing family.now (seen world.now) seed)
            self.old.first self.old.tally self.new.tally
            (S.seen out.old).written (S.seen out.new).written result }
        ensures first { self.new.first ≡ self.old.first }
        ensures ready { OnOk result (T.ready trials.new) }
        ensures kept { OnOk result (T.kept trials.new ≡ T.kept trials.old) }
        ensures handed { Grows (S.seen out.old).handed (S.seen out.new).handed }
        ensures cause { HasCause (S.seen out.old).faults (S.seen out.new).faults result }
    {
        let Ok(own) = family.world_of(self.alloc, world, seed) else {
            return Err(OutFault::OutOfMemory);
        };
        let (went, times) = match self.run(trials, seed, None, &own, family.down.is_some(), out) {
            Ok(made) => made,
            Err(fault) => return Err(fault),
        };
        match went {
            Went::Found => return Ok(Went::Found),
            Went::On => {}
        }
        match family.down {
            None => Ok(Went::On),
            Some(down) => self.run_losses(trials, seed, &times, &own, down, out),
        }
    }

    /// Makes the runs of a family of worlds, in the order of their seeds: of each first its own, and then those with a loss of power.
    /// Writes those that were stopped or spent as they come, or the first of them alone, with its world, by which it ends.
    pub fn run_all<T: Trials, S: Sink>(
        &mut self,
        trials: &mut T,
        family: &Family,
        world: &World0,
        out: &mut S,
    ) -> Result<Went, OutFault>
        requires family { IsFamily family.now (seen world.now) }
        requires ready { T.ready trials.old }
        requires seeds { family.now.from ≤ family.now.to }
        requires few { family.now.to < family.now.from + 1000000 }
        ensures goes { let means = T.means (T.kept trials.old) in
            let hearing = T.hearing (T.kept trials.old) in
            Goes (Swept means hearing family.now (seen world.now))
            (BeginsSweep means hearing family.now (seen world.now))
            self.old.first self.old.tally self.new.tally
            (S.seen out.old).written (S.seen out.new).written result }
        ensures first { self.new.first ≡ self.old.first }
        ensures ready { OnOk result (T.ready trials.new) }
        ensures kept { OnOk result (T.kept trials.new ≡ T.kept trials.old) }
        ensures handed { Grows (S.seen out.old).handed (S.seen out.new).handed }
        ensures cause { HasCause (S.seen out.old).faults (S.seen out.new).faults result }
    {
        for further in 0..family.to - family.from + 1 {
            match self.run_seed(trials, family, world, family.from + further, out) {
                Ok(Went::On) => {}
                Ok(Went::Found) => return Ok(Went::Found),
                Err(fault) => return Err(fault),
            }
        }
        Ok(Went::On)
    }
}
