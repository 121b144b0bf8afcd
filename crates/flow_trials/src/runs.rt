// Runs of a program, one after another.

ghost use Rattle.std.specs.Prelude.{◌≡◌, ℕ, List, false, map, None, IfOk, OnOk};
ghost use Rattle.flow_tree.specs.DeclView.{program_of};
ghost use Rattle.flow_tree.specs.declared.decl.Program.{Program as Tree};
ghost use Rattle.flow_front.specs.Verdict.{IsSound};
ghost use Rattle.flow_lower.specs.Compiled.{Has};
ghost use Rattle.flow_lower.specs.Weighing.{first_heavy};
ghost use Rattle.flow_class.specs.View.{raw_of};
ghost use Rattle.flow_class.specs.declared.class.RawClasses.{RawClasses};
ghost use Rattle.flow_monitor.specs.Attaching.{Handed, attached, want_fault};
ghost use Rattle.flow_worldfile.specs.Worlds.{IsInRange, seen};
ghost use Rattle.flow_worldfile.specs.declared.world.World0.{World0 as File};
ghost use Rattle.flow_world.specs.Starting.{Starts};
ghost use Rattle.flow_world.specs.Worlds.{world_seen};
ghost use Rattle.flow_sweep.specs.Sweeps.{Tries};
ghost use Rattle.flow_trials.specs.Trying.{Drew, DrewIn, IsReady, OnTrial, PanelFails, hearing, means, on_trial, trial_of};

use crate::hearing::hear_run;
use crate::hears::Hears;
use crate::monitors::Monitors;
use flow_base::memory::NoMemory;
use flow_cover::Cover;
use flow_monitor::{HandedIn, PanelFault, Want};
use flow_shrink::copied;
use flow_sweep::{Ran, Trials};
use flow_tree::decl::Program;
use flow_valid::program::ClassProgram;
use flow_world::World;
use flow_worldfile::World0;
use std::alloc::Global;
use std::snapshot::Snapshot;

/// A world that begins again for each run, the monitors of which those that are wanted hear each, and the actors whose branches are
/// looked after.
#[derive(Drop)]
pub struct Runs<'a, M: Monitors> {
    pub alloc: Global,
    pub program: Snapshot<Program>,
    pub world: World,
    pub monitors: &'a M,
    pub wanted: &'a [Want],
    pub cover: &'a Cover,
}

// The panel of the monitors that are wanted, of those at hand.
fn attached<P: flow_monitor::Monitors>(
    alloc: Global,
    handed: P,
    wanted: &[Want],
) -> Result<P, PanelFault>
    ensures fault { PanelFails (want_fault (map (λ (h : Handed). h.name) (P.handed handed))
        wanted.now) result }
    ensures ears { IfOk result (λ p. P.ears p ≡ attached wanted.now (P.handed handed)) }
{
    handed.attach(alloc, wanted)
}

/// Whether the monitors that are wanted are among those that are made, and none is wanted twice.
pub fn check_wanted<M: Monitors>(
    alloc: Global,
    monitors: &M,
    wanted: &[Want],
) -> Result<(), PanelFault>
    ensures { PanelFails (want_fault (map (λ (h : Handed). h.name) (M.handed monitors.now))
        wanted.now) result }
{
    let mut made = Vec::new(alloc);
    monitors.add(alloc, &mut made)?;
    match attached(alloc, HandedIn::new(alloc, made), wanted) {
        Ok(_) => Ok(()),
        Err(fault) => Err(fault),
    }
}

// Runs a world before its first event to its end, where a panel hears it that is made anew.
fn run_heard<M: Monitors>(
    alloc: Global,
    world: &mut World,
    cover: &Cover,
    monitors: &M,
    wanted: &[Want],
    timed: bool,
) -> Result<(Ran, Vec<u64>), NoMemory>
    requires { world.old.ended ≡ false }
    ensures tries { IfOk result (λ ran. (program : Tree) (file : File)
        → IsReady program (world_seen world.old).code → IsInRange (seen file)
        → Starts (world_seen world.old).code.program file (world_seen world.old)
        → let trial = on_trial program (world_seen world.old).code.program
        (attached wanted.now (M.handed monitors.now)) cover.now in
        Tries (means trial) (hearing trial) (seen file) timed ran.0 ran.1.items) }
    ensures drew { IfOk result (λ ran. (classes : RawClasses) (file : File)
        → Starts classes file (world_seen world.old)
        → Drew classes file (attached wanted.now (M.handed monitors.now))
        (world_seen world.new).outside.draws.used) }
    ensures code { IfOk result (λ ran.
        (world_seen world.new).code ≡ (world_seen world.old).code) }
{
    let mut made = Vec::new(alloc);
    monitors.add(alloc, &mut made)?;
    let Ok(mut panel) = attached(alloc, HandedIn::new(alloc, made), wanted) else {
        return Err(NoMemory);
    };
    let mut hears = Hears::new(alloc, cover, timed)?;
    let ended = hear_run(alloc, world, &mut panel, &mut hears)?;
    Ok(hears.told(ended))
}

impl<'a, M: Monitors> Runs<'a, M> {
    /// Runs of the classes of a program, where the monitors that are wanted hear each, of those that are made for it.
    pub fn new(
        alloc: Global,
        program: Snapshot<Program>,
        classes: ClassProgram,
        world: World0,
        monitors: &'a M,
        wanted: &'a [Want],
        cover: &'a Cover,
    ) -> Result<Runs<'a, M>, NoMemory>
        requires range { IsInRange (seen world) }
        ensures kept { IfOk result (λ r. trial_of r.program.value (world_seen r.world) r.wanted.now
            (M.handed r.monitors.now) r.cover.now
            ≡ on_trial program.value classes (attached wanted.now (M.handed monitors.now))
            cover.now) }
        ensures ready { IfOk result (λ r. (text : List ℕ) → IsSound text program.value
            → first_heavy (program_of program.value).decls ≡ None
            → Has (program_of program.value) (raw_of classes)
            → IsReady r.program.value (world_seen r.world).code) }
    {
        let world = World::start(alloc, classes, world)?;
        Ok(Runs {
            alloc,
            program,
            world,
            monitors,
            wanted,
            cover,
        })
    }

    /// Runs a world that is in range to its end, and where the times of its events are asked for, tells them.
    pub fn again(&mut self, world: &World0, timed: bool) -> Result<(Ran, Vec<u64>), NoMemory>
        requires range { IsInRange (seen world.now) }
        requires ready { IsReady self.old.program.value (world_seen self.old.world).code }
        ensures tries { IfOk result (λ ran. let trial = trial_of self.old.program.value
            (world_seen self.old.world) self.old.wanted.now (M.handed self.old.monitors.now)
            self.old.cover.now in
            Tries (means trial) (hearing trial) (seen world.now) timed ran.0 ran.1.items) }
        ensures drew { IfOk result (λ ran. DrewIn (world_seen self.old.world).code.program
            (seen world.now) (attached self.old.wanted.now (M.handed self.old.monitors.now))
            (world_seen self.new.world).outside.draws.used) }
        ensures ready { OnOk result (IsReady self.new.program.value
            (world_seen self.new.world).code) }
        ensures kept { OnOk result (trial_of self.new.program.value (world_seen self.new.world)
            self.new.wanted.now (M.handed self.new.monitors.now) self.new.cover.now
            ≡ trial_of self.old.program.value (world_seen self.old.world) self.old.wanted.now
            (M.handed self.old.monitors.now) self.old.cover.now) }
    {
        let file = copied(self.alloc, world)?;
        self.world.start_again(file)?;
        run_heard(
            self.alloc,
            &mut self.world,
            self.cover,
            self.monitors,
            self.wanted,
            timed,
        )
    }

    /// How many words the last run has drawn.
    pub fn words(&self) -> Result<u64, NoMemory>
        ensures { IfOk result (λ n. n ≡ (world_seen self.now.world).outside.draws.used) }
    {
        Ok(self.world.state()?.words)
    }
}

impl<'a, M: Monitors> Trials for Runs<'a, M> {
    ghost Kept = { OnTrial };

    ghost kept = { λ r. trial_of r.program.value (world_seen r.world) r.wanted.now
        (M.handed r.monitors.now) r.cover.now };

    ghost ready = { λ r. IsReady r.program.value (world_seen r.world).code };

    ghost means = { means };

    ghost hearing = { hearing };

    fn run(&mut self, world: &World0, timed: bool) -> Result<(Ran, Vec<u64>), NoMemory> {
        self.again(world, timed)
    }
}
