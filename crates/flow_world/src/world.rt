// The world.

ghost use Rattle.std.specs.Prelude.{◌≡◌, ◌+◌, ◌-◌, ◌^◌, ◌<◌, ◌≤◌, false, true, min, slice_get, map, IfOk, IfErr, OnOk, OnErr, IsErrOf};
ghost use Rattle.flow_worldfile.specs.Worlds.{IsInRange, seen};
ghost use Rattle.flow_worldfile.specs.declared.world.Act.TheVariants as act;
ghost use Rattle.flow_simnet.specs.Links.{cut, healed};
ghost use Rattle.flow_machine.specs.declared.host.Burst.{Burst as Ended};
ghost use Rattle.flow_machine.specs.declared.host.Burst.TheVariants.{Rested};
ghost use Rattle.flow_machine.specs.declared.host.RunFault.TheVariants.{Failed, Stuck};
ghost use Rattle.flow_machine.specs.Cause.{RunCause};
ghost use Rattle.flow_world.specs.Ending.{MeansEvent, WithinEvent, next};
ghost use Rattle.flow_world.specs.Worlds.{world_seen};
ghost use Rattle.flow_world.specs.FaultedLines.{Telling, tells, whole, failed};
ghost use Rattle.flow_world.specs.Happening.{EventDoes, Breaks, Comes, LineComes, EventComes, Ordered, Happened};
ghost use Rattle.flow_world.specs.Happening.{Killed, Arrived, Taken, Answered, Runs, Fails, HeardIn};
ghost use Rattle.flow_world.specs.Happening.{Vanishes, HeldAt, ActsAt, begins, with_net};
ghost use Rattle.flow_world.specs.BreakingEvents.{NoProcess, NoDisk, NoLink, ActsAtBreaks, RunsBreaks, OrderedBreaks};
ghost use Rattle.flow_world.specs.BreakingEvents.{TakenBreaks, ArrivedBreaks, AnsweredBreaks, HappenedBreaks};
ghost use Rattle.flow_world.specs.BreakingEvents.{LineBreaks, PendingBreaks, MomentBreaks, MomentFails, EventFails};
ghost use Rattle.flow_class.specs.declared.class.RawClasses.{RawClasses};
ghost use Rattle.flow_world.specs.Starting.{IsCodeOf, Starts};
ghost use Rattle.flow_heapstate.specs.State.{actor_kept};
ghost use Rattle.flow_saved.specs.Saved.{saved_of};
ghost use Rattle.flow_saved.specs.CanResume.{CanResume, HasGivenFew};
ghost use Rattle.flow_world.specs.Resuming.{MadeFrom};
ghost use Rattle.flow_world.specs.Saving.{SavedAs};
ghost use Rattle.flow_world.specs.Views.{frames_at, callbacks_at, NumbersRiseAt, actors_at, live_in};

use crate::action::{EventAction, acts, holds_already};
use crate::answers::{disk_line, disk_outcome, packet_value};
use crate::asked::Asked;
use crate::event::Event;
use crate::outside::{LAST_TIME, Outside, What};
use crate::place::Place;
use crate::put::{put, put_kept};
use crate::resuming::world_made;
use crate::saving::world_told;
use crate::script::Script;
use crate::starting::first_state;
use crate::teller::{Teller, unless_failed};
use flow_base::ids::{CellId, ProcId};
use flow_base::memory::NoMemory;
use flow_code::program::Code;
use flow_draw::question::Question;
use flow_heapstate::state::ActorState;
use flow_machine::host::{Burst, RunFault};
use flow_machine::views::{CallbackView, FrameView};
use flow_saved::WorldState;
use flow_simnet::Packet;
use flow_trace::line::Line;
use flow_trace::out::LineOut;
use flow_valid::program::ClassProgram;
use flow_value::value::{Outcome, Value};
use flow_worldfile::{Act, World0};
use std::alloc::Global;
use std::snapshot::Snapshot;

/// A world: its classes, its processes and what is outside of them, how far its run has come, and the file that describes it
/// before its first event.
#[derive(Drop)]
pub struct World {
    alloc: Global,
    code: Code,
    places: Vec<Place>,
    outside: Outside,
    script: Script,
    ran: u32,
    ended: bool,
    file: World0,
}

// Whether fewer events than the bound have run, so that one more is counted.
fn may_run(ran: u32, bound: u32) -> bool
    ensures more { result ≡ true → ran < bound }
    ensures counted { result ≡ true → ran + 1 < 2 ^ 32 }
    ensures reached { result ≡ false → bound ≤ ran }
{
    ran < bound
}

impl World {
    /// A world before its first event: each process is down, and a boot of each is pending at time 0. It has no room for notes.
    pub fn start(alloc: Global, classes: ClassProgram, world: World0) -> Result<World, NoMemory>
        requires { IsInRange (seen world) }
        ensures starts { IfOk result (λ w. Starts classes world (world_seen w)) }
        ensures room { IfOk result (λ w. (world_seen w).outside.draws.room ≡ 0) }
        ensures ran { IfOk result (λ w. w.ran ≡ 0) }
        ensures ended { IfOk result (λ w. w.ended ≡ false) }
    {
        World::noting(alloc, classes, world, 0)
    }

    /// The same, with room for so many notes of what drawn words are asked for.
    pub fn noting(
        alloc: Global,
        classes: ClassProgram,
        world: World0,
        room: usize,
    ) -> Result<World, NoMemory>
        requires { IsInRange (seen world) }
        ensures starts { IfOk result (λ w. Starts classes world (world_seen w)) }
        ensures room { IfOk result (λ w. (world_seen w).outside.draws.room ≡ room) }
        ensures ran { IfOk result (λ w. w.ran ≡ 0) }
        ensures ended { IfOk result (λ w. w.ended ≡ false) }
    {
        // Each way out drops what was made before it, so that the parts come together and last.
        let code = Code::new(alloc, classes)?;
        let (places, outside, script) = first_state(alloc, &world, room)?;
        Ok(World {
            alloc,
            code,
            places,
            outside,
            script,
            ran: 0,
            ended: false,
            file: world,
        })
    }

    /// The world of a state with these classes, between events: it goes on as the one of which the state was told.
    pub fn resume(
        alloc: Global,
        classes: ClassProgram,
        state: WorldState,
    ) -> Result<World, NoMemory>
        requires { CanResume (saved_of state) }
        ensures { IfOk result (λ w. MadeFrom classes (saved_of state) (world_seen w)) }
    {
        let code = Code::new(alloc, classes)?;
        let ran = state.events;
        let (file, places, outside, script) = world_made(alloc, state)?;
        Ok(World {
            alloc,
            code,
            places,
            outside,
            script,
            ran,
            ended: false,
            file,
        })
    }

    /// All that it has to keep from one event to the next, of which `resume` makes it again. `NoMemory` comes for want of memory, and
    /// where more than 2^62 cells or actors of a process, pending events or packets were numbered, or words drawn.
    pub fn state(&self) -> Result<WorldState, NoMemory>
        ensures told { IfOk result (λ s. SavedAs (world_seen self.now) (saved_of s)) }
        ensures few { IfOk result (λ s. HasGivenFew (saved_of s)) }
    {
        let done = self.file.script.len().saturating_sub(self.script.left());
        let Ok(done) = u32::try_from(done) else {
            return Err(NoMemory);
        };
        world_told(
            self.alloc,
            &self.file,
            self.ran,
            done,
            &self.places,
            &self.outside,
        )
    }

    /// The same classes in another world, before its first event, with the same room for notes. Their names aren't resolved
    /// again. Unchanged on an error.
    pub fn start_again(&mut self, file: World0) -> Result<(), NoMemory>
        requires { IsInRange (seen file) }
        ensures starts { OnOk result ((c : RawClasses) → IsCodeOf c (world_seen self.old).code
            → Starts c file (world_seen self.new)) }
        ensures room { OnOk result ((world_seen self.new).outside.draws.room
            ≡ (world_seen self.old).outside.draws.room) }
        ensures code { self.new.code ≡ self.old.code }
        ensures ended { OnOk result (self.new.ended ≡ false) }
        ensures unchanged { OnErr result (world_seen self.new ≡ world_seen self.old) }
    {
        let (places, outside, script) = first_state(self.alloc, &file, self.outside.draws.room())?;
        self.places = places;
        self.outside = outside;
        self.script = script;
        self.ran = 0;
        self.ended = false;
        self.file = file;
        Ok(())
    }

    /// The file that describes it before its first event, with its script in the order of the file.
    pub fn file(&self) -> &World0
        ensures { result.now ≡ self.now.file }
    {
        &self.file
    }

    /// How many events have run, and the time in ticks.
    pub fn at(&self) -> (u32, u64)
        ensures { result ≡ (self.now.ran, self.now.outside.time) }
    {
        (self.ran, self.outside.time)
    }

    /// What the first drawn words were asked for, as many as it has room for.
    pub fn noted(&self) -> &[Question]
        ensures { result.now ≡ (world_seen self.now).outside.draws.noted }
    {
        self.outside.draws.noted()
    }

    /// The classes that run in it.
    pub fn classes(&self) -> &ClassProgram
        ensures { result.now ≡ self.now.code.program }
    {
        self.code.program()
    }

    /// How many processes there are.
    pub fn processes(&self) -> u8
        ensures { result ≡ self.now.outside.net.processes }
    {
        self.outside.net.processes()
    }

    /// Whether an event was spent, was stopped or broke off: none may follow.
    pub fn ended(&self) -> bool
        ensures { result ≡ self.now.ended }
    {
        self.ended
    }

    /// Runs the next event and puts its lines. With no event pending and no line of the script left it is idle, and else,
    /// with as many events run as the bound, the bound is reached; neither puts a line, and both are answered again. Where a
    /// put fails the event goes on to its end, with no line more, and then that fault is answered.
    pub(crate) fn next_event<L: LineOut>(&mut self, out: &mut L) -> Result<Event, RunFault>
        requires { self.old.ended ≡ false }
        ensures means { MeansEvent (world_seen self.old) result (world_seen self.new) }
        ensures does { IfOk result (λ e. EventDoes (tells L.puts) e
            (world_seen self.old) (whole out.old) (world_seen self.new) (whole out.new)) }
        ensures breaks { IsErrOf result Failed → Breaks (tells L.puts)
            (world_seen self.old) (whole out.old) (world_seen self.new) (failed out.new) }
        ensures fails { IfErr result (λ f. (t : Telling L) × (t.out ≡ out.new)
            × EventFails L.puts (world_seen self.old) (whole out.old) f t) }
        ensures cause { RunCause (L.faults out.old) (L.faults out.new) result }
        ensures kept { L.kept out.new ≡ L.kept out.old }
    {
        let Some((time, scripted)) = self.next_time() else {
            return Ok(Event::Idle);
        };
        if !may_run(self.ran, self.file.events) {
            return Ok(Event::BoundReached);
        }
        match self.carries_out(time, scripted, out)? {
            Burst::Spent => Ok(Event::Spent),
            Burst::Rested => {
                self.ended = false;
                Ok(Event::Ran)
            }
        }
    }

    /// No event may follow.
    pub(crate) fn end(&mut self)
        ensures { world_seen self.new ≡ record (world_seen self.old) { ended = true } }
    {
        self.ended = true;
    }

    /// Carries out what comes next to its end. The fault of a put is answered then.
    fn carries_out<L: LineOut>(
        &mut self,
        time: u64,
        scripted: bool,
        out: &mut L,
    ) -> Result<Burst, RunFault>
        requires { self.old.ran + 1 < 2 ^ 32 }
        ensures comes { IfOk result (λ e. Comes (tells L.puts) scripted (begins time
            (world_seen self.old)) (whole out.old) e (world_seen self.new) (whole out.new)) }
        ensures breaks { IsErrOf result Failed → (e : Ended)
            × Comes (tells L.puts) scripted (begins time
            (world_seen self.old)) (whole out.old) e (world_seen self.new) (failed out.new) }
        ensures ended { self.new.ended ≡ true }
        ensures file { self.new.file ≡ self.old.file }
        ensures ran { OnOk result (self.new.ran ≡ self.old.ran + 1) }
        ensures fails { IfErr result (λ f. (t : Telling L) × (t.out ≡ out.new)
            × MomentFails L.puts time scripted (world_seen self.old) (whole out.old) f t) }
        ensures cause { RunCause (L.faults out.old) (L.faults out.new) result }
        ensures kept { L.kept out.new ≡ L.kept out.old }
    {
        let before = Snapshot::of(&*out);
        let mut teller = Teller {
            out,
            fault: None,
            before,
        };
        let burst = self.comes(time, scripted, &mut teller);
        let Teller {
            out,
            fault,
            before: _,
        } = teller;
        // No effect at run time. The proof reads what `out` is from this use of it.
        let _ = &*out;
        unless_failed(burst, fault)
    }

    /// The time of what comes next, and whether it is a line of the script: one comes before all pending events of the
    /// same time.
    fn next_time(&self) -> Option<(u64, bool)>
        ensures { result ≡ next (world_seen self.now) }
    {
        match (self.script.first(), self.outside.timers.first()) {
            (None, None) => None,
            (Some(time), None) => Some((time, true)),
            (None, Some((time, _))) => Some((time, false)),
            (Some(line), Some((time, _))) => Some(if line <= time {
                (line, true)
            } else {
                (time, false)
            }),
        }
    }

    /// The number of the event in progress.
    fn number(&self) -> u64
        ensures { result ≡ self.now.ran }
    {
        u64::from(self.ran)
    }

    /// What comes next happens at its time. The world has ended until the event is over.
    fn comes<L: LineOut>(
        &mut self,
        time: u64,
        scripted: bool,
        out: &mut L,
    ) -> Result<Burst, RunFault>
        requires { self.old.ran + 1 < 2 ^ 32 }
        ensures comes { IfOk result (λ e. Comes L.puts scripted
            (begins time (world_seen self.old)) out.old e (world_seen self.new) out.new) }
        ensures ended { self.new.ended ≡ true }
        ensures file { self.new.file ≡ self.old.file }
        ensures ran { OnOk result (self.new.ran ≡ self.old.ran + 1) }
        ensures breaks { IfErr result (λ f. MomentBreaks L.puts time scripted
            (world_seen self.old) out.old f out.new) }
        ensures cause { RunCause (L.faults out.old) (L.faults out.new) result }
        ensures kept { L.kept out.new ≡ L.kept out.old }
    {
        self.ended = true;
        if time > LAST_TIME {
            return Err(RunFault::OutOfMemory);
        }
        self.outside.time = time;
        self.ran += 1;
        if scripted {
            self.scripted(out)
        } else {
            self.pending(out)
        }
    }

    /// The next line of the script.
    fn scripted<L: LineOut>(&mut self, out: &mut L) -> Result<Burst, RunFault>
        ensures comes { IfOk result (λ e. LineComes L.puts self.old.script
            (world_seen self.old) out.old e (world_seen self.new) out.new) }
        ensures within { WithinEvent (world_seen self.old) (world_seen self.new) }
        ensures breaks { IfErr result (λ f. LineBreaks L.puts self.old.script
            (world_seen self.old) out.old f out.new) }
        ensures cause { RunCause (L.faults out.old) (L.faults out.new) result }
        ensures kept { L.kept out.new ≡ L.kept out.old }
    {
        match self.script.next() {
            Some(act) => self.orders(act, out),
            None => Err(RunFault::Stuck),
        }
    }

    /// The next pending event.
    fn pending<L: LineOut>(&mut self, out: &mut L) -> Result<Burst, RunFault>
        ensures comes { IfOk result (λ e. EventComes L.puts self.old.outside.timers.pending
            (world_seen self.old) out.old e (world_seen self.new) out.new) }
        ensures within { WithinEvent (world_seen self.old) (world_seen self.new) }
        ensures breaks { IfErr result (λ f. PendingBreaks L.puts
            self.old.outside.timers.pending (world_seen self.old) out.old f out.new) }
        ensures cause { RunCause (L.faults out.old) (L.faults out.new) result }
        ensures kept { L.kept out.new ≡ L.kept out.old }
    {
        match self.outside.take_first() {
            Some(what) => self.happens(what, out),
            None => Err(RunFault::Stuck),
        }
    }

    #[tactic(auto, using(flow_machine::proofs::Causes::cause_before))]
    /// What a line of the script orders.
    fn orders<L: LineOut>(&mut self, act: Act, out: &mut L) -> Result<Burst, RunFault>
        ensures ordered { IfOk result (λ e. Ordered L.puts act
            (world_seen self.old) out.old e (world_seen self.new) out.new) }
        ensures within { WithinEvent (world_seen self.old) (world_seen self.new) }
        ensures breaks { IfErr result (λ f.
            OrderedBreaks L.puts act (world_seen self.old) out.old f out.new) }
        ensures cause { RunCause (L.faults out.old) (L.faults out.new) result }
        ensures kept { L.kept out.new ≡ L.kept out.old }
    {
        let n = self.number();
        let t = self.outside.time;
        match act {
            Act::Boot(p) => self.boots(p, out),
            Act::Stop(p) => {
                put(out, Line::Stop(n, t, p))?;
                self.runs(p, EventAction::Stops, out)
            }
            Act::Kill(p) => self.kills(p, out),
            Act::Cut(p, q) => {
                put(out, Line::Cut(n, t, p, q))?;
                self.cuts(p, q)
            }
            Act::Heal(p, q) => {
                put(out, Line::Heal(n, t, p, q))?;
                self.heals(p, q)
            }
            Act::DiskFail(p, count) => {
                put(out, Line::DiskFail(n, t, p, count))?;
                self.fails(p, count)
            }
        }
    }

    #[tactic(auto, using(flow_machine::proofs::Causes::cause_before))]
    /// What happens when a pending event comes.
    fn happens<L: LineOut>(&mut self, what: What, out: &mut L) -> Result<Burst, RunFault>
        ensures happened { IfOk result (λ e. Happened L.puts what
            (world_seen self.old) out.old e (world_seen self.new) out.new) }
        ensures within { WithinEvent (world_seen self.old) (world_seen self.new) }
        ensures breaks { IfErr result (λ f.
            HappenedBreaks L.puts what (world_seen self.old) out.old f out.new) }
        ensures cause { RunCause (L.faults out.old) (L.faults out.new) result }
        ensures kept { L.kept out.new ≡ L.kept out.old }
    {
        match what {
            What::Boots(p) => self.boots(p, out),
            What::Rings(p, cell) => {
                let n = self.number();
                put(out, Line::Timer(n, self.outside.time, p, cell))?;
                self.runs(
                    p,
                    EventAction::Delivers(cell, Outcome::Value(Value::Void)),
                    out,
                )
            }
            What::Arrives(p, packet) => self.arrives(p, packet, out),
            What::Answers(p, cell, asked) => self.answers(p, cell, &asked, out),
        }
    }

    #[tactic(auto, using(flow_machine::proofs::Causes::cause_before))]
    /// A process boots, unless it holds its `main`.
    fn boots<L: LineOut>(&mut self, p: ProcId, out: &mut L) -> Result<Burst, RunFault>
        ensures happens { IfOk result (λ e. Ordered L.puts (act.Boot p)
            (world_seen self.old) out.old e (world_seen self.new) out.new) }
        ensures within { WithinEvent (world_seen self.old) (world_seen self.new) }
        ensures breaks { IfErr result (λ f.
            OrderedBreaks L.puts (act.Boot p) (world_seen self.old) out.old f out.new) }
        ensures cause { RunCause (L.faults out.old) (L.faults out.new) result }
        ensures kept { L.kept out.new ≡ L.kept out.old }
    {
        put(out, Line::Boot(self.number(), self.outside.time, p))?;
        self.runs(p, EventAction::Boots, out)
    }

    /// A link is cut.
    fn cuts(&mut self, p: ProcId, q: ProcId) -> Result<Burst, RunFault>
        ensures rests { IfOk result (λ e. e ≡ Rested) }
        ensures cut { let net = self.old.outside.net in OnOk result
            (world_seen self.new ≡ with_net (record net { cuts = cut net.cuts p.0 q.0 })
            (world_seen self.old)) }
        ensures stuck { IsErrOf result Stuck → NoLink p q (world_seen self.old) }
        ensures cause { ¬ IsErrOf result Failed }
        ensures within { WithinEvent (world_seen self.old) (world_seen self.new) }
    {
        let count = self.outside.net.processes();
        if p.0 >= count || q.0 >= count {
            return Err(RunFault::Stuck);
        }
        self.outside.net.cut(p, q);
        Ok(Burst::Rested)
    }

    /// A link heals.
    fn heals(&mut self, p: ProcId, q: ProcId) -> Result<Burst, RunFault>
        ensures rests { IfOk result (λ e. e ≡ Rested) }
        ensures healed { let net = self.old.outside.net in OnOk result
            (world_seen self.new ≡ with_net (record net { cuts = healed net.cuts p.0 q.0 })
            (world_seen self.old)) }
        ensures stuck { IsErrOf result Stuck → NoLink p q (world_seen self.old) }
        ensures cause { ¬ IsErrOf result Failed }
        ensures within { WithinEvent (world_seen self.old) (world_seen self.new) }
    {
        let count = self.outside.net.processes();
        if p.0 >= count || q.0 >= count {
            return Err(RunFault::Stuck);
        }
        self.outside.net.heal(p, q);
        Ok(Burst::Rested)
    }

    /// So many of the next requests to the disk of a process fail.
    fn fails(&mut self, p: ProcId, count: u32) -> Result<Burst, RunFault>
        ensures rests { IfOk result (λ e. e ≡ Rested) }
        ensures fails { OnOk result (Fails p count (world_seen self.old) (world_seen self.new)) }
        ensures stuck { IsErrOf result Stuck → NoDisk p (world_seen self.old) }
        ensures cause { ¬ IsErrOf result Failed }
        ensures within { WithinEvent (world_seen self.old) (world_seen self.new) }
    {
        let Some(disk) = self.outside.disks.get_mut(usize::from(p.0)) else {
            return Err(RunFault::Stuck);
        };
        disk.fail_next(count);
        Ok(Burst::Rested)
    }

    #[tactic(auto, using(flow_machine::proofs::Causes::cause_before))]
    /// A loss of power: the disk of the process loses what it may, and the process is gone with its timers and requests.
    fn kills<L: LineOut>(&mut self, p: ProcId, out: &mut L) -> Result<Burst, RunFault>
        ensures happens { IfOk result (λ e. Killed L.puts p
            (world_seen self.old) out.old e (world_seen self.new) out.new) }
        ensures within { WithinEvent (world_seen self.old) (world_seen self.new) }
        ensures breaks { IfErr result (λ f. OrderedBreaks L.puts (act.Kill p)
            (world_seen self.old) out.old f out.new) }
        ensures cause { RunCause (L.faults out.old) (L.faults out.new) result }
        ensures kept { L.kept out.new ≡ L.kept out.old }
    {
        put(out, Line::Kill(self.number(), self.outside.time, p))?;
        let fates = self.outside.lose_disk(p)?;
        put_kept(self.alloc, &fates, out)?;
        self.outside.forget(p)?;
        self.vanishes(p)?;
        Ok(Burst::Rested)
    }

    /// A process is gone, with all that it held.
    fn vanishes(&mut self, p: ProcId) -> Result<(), RunFault>
        ensures vanishes { OnOk result (Vanishes p (world_seen self.old) (world_seen self.new)) }
        ensures within { WithinEvent (world_seen self.old) (world_seen self.new) }
        ensures stuck { IsErrOf result Stuck → NoProcess p (world_seen self.old) }
        ensures cause { ¬ IsErrOf result Failed }
    {
        let Some(place) = self.places.get_mut(usize::from(p.0)) else {
            return Err(RunFault::Stuck);
        };
        place.up = false;
        place.machine.vanish();
        place.ports.clear();
        Ok(())
    }

    #[tactic(auto, using(flow_machine::proofs::Causes::cause_before))]
    /// A packet comes to a process: it goes to the stream of its port, or is discarded where the process is down or nobody
    /// listens.
    fn arrives<L: LineOut>(
        &mut self,
        p: ProcId,
        packet: u64,
        out: &mut L,
    ) -> Result<Burst, RunFault>
        ensures arrived { IfOk result (λ e. Arrived L.puts p packet
            (world_seen self.old) out.old e (world_seen self.new) out.new) }
        ensures within { WithinEvent (world_seen self.old) (world_seen self.new) }
        ensures breaks { IfErr result (λ f.
            ArrivedBreaks L.puts p packet (world_seen self.old) out.old f out.new) }
        ensures cause { RunCause (L.faults out.old) (L.faults out.new) result }
        ensures kept { L.kept out.new ≡ L.kept out.old }
    {
        let n = self.number();
        put(out, Line::Arrival(n, self.outside.time, p, packet))?;
        let Some(packet) = self.outside.net.arrive(packet) else {
            return Err(RunFault::Stuck);
        };
        let heard = self.listener(p, packet.port);
        self.takes(heard, p, packet, out)
    }

    #[tactic(auto, using(flow_machine::proofs::Causes::cause_before))]
    /// A packet goes to a stream as a value, or is discarded.
    fn takes<L: LineOut>(
        &mut self,
        heard: Option<CellId>,
        p: ProcId,
        packet: Packet,
        out: &mut L,
    ) -> Result<Burst, RunFault>
        ensures taken { IfOk result (λ e. Taken L.puts heard p packet
            (world_seen self.old) out.old e (world_seen self.new) out.new) }
        ensures within { WithinEvent (world_seen self.old) (world_seen self.new) }
        ensures breaks { IfErr result (λ f.
            TakenBreaks L.puts heard p packet (world_seen self.old) out.old f out.new) }
        ensures cause { RunCause (L.faults out.old) (L.faults out.new) result }
        ensures kept { L.kept out.new ≡ L.kept out.old }
    {
        let Some(cell) = heard else {
            put(out, Line::Discard(packet.number))?;
            return Ok(Burst::Rested);
        };
        let item = packet_value(self.alloc, packet)?;
        self.runs(p, EventAction::Brings(cell, item), out)
    }

    /// The stream of a port of a process that is up.
    fn listener(&self, p: ProcId, port: u16) -> Option<CellId>
        ensures { HeardIn (slice_get self.now.places.items p.0) port result }
    {
        let process = self.places.get(usize::from(p.0))?;
        if process.up {
            process.ports.stream(port)
        } else {
            None
        }
    }

    #[tactic(auto, using(flow_machine::proofs::Causes::cause_before))]
    /// The disk of a process answers into a cell.
    fn answers<L: LineOut>(
        &mut self,
        p: ProcId,
        cell: CellId,
        asked: &Asked,
        out: &mut L,
    ) -> Result<Burst, RunFault>
        ensures happens { IfOk result (λ e. Answered L.puts p cell asked.now
            (world_seen self.old) out.old e (world_seen self.new) out.new) }
        ensures within { WithinEvent (world_seen self.old) (world_seen self.new) }
        ensures breaks { IfErr result (λ f.
            AnsweredBreaks L.puts p cell asked.now (world_seen self.old) out.old f out.new) }
        ensures cause { RunCause (L.faults out.old) (L.faults out.new) result }
        ensures kept { L.kept out.new ≡ L.kept out.old }
    {
        let reply = self.outside.serve(p, asked)?;
        let (n, t) = (self.number(), self.outside.time);
        let line = disk_line(self.alloc, asked.ask(), &reply, n, t, p, cell)?;
        put(out, line)?;
        let outcome = disk_outcome(self.alloc, reply)?;
        self.runs(p, EventAction::Delivers(cell, outcome), out)
    }

    #[tactic(auto, using(flow_machine::proofs::Causes::cause_before))]
    /// A process does what follows of a deed.
    fn runs<L: LineOut>(
        &mut self,
        p: ProcId,
        deed: EventAction,
        out: &mut L,
    ) -> Result<Burst, RunFault>
        ensures happens { IfOk result (λ e. Runs L.puts p deed
            (world_seen self.old) out.old e (world_seen self.new) out.new) }
        ensures within { WithinEvent (world_seen self.old) (world_seen self.new) }
        ensures breaks { IfErr result (λ f.
            RunsBreaks L.puts p deed (world_seen self.old) out.old f out.new) }
        ensures cause { RunCause (L.faults out.old) (L.faults out.new) result }
        ensures kept { L.kept out.new ≡ L.kept out.old }
    {
        if self.holds_already(p, &deed)? {
            return Ok(Burst::Rested);
        }
        self.acts(p, deed, out)
    }

    /// Whether a process has nothing to do for a deed.
    fn holds_already(&self, p: ProcId, deed: &EventAction) -> Result<bool, RunFault>
        ensures stuck { IfErr result (λ f. (f ≡ Stuck) × NoProcess p (world_seen self.now)) }
        ensures cause { ¬ IsErrOf result Failed }
        ensures held { IfOk result (λ held. HeldAt p deed.now self.now.places.items held) }
    {
        match self.places.get(usize::from(p.0)) {
            Some(place) => Ok(holds_already(deed, &place.machine)),
            None => Err(RunFault::Stuck),
        }
    }

    /// A process of the world does what follows of a deed.
    fn acts<L: LineOut>(
        &mut self,
        p: ProcId,
        deed: EventAction,
        out: &mut L,
    ) -> Result<Burst, RunFault>
        ensures acts { IfOk result (λ e. ActsAt L.puts p deed
            (world_seen self.old) out.old e (world_seen self.new) out.new) }
        ensures within { WithinEvent (world_seen self.old) (world_seen self.new) }
        ensures breaks { IfErr result (λ f.
            ActsAtBreaks L.puts p deed (world_seen self.old) out.old f out.new) }
        ensures cause { RunCause (L.faults out.old) (L.faults out.new) result }
        ensures kept { L.kept out.new ≡ L.kept out.old }
    {
        let Some(place) = self.places.get_mut(usize::from(p.0)) else {
            return Err(RunFault::Stuck);
        };
        let count = self.outside.net.processes();
        if p.0 >= count || place.machine.processes() != count {
            return Err(RunFault::Stuck);
        }
        let outside = &mut self.outside;
        acts(p, deed, place, outside, &self.code, self.file.turns, out)
    }

    /// The frames of the unfinished actors of a process, by rising number. Empty where there is no such process.
    pub fn frames(&self, p: ProcId) -> Result<Vec<FrameView>, NoMemory>
        ensures { IfOk result (λ views.
            views.items ≡ frames_at (slice_get self.now.places.items p.0)) }
    {
        match self.places.get(usize::from(p.0)) {
            Some(place) => place.machine.frames(),
            None => Ok(Vec::new(self.alloc)),
        }
    }

    /// The callbacks of the unfinished actors of a process, by rising number, those of an actor in order. Empty where there
    /// is no such process.
    pub fn callbacks(&self, p: ProcId) -> Result<Vec<CallbackView>, NoMemory>
        ensures { IfOk result (λ views.
            views.items ≡ callbacks_at (slice_get self.now.places.items p.0)) }
    {
        match self.places.get(usize::from(p.0)) {
            Some(place) => place.machine.callbacks(),
            None => Ok(Vec::new(self.alloc)),
        }
    }

    /// The unfinished actors of a process as they stand between events, by rising number. Empty where there is no such process.
    pub fn frame_states(&self, p: ProcId) -> Result<Vec<ActorState>, NoMemory>
        ensures { IfOk result (λ states. let place = slice_get self.now.places.items p.0 in
            NumbersRiseAt place → map actor_kept states.items ≡ actors_at place) }
    {
        match self.places.get(usize::from(p.0)) {
            Some(place) => place.machine.actor_states(),
            None => Ok(Vec::new(self.alloc)),
        }
    }

    /// How many actors are unfinished; 2^64 - 1 where there are more.
    pub fn live(&self) -> u64
        ensures { result ≡ min (live_in self.now.places.items) (2 ^ 64 - 1) }
    {
        let mut count: u64 = 0;
        for process in self.places.iter() {
            count = count.saturating_add(process.machine.live());
        }
        count
    }
}
