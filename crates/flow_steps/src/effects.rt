// Effects: new cells, calls of actors, and what is asked of the world. A bad argument is an error that is thrown where the
// actor stands.

ghost use Rattle.std.specs.Prelude.{◌≡◌, IfOk, OnOk, Some, None, map, slice_get, slice_set};
ghost use Rattle.flow_ast.specs.declared.predefined.Predefined.TheVariants.{ReadFile, WriteFile};
ghost use Rattle.flow_value.specs.View.{value_of};
ghost use Rattle.flow_value.specs.declared.value.Value.TheVariants.{Void};
ghost use Rattle.flow_eval.specs.Answers.{int_of, text_of, arg};
ghost use Rattle.flow_cancel.specs.Dropping.{refs_in};
ghost use Rattle.flow_meaning.specs.Requests.{Disk};
ghost use Rattle.flow_meaning.specs.Evaluating.{world_effect};
ghost use Rattle.flow_heap_refinement.specs.Holds.{hold_all};
ghost use Rattle.flow_steps.specs.Acting.{args_of, disk_of, some_values, Enrols, StartTold, ActorCalled, EnrolsAlone, VoidCalled, WorldAsked, EffectMade, EffectDone, IsEffect};
ghost use Rattle.flow_value.specs.declared.value.Value.TheVariants.{Ref};
ghost use Rattle.flow_cancel.specs.Heap.{next_cell};
ghost use Rattle.flow_steps.specs.Holding.{on_heap, Gives};
ghost use Rattle.flow_steps.specs.Delivering.{made, OpenGiven, PortGiven};
ghost use Rattle.flow_steps.specs.Stuck.{OnStuck, SomeMissing};
ghost use Rattle.flow_steps.specs.StuckCalls.{EnrolsStuck, EnrolsAloneStuck, MakesStuck, EffectDoneStuck, EffectStuck};

use crate::call::{Call, DiskCall, Goal};
use crate::errors::Fault;
use crate::frames::ControlPoint;
use crate::next::Pace;
use crate::process::Process;
use flow_ast::predefined::Predefined;
use flow_base::ids::{ActorId, CellId};
use flow_base::text::Text;
use flow_cancel::task::Task;
use flow_code::class::Effect;
use flow_code::expr::expr::Resolved;
use flow_code::program::Code;
use flow_trace::line::Line;
use flow_value::value::{Kind, Value, own_text};
use std::alloc::Global;

/// The number that an argument is.
pub(crate) fn int_at(args: &[Value], place: usize) -> Result<i64, Fault>
    ensures done { IfOk result (λ n. int_of (arg (map value_of args.now) place) ≡ Some n) }
    ensures stuck { OnStuck result (int_of (arg (map value_of args.now) place) ≡ None) }
{
    match args.get(place) {
        Some(Value::Int(n)) => Ok(*n),
        _ => Err(Fault::Stuck),
    }
}

/// Takes the text that an argument is out of the arguments.
pub(crate) fn take_text(alloc: Global, args: &mut [Value], place: usize) -> Result<Text, Fault>
    ensures text { IfOk result (λ t. text_of (arg (map value_of args.old) place) ≡ Some t) }
    ensures rest { OnOk result (args.new ≡ slice_set args.old place Void) }
    ensures stuck { OnStuck result (text_of (arg (map value_of args.old) place) ≡ None) }
{
    if place >= args.len() {
        return Err(Fault::Stuck);
    }
    match std::mem::replace(&mut args[place], Value::Void) {
        Value::Text(text) => Ok(own_text(alloc, text)?),
        _ => Err(Fault::Stuck),
    }
}

#[tactic(auto, using(crate::proofs::Acts::read_asked))]
// A read.
fn read_call(alloc: Global, args: &mut [Value]) -> Result<DiskCall, Fault>
    ensures done { IfOk result (λ d. world_effect ReadFile (map value_of args.old)
        ≡ Some (Disk (disk_of d))) }
    ensures stuck { OnStuck result (world_effect ReadFile (map value_of args.old) ≡ None) }
{
    let offset = int_at(args, 1)?;
    let count = int_at(args, 2)?;
    let file = take_text(alloc, args, 0)?;
    Ok(DiskCall::Read(file, offset, count))
}

#[tactic(auto, using(crate::proofs::Acts::write_asked))]
// A write.
fn write_call(alloc: Global, args: &mut [Value]) -> Result<DiskCall, Fault>
    ensures done { IfOk result (λ d. world_effect WriteFile (map value_of args.old)
        ≡ Some (Disk (disk_of d))) }
    ensures stuck { OnStuck result (world_effect WriteFile (map value_of args.old) ≡ None) }
{
    let offset = int_at(args, 1)?;
    let text = take_text(alloc, args, 2)?;
    let file = take_text(alloc, args, 0)?;
    Ok(DiskCall::Write(file, offset, text))
}

impl Process {
    /// A new cell for a kind of reference.
    pub(crate) fn new_cell(&mut self, kind: Kind) -> Result<CellId, Fault>
        ensures number { IfOk result (λ k. k.0 ≡ next_cell self.old.heap) }
        ensures made { OnOk result (self.new ≡ on_heap (made kind) self.old) }
        ensures stuck { OnStuck result ⊥ }
    {
        match kind {
            Kind::Promise | Kind::Future => Ok(self.heap.new_result()?),
            Kind::PromiseStream | Kind::FutureStream => Ok(self.heap.new_stream()?),
        }
    }

    /// A new cell, and a reference of a kind to it as the result.
    pub(crate) fn gives_new(
        &mut self,
        actor: ActorId,
        goal: Goal,
        kind: Kind,
    ) -> Result<CellId, Fault>
        ensures number { IfOk result (λ k. k.0 ≡ next_cell self.old.heap) }
        ensures given { IfOk result (λ k. Gives goal actor (Ref kind k)
            (on_heap (made kind) self.old) self.new) }
        ensures stuck { OnStuck result ⊥ }
    {
        let cell = self.new_cell(kind)?;
        self.gives(actor, goal, Value::Ref(kind, cell))?;
        Ok(cell)
    }

    #[tactic(auto, using(crate::proofs::Holding::open_given))]
    /// A single result for which the world has an open request.
    pub fn gives_open(&mut self, actor: ActorId, goal: Goal) -> Result<CellId, Fault>
        ensures done { IfOk result (λ k. OpenGiven goal actor k self.old self.new) }
        ensures stuck { OnStuck result ⊥ }
    {
        let cell = self.gives_new(actor, goal, Kind::Future)?;
        self.hold(Kind::Promise, cell)?;
        self.heap.add_request(cell)?;
        Ok(cell)
    }

    #[tactic(auto, using(crate::proofs::Holding::port_given))]
    /// A stream for a port that nobody listens to.
    pub fn gives_port(&mut self, actor: ActorId, goal: Goal) -> Result<CellId, Fault>
        ensures done { IfOk result (λ k. PortGiven goal actor k self.old self.new) }
        ensures stuck { OnStuck result ⊥ }
    {
        let cell = self.gives_new(actor, goal, Kind::FutureStream)?;
        self.hold(Kind::PromiseStream, cell)?;
        self.heap.add_port(cell)?;
        Ok(cell)
    }

    /// An effect of an actor.
    pub(crate) fn effect<'a>(
        &mut self,
        code: &Code,
        stand: &ControlPoint<'a>,
        goal: Goal,
        effect: Effect,
        args: &[Resolved],
    ) -> Result<Pace<'a>, Fault>
        ensures done { IfOk result (λ pace. IsEffect code.now stand.now goal effect args.now
            self.old
            pace self.new) }
        ensures stuck { OnStuck result (EffectStuck code.now stand.now effect args.now self.old) }
    {
        match self.values(code, stand.actor, args) {
            Ok(args) => self.effect_with(code, stand, goal, effect, args),
            Err(halt) => self.halted(stand, halt),
        }
    }

    #[tactic(auto, using(crate::proofs::Acts::effect_done))]
    // That, with its arguments known.
    fn effect_with<'a>(
        &mut self,
        code: &Code,
        stand: &ControlPoint<'a>,
        goal: Goal,
        effect: Effect,
        args: Vec<Value>,
    ) -> Result<Pace<'a>, Fault>
        ensures done { IfOk result (λ pace. EffectDone code.now stand.now goal effect args
            self.old pace
            self.new) }
        ensures stuck { OnStuck result (EffectDoneStuck code.now stand.now effect args self.old) }
    {
        self.note(*stand)?;
        self.make_effect(code, stand.actor, goal, effect, args)?;
        Ok(Pace::Off)
    }

    // An actor is called, or something is asked of the world.
    fn make_effect(
        &mut self,
        code: &Code,
        actor: ActorId,
        goal: Goal,
        effect: Effect,
        args: Vec<Value>,
    ) -> Result<(), Fault>
        ensures done { OnOk result (EffectMade code.now actor goal effect args self.old self.new) }
        ensures stuck { OnStuck result (MakesStuck code.now effect args self.old.heap) }
    {
        match effect {
            Effect::World(call) => self.world_effect(actor, goal, call, args),
            Effect::Actor(class) => self.call_actor(code, actor, goal, class, args),
        }
    }

    #[tactic(auto, using(crate::proofs::Acts::new_given))]
    // An effect that is the world's, or a result that never comes.
    fn world_effect(
        &mut self,
        actor: ActorId,
        goal: Goal,
        call: Predefined,
        args: Vec<Value>,
    ) -> Result<(), Fault>
        ensures done { OnOk result (WorldAsked actor goal call args self.old self.new) }
        ensures stuck { OnStuck result (world_effect call (args_of args) ≡ None) }
    {
        let mut args = args;
        let asked = match call {
            Predefined::RandomInt => {
                let lo = int_at(&args, 0)?;
                Call::Draw(actor, goal, lo, int_at(&args, 1)?)
            }
            Predefined::Delay => Call::Delay(actor, goal, int_at(&args, 0)?),
            Predefined::Listen => Call::Listen(actor, goal, int_at(&args, 0)?),
            Predefined::Never => {
                self.gives_new(actor, goal, Kind::Future)?;
                return Ok(());
            }
            Predefined::ReadFile => Call::Disk(actor, goal, read_call(self.alloc, &mut args)?),
            Predefined::WriteFile => Call::Disk(actor, goal, write_call(self.alloc, &mut args)?),
            Predefined::SyncFile => {
                let file = take_text(self.alloc, &mut args, 0)?;
                Call::Disk(actor, goal, DiskCall::Sync(file))
            }
            Predefined::FileSize => {
                let file = take_text(self.alloc, &mut args, 0)?;
                Call::Disk(actor, goal, DiskCall::Size(file))
            }
            _ => return Err(Fault::Stuck),
        };
        self.ask(asked);
        Ok(())
    }

    #[tactic(auto, using(crate::proofs::Acts::args_held, crate::proofs::Acts::args_filled))]
    // Arguments count, and fill the first of so many places.
    fn fill_places(&mut self, args: Vec<Value>, places: u32) -> Result<Vec<Option<Value>>, Fault>
        ensures filled { IfOk result (λ xs. xs.items ≡ some_values args.items) }
        ensures counted { OnOk result (self.new
            ≡ on_heap (hold_all (refs_in args.items)) self.old) }
        ensures stuck { OnStuck result (SomeMissing (refs_in args.items) self.old.heap) }
    {
        let mut filled = Vec::with_capacity(self.alloc, places as usize)?;
        for arg in args {
            self.hold_value(&arg)?;
            filled.push(Some(arg))?;
        }
        Ok(filled)
    }

    /// An actor of the class at a place is made, with these arguments: its result, its number and its frame.
    pub(crate) fn enrol(
        &mut self,
        code: &Code,
        number: u32,
        args: Vec<Value>,
    ) -> Result<(ActorId, CellId), Fault>
        ensures done { IfOk result (λ r. Enrols code.now number args.items r.0 r.1 self.old
            self.new) }
        ensures stuck { OnStuck result (EnrolsStuck code.now number args.items self.old.heap) }
    {
        let Some(class) = code.class(number) else {
            return Err(Fault::Stuck);
        };
        if args.len() != class.params as usize {
            return Err(Fault::Stuck);
        }
        let cell = self.heap.new_result()?;
        let filled = self.fill_places(args, class.places)?;
        if !self.heap.may_start(Some(cell)) {
            return Err(Fault::Stuck);
        }
        let actor = self
            .heap
            .start_holding(number, class.places, filled, Some(cell))?;
        Ok((actor, cell))
    }

    #[tactic(auto, using(crate::proofs::Acts::told_by))]
    /// The line of an actor's start.
    pub(crate) fn tell_start(
        &mut self,
        code: &Code,
        class: u32,
        actor: ActorId,
    ) -> Result<(), Fault>
        ensures done { OnOk result (StartTold code.now class actor self.old self.new) }
        ensures stuck { OnStuck result (slice_get code.now.classes.items class ≡ None) }
    {
        match code.class(class) {
            Some(class) => {
                let name = class.name.copy(self.alloc)?;
                self.tell(Line::Start(actor, name));
                Ok(())
            }
            None => Err(Fault::Stuck),
        }
    }

    #[tactic(auto, using(crate::proofs::Acts::uncalled, crate::proofs::Acts::called_by))]
    // A turn, and an actor is made and runs; its result is then stored or kept, and the caller goes on.
    fn call_actor(
        &mut self,
        code: &Code,
        caller: ActorId,
        goal: Goal,
        number: u32,
        args: Vec<Value>,
    ) -> Result<(), Fault>
        ensures done { OnOk result (ActorCalled code.now caller goal number args.items self.old
            self.new) }
        ensures stuck { OnStuck result (EnrolsStuck code.now number args.items self.old.heap) }
    {
        if !self.turn() {
            return Ok(());
        }
        let (actor, cell) = self.enrol(code, number, args)?;
        self.gives(caller, goal, Value::Ref(Kind::Future, cell))?;
        self.heap.push(Task::Run(actor))?;
        self.tell_start(code, number, actor)
    }

    // A void actor of the class at a place is made, with these arguments: its number and its frame.
    fn enrol_alone(&mut self, code: &Code, number: u32, args: Vec<Value>) -> Result<ActorId, Fault>
        ensures done { IfOk result (λ i. EnrolsAlone code.now number args.items i self.old
            self.new) }
        ensures stuck { OnStuck result (EnrolsAloneStuck code.now number args.items
            self.old.heap) }
    {
        let Some(class) = code.class(number) else {
            return Err(Fault::Stuck);
        };
        if args.len() != class.params as usize {
            return Err(Fault::Stuck);
        }
        let filled = self.fill_places(args, class.places)?;
        let actor = self.heap.start_holding(number, class.places, filled, None)?;
        Ok(actor)
    }

    /// A turn, and a void actor is made and runs; then the caller goes on.
    #[tactic(auto, using(crate::proofs::Acts::void_uncalled, crate::proofs::Acts::void_called))]
    pub(crate) fn call_void(
        &mut self,
        code: &Code,
        caller: ActorId,
        number: u32,
        args: Vec<Value>,
    ) -> Result<(), Fault>
        ensures done { OnOk result (VoidCalled code.now caller number args.items self.old
            self.new) }
        ensures stuck { OnStuck result (EnrolsAloneStuck code.now number args.items
            self.old.heap) }
    {
        if !self.turn() {
            return Ok(());
        }
        let actor = self.enrol_alone(code, number, args)?;
        self.heap.push(Task::Run(caller))?;
        self.heap.push(Task::Run(actor))?;
        self.tell_start(code, number, actor)
    }
}
