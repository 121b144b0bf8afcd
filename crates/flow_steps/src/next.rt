// The step of an actor by its instruction.

ghost use Rattle.std.specs.Prelude.{◌≡◌, ◌⊎◌, ◌+◌, IfOk, OnOk, Some, None};
ghost use Rattle.flow_value.specs.View.{value_of};
ghost use Rattle.flow_steps.specs.declared.next.Pace.TheVariants.{On, Off};
ghost use Rattle.flow_steps.specs.Evaluating.{Evaluates};
ghost use Rattle.flow_steps.specs.Points.{places_taken, places_emptied, referring, next_stand};
ghost use Rattle.flow_steps.specs.Holding.{on_heap};
ghost use Rattle.flow_steps.specs.Stepping.{OnAfter, Does, Ends, StepsOn, Runs, GoesOn, IsSet, IsNew, IsChoose, Passes, IsTest, OperandStep, OperandKept, IsReturn, IsThrow, value_for, truth_for, truth_value};
ghost use Rattle.flow_steps.specs.Tasks.{RunsNow};
ghost use Rattle.flow_steps.specs.Stuck.{OnStuck, FrameMissing, NoPlace, BlockMissing};
ghost use Rattle.flow_steps.specs.StuckCalls.{EvaluatesStuck};
ghost use Rattle.flow_steps.specs.StuckSteps.{SetStuck, EmptiesStuck, DoesStuck, TestStuck, ValueKeptStuck, AsksStuck, ChoosesStuck, ReturnStuck, ThrowStuck, LastStuck, StepStuck, RunsStuck, GoesStuck, RunsNowStuck};

use crate::branches::branch_in;
use crate::call::Goal;
use crate::errors::Fault;
use crate::frames::{ControlPoint, instruction_at};
use crate::process::Process;
use flow_base::ids::ActorId;
use flow_cancel::task::Task;
use flow_code::class::{Aim, Effect, Group, Instruction, Last, Operand};
use flow_code::expr::expr::Resolved;
use flow_code::program::Code;
use flow_frame::held::Held;
use flow_value::value::{Kind, Outcome, Value};

/// How an actor goes on after an instruction: at once where it stands now, or by its task, or not at all.
#[derive(Clone, Copy)]
pub enum Pace<'a> {
    On(ControlPoint<'a>),
    Off,
}

/// The number through its class of the branch of a group that waits for the operand after so many.
fn callback_of(group: &Group, kept: usize) -> Result<u32, Fault>
    ensures done { IfOk result (λ n. n ≡ group.now.first + kept) }
    ensures stuck { OnStuck result ⊥ }
{
    match u32::try_from(kept) {
        Ok(kept) => match group.first.checked_add(kept) {
            Some(callback) => Ok(callback),
            None => Err(Fault::OutOfMemory),
        },
        Err(_) => Err(Fault::OutOfMemory),
    }
}

impl Process {
    #[tactic(auto, using(crate::proofs::Done::runs_now, crate::proofs::Going::runs_get_stuck, crate::proofs::Going::runs_nowhere))]
    /// An actor takes its next steps from where its frame stands.
    pub(crate) fn run(&mut self, code: &Code, actor: ActorId) -> Result<(), Fault>
        ensures done { OnOk result (RunsNow code.now actor self.old self.new) }
        ensures stuck { OnStuck result (RunsNowStuck code.now actor self.old) }
    {
        let stand = self.stand_of(code, actor)?;
        self.run_from(code, stand)
    }

    /// An actor takes its next steps, by its instructions, up to one after which other tasks come first.
    pub(crate) fn run_from(&mut self, code: &Code, stand: ControlPoint<'_>) -> Result<(), Fault>
        ensures done { OnOk result (Runs code.now stand.entry self.old self.new) }
        ensures stuck { OnStuck result (RunsStuck code.now stand.entry self.old) }
    {
        let mut stand = stand;
        for _step in 0..u64::MAX {
            match self.take_step(code, &stand)? {
                Pace::On(next) => stand = next,
                Pace::Off => return Ok(()),
            }
        }
        Err(Fault::OutOfMemory)
    }

    /// An actor goes on after a step, where that leaves nothing to do first.
    pub(crate) fn go_from(&mut self, code: &Code, pace: Pace<'_>) -> Result<(), Fault>
        ensures done { OnOk result (GoesOn code.now pace.entry self.old self.new) }
        ensures stuck { OnStuck result (GoesStuck code.now pace.entry self.old) }
    {
        match pace {
            Pace::On(stand) => self.run_from(code, stand),
            Pace::Off => Ok(()),
        }
    }

    #[tactic(auto, using(crate::proofs::Going::step_behind))]
    // An actor takes its next step, by its instruction.
    fn take_step<'a>(&mut self, code: &Code, stand: &ControlPoint<'a>) -> Result<Pace<'a>, Fault>
        ensures done { IfOk result (λ pace. StepsOn code.now stand.now self.old pace self.new) }
        ensures stuck { OnStuck result (StepStuck code.now stand.now self.old) }
    {
        let block = stand.block;
        if let Some(instruction) = instruction_at(block, stand.instruction) {
            return self.instruction(code, stand, instruction);
        }
        if stand.instruction as usize == block.body.len() {
            return self.last(code, stand, &block.last);
        }
        Err(Fault::Stuck)
    }

    #[tactic(auto, using(crate::proofs::Stepped::after_one, crate::proofs::Stepped::after_none, crate::proofs::Holding::value_dropped))]
    /// A value that is left over, if any, is dropped; the actor goes on at once where that leaves nothing to do.
    pub(crate) fn on_after<'a>(
        &mut self,
        stand: ControlPoint<'a>,
        old: Option<Value>,
    ) -> Result<Pace<'a>, Fault>
        ensures done { IfOk result (λ pace. OnAfter stand.entry
            (referring old) self.old pace self.new) }
        ensures stuck { OnStuck result (FrameMissing stand.entry.actor.0 self.old.heap) }
    {
        match old {
            Some(old) if old.may_refer() => {
                self.note(stand)?;
                self.heap.push(Task::Run(stand.actor))?;
                self.heap.push_drops(&old)?;
                Ok(Pace::Off)
            }
            _ => Ok(Pace::On(stand)),
        }
    }

    fn instruction<'a>(
        &mut self,
        code: &Code,
        stand: &ControlPoint<'a>,
        instruction: &Instruction,
    ) -> Result<Pace<'a>, Fault>
        ensures done { IfOk result (λ pace. Does code.now stand.now instruction.now self.old pace
            self.new) }
        ensures stuck { OnStuck result (DoesStuck code.now stand.now instruction.now self.old) }
    {
        match instruction {
            Instruction::Set(aim, expr) => self.set_aim(code, stand, aim, expr),
            Instruction::Effect(_, effect, args) => {
                self.effect(code, stand, Goal::Stored, *effect, args)
            }
            Instruction::New(place, kind) => self.new_promise(stand, *place, *kind),
            Instruction::Act(act, args) => self.act(code, stand, *act, args),
            Instruction::Method(aim, method, args) => self.method(code, stand, aim, *method, args),
            Instruction::Drop(places) => self.empty_places(stand, places),
            Instruction::Invalid => Err(Fault::Stuck),
        }
    }

    #[tactic(auto, using(crate::proofs::Stepped::after_values, crate::proofs::Stepped::after_none))]
    // Places are emptied, and what they held is dropped.
    fn empty_places<'a>(
        &mut self,
        stand: &ControlPoint<'a>,
        places: &[u32],
    ) -> Result<Pace<'a>, Fault>
        ensures done { IfOk result (λ pace. OnAfter (next_stand stand.now)
            (places_taken stand.now.actor.0 places.now self.old.heap)
            (on_heap (places_emptied stand.now.actor.0 places.now) self.old) pace self.new) }
        ensures stuck { OnStuck result (EmptiesStuck stand.now places.now self.old.heap) }
    {
        let next = stand.next()?;
        let values = self.taken(stand.actor, places)?;
        if values.is_empty() {
            return Ok(Pace::On(next));
        }
        self.note(next)?;
        self.heap.push(Task::Run(stand.actor))?;
        self.drop_values(values)?;
        Ok(Pace::Off)
    }

    // An assignment: the value is put in place, what stood there is dropped, and the next instruction follows.
    fn set_aim<'a>(
        &mut self,
        code: &Code,
        stand: &ControlPoint<'a>,
        aim: &Aim,
        expr: &Resolved,
    ) -> Result<Pace<'a>, Fault>
        ensures done { IfOk result (λ pace. Evaluates stand.now value_of
            (value_for code.now stand.now.actor.0 expr.now self.old) self.old
            (IsSet code.now stand.now aim.now) pace self.new) }
        ensures stuck { OnStuck result (EvaluatesStuck stand.now value_of
            (value_for code.now stand.now.actor.0 expr.now self.old) self.old
            (SetStuck code.now stand.now aim.now)) }
    {
        match self.value(code, stand.actor, expr) {
            Ok(value) => self.set_value(code, stand, aim, value),
            Err(halt) => self.halted(stand, halt),
        }
    }

    // That, with the value known.
    fn set_value<'a>(
        &mut self,
        code: &Code,
        stand: &ControlPoint<'a>,
        aim: &Aim,
        value: Value,
    ) -> Result<Pace<'a>, Fault>
        ensures done { IfOk result (λ pace. IsSet code.now stand.now aim.now value self.old pace
            self.new) }
        ensures stuck { OnStuck result (SetStuck code.now stand.now aim.now value self.old) }
    {
        self.hold_value(&value)?;
        let old = self.assign(code, stand.actor, aim, value)?;
        self.on_after(stand.next()?, old)
    }

    // A new cell for a place of a promise's type.
    fn new_promise<'a>(
        &mut self,
        stand: &ControlPoint<'a>,
        place: u32,
        kind: Kind,
    ) -> Result<Pace<'a>, Fault>
        ensures done { IfOk result (λ pace. IsNew stand.now place kind self.old pace self.new) }
        ensures stuck { OnStuck result (NoPlace stand.now.actor.0 place self.old.heap) }
    {
        let next = stand.next()?;
        let cell = self.new_cell(kind)?;
        self.hold(kind, cell)?;
        let old = self.put(stand.actor, place, Some(Value::Ref(kind, cell)))?;
        self.on_after(next, old)
    }

    fn last<'a>(
        &mut self,
        code: &Code,
        stand: &ControlPoint<'a>,
        last: &Last,
    ) -> Result<Pace<'a>, Fault>
        ensures done { IfOk result (λ pace. Ends code.now stand.now last.now self.old pace
            self.new) }
        ensures stuck { OnStuck result (LastStuck code.now stand.now last.now self.old) }
    {
        match last {
            Last::Goto(block) => Ok(Pace::On(stand.at(*block, 0)?)),
            Last::Pass(block) => self.pass(stand, *block),
            Last::Test(expr, yes, no) => self.test(code, stand, expr, *yes, *no),
            Last::Choose(group) => self.choose(code, stand, *group),
            Last::Return(expr) => self.finish_with(code, stand, expr),
            Last::Throw(expr) => self.throw_value(code, stand, expr),
        }
    }

    #[tactic(auto, using(crate::proofs::Stepped::pass_on, crate::proofs::Stepped::pass_off))]
    // A pass of a loop begins: it takes a turn.
    fn pass<'a>(&mut self, stand: &ControlPoint<'a>, block: u32) -> Result<Pace<'a>, Fault>
        ensures done { IfOk result (λ pace. Passes stand.now block self.old pace self.new) }
        ensures stuck { OnStuck result (BlockMissing stand.now.class.now block
            ⊎ FrameMissing stand.now.actor.0 self.old.heap) }
    {
        let begin = stand.at(block, 0)?;
        if self.turn() {
            return Ok(Pace::On(begin));
        }
        self.note(begin)?;
        Ok(Pace::Off)
    }

    // The error that an expression gives is thrown.
    fn throw_value<'a>(
        &mut self,
        code: &Code,
        stand: &ControlPoint<'a>,
        expr: &Resolved,
    ) -> Result<Pace<'a>, Fault>
        ensures done { IfOk result (λ pace. Evaluates stand.now value_of
            (value_for code.now stand.now.actor.0 expr.now self.old) self.old
            (IsThrow stand.now) pace self.new) }
        ensures stuck { OnStuck result (EvaluatesStuck stand.now value_of
            (value_for code.now stand.now.actor.0 expr.now self.old) self.old
            (ThrowStuck stand.now)) }
    {
        match self.value(code, stand.actor, expr) {
            Ok(value) => self.throw_with(stand, value),
            Err(halt) => self.halted(stand, halt),
        }
    }

    // That, with the value known.
    fn throw_with<'a>(&mut self, stand: &ControlPoint<'a>, value: Value) -> Result<Pace<'a>, Fault>
        ensures done { IfOk result (λ pace. IsThrow stand.now value self.old pace self.new) }
        ensures stuck { OnStuck result (ThrowStuck stand.now value self.old) }
    {
        match value {
            Value::Error(error) => {
                self.note(*stand)?;
                self.throw(stand.actor, error)?;
                Ok(Pace::Off)
            }
            _ => Err(Fault::Stuck),
        }
    }

    fn test<'a>(
        &mut self,
        code: &Code,
        stand: &ControlPoint<'a>,
        expr: &Resolved,
        yes: u32,
        no: u32,
    ) -> Result<Pace<'a>, Fault>
        ensures done { IfOk result (λ pace. Evaluates stand.now truth_value
            (truth_for code.now stand.now.actor.0 expr.now self.old) self.old
            (IsTest stand.now yes no) pace self.new) }
        ensures stuck { OnStuck result (EvaluatesStuck stand.now truth_value
            (truth_for code.now stand.now.actor.0 expr.now self.old) self.old
            (TestStuck stand.now yes no)) }
    {
        match self.truth(code, stand.actor, expr) {
            Ok(true) => Ok(Pace::On(stand.at(yes, 0)?)),
            Ok(false) => Ok(Pace::On(stand.at(no, 0)?)),
            Err(halt) => self.halted(stand, halt),
        }
    }

    // The next operand of a wait is asked for; when all are kept, the actor waits.
    fn choose<'a>(
        &mut self,
        code: &Code,
        stand: &ControlPoint<'a>,
        number: u32,
    ) -> Result<Pace<'a>, Fault>
        ensures done { IfOk result (λ pace. IsChoose code.now stand.now number self.old pace
            self.new) }
        ensures stuck { OnStuck result (ChoosesStuck code.now stand.now number self.old) }
    {
        let Some(group) = stand.class.group(number) else {
            return Err(Fault::Stuck);
        };
        let stand = self.note(*stand)?;
        let kept = self.operands(stand.actor);
        let Some(branch) = branch_in(group, kept) else {
            self.wait(&stand, number)?;
            return Ok(Pace::Off);
        };
        let callback = callback_of(group, kept)?;
        self.operand(code, &stand, callback, &branch.operand)
    }

    fn operand<'a>(
        &mut self,
        code: &Code,
        stand: &ControlPoint<'a>,
        callback: u32,
        operand: &Operand,
    ) -> Result<Pace<'a>, Fault>
        ensures done { IfOk result (λ pace. OperandStep code.now stand.now callback operand.now
            self.old
            pace self.new) }
        ensures stuck { OnStuck result (AsksStuck code.now stand.now callback operand.now
            self.old) }
    {
        match operand {
            Operand::Value(expr) => self.value_operand(code, stand, callback, expr),
            Operand::Effect(effect, args) => {
                self.effect(code, stand, Goal::Kept(callback), *effect, args)
            }
        }
    }

    // An operand that is the value of an expression.
    fn value_operand<'a>(
        &mut self,
        code: &Code,
        stand: &ControlPoint<'a>,
        callback: u32,
        expr: &Resolved,
    ) -> Result<Pace<'a>, Fault>
        ensures done { IfOk result (λ pace. Evaluates stand.now value_of
            (value_for code.now stand.now.actor.0 expr.now self.old) self.old
            (OperandKept stand.now callback) pace self.new) }
        ensures stuck { OnStuck result (EvaluatesStuck stand.now value_of
            (value_for code.now stand.now.actor.0 expr.now self.old) self.old
            (ValueKeptStuck stand.now callback)) }
    {
        match self.value(code, stand.actor, expr) {
            Ok(value) => self.operand_with(stand, callback, value),
            Err(halt) => self.halted(stand, halt),
        }
    }

    // That, with the value known.
    fn operand_with<'a>(
        &mut self,
        stand: &ControlPoint<'a>,
        callback: u32,
        value: Value,
    ) -> Result<Pace<'a>, Fault>
        ensures done { IfOk result (λ pace. OperandKept stand.now callback value self.old pace
            self.new) }
        ensures stuck { OnStuck result (ValueKeptStuck stand.now callback value self.old) }
    {
        let Value::Ref(kind, cell) = value else {
            return Err(Fault::Stuck);
        };
        self.hold(kind, cell)?;
        self.keep_operand(stand, Held { callback, cell })
    }

    // The actor ends with a value; everything leaves its variables.
    fn finish_with<'a>(
        &mut self,
        code: &Code,
        stand: &ControlPoint<'a>,
        expr: &Resolved,
    ) -> Result<Pace<'a>, Fault>
        ensures done { IfOk result (λ pace. Evaluates stand.now value_of
            (value_for code.now stand.now.actor.0 expr.now self.old) self.old
            (IsReturn stand.now) pace self.new) }
        ensures stuck { OnStuck result (EvaluatesStuck stand.now value_of
            (value_for code.now stand.now.actor.0 expr.now self.old) self.old
            (ReturnStuck stand.now)) }
    {
        match self.value(code, stand.actor, expr) {
            Ok(value) => self.end_with_value(stand, value),
            Err(halt) => self.halted(stand, halt),
        }
    }

    #[tactic(auto, using(crate::proofs::Stepped::returns_by))]
    // That, with the value known.
    fn end_with_value<'a>(
        &mut self,
        stand: &ControlPoint<'a>,
        value: Value,
    ) -> Result<Pace<'a>, Fault>
        ensures done { IfOk result (λ pace. IsReturn stand.now value self.old pace self.new) }
        ensures stuck { OnStuck result (ReturnStuck stand.now value self.old) }
    {
        self.hold_value(&value)?;
        self.note(*stand)?;
        let outcome = Box::new(self.alloc, Outcome::Value(value))?;
        self.heap.push(Task::Close(stand.actor, outcome))?;
        self.lose_all(stand.actor)?;
        Ok(Pace::Off)
    }
}
