// Call statements: what is called without a base, and methods of what an actor aims at.

ghost use Rattle.std.specs.Prelude.{◌≡◌, IfOk, IfSome, IsNone, Some, None};
ghost use Rattle.std.specs.Option.{option_map};
ghost use Rattle.flow_value.specs.View.{value_of};
ghost use Rattle.flow_value.specs.Values.{RefValue};
ghost use Rattle.flow_code.specs.Resolved.View.{places_in};
ghost use Rattle.flow_steps.specs.declared.next.Pace.TheVariants.{On, Off};
ghost use Rattle.flow_steps.specs.Evaluating.{Evaluates};
ghost use Rattle.flow_steps.specs.Points.{place_held, field_path, next_stand};
ghost use Rattle.flow_steps.specs.Acting.{args_of};
ghost use Rattle.flow_steps.specs.Stepping.{IsAct, IsCall, IsMethod, MethodStep, FunctionCalled, values_for};
ghost use Rattle.flow_steps.specs.Stuck.{OnStuck};
ghost use Rattle.flow_steps.specs.StuckCalls.{EvaluatesStuck};
ghost use Rattle.flow_steps.specs.StuckSteps.{FunctionStuck, ActStuck, NoReferenceAt, CallsStuck, MethodDoneStuck, MethodStepStuck};

use crate::errors::Fault;
use crate::frames::ControlPoint;
use crate::next::Pace;
use crate::process::Process;
use flow_ast::predefined::Method;
use flow_base::ids::{ActorId, CellId};
use flow_code::class::{Act, Aim};
use flow_code::expr::evaluate::field;
use flow_code::expr::expr::Resolved;
use flow_code::expr::names::FieldNames;
use flow_code::program::Code;
use flow_value::value::{Kind, Value};

/// The part of a value to which fields with names of these numbers lead.
pub(crate) fn part<'a>(fields: &FieldNames, value: &'a Value, path: &[usize]) -> Option<&'a Value>
    ensures done { IfSome result (λ v. field_path (places_in fields.now) path.now
        (Some (value_of value.now)) ≡ Some (value_of v.now)) }
    ensures none { IsNone result → field_path (places_in fields.now) path.now
        (Some (value_of value.now)) ≡ None }
{
    let mut part = value;
    for name in path {
        let Some(inner) = field(fields, part, *name) else {
            return None;
        };
        part = inner;
    }
    Some(part)
}

/// A value is forgotten, and the actor goes on at its next instruction.
fn next_after<'a>(stand: &ControlPoint<'a>, _value: Value) -> Result<Pace<'a>, Fault>
    ensures done { IfOk result (λ pace. pace ≡ On (next_stand stand.now)) }
    ensures stuck { OnStuck result ⊥ }
{
    Ok(Pace::On(stand.next()?))
}

impl Process {
    /// A call statement without a base: a predefined one, a function of the program, whose value is forgotten, or a void actor.
    pub(crate) fn act<'a>(
        &mut self,
        code: &Code,
        stand: &ControlPoint<'a>,
        act: Act,
        args: &[Resolved],
    ) -> Result<Pace<'a>, Fault>
        ensures done { IfOk result (λ pace. Evaluates stand.now args_of
            (values_for code.now stand.now.actor.0 args.now self.old) self.old
            (IsAct code.now stand.now act) pace self.new) }
        ensures stuck { OnStuck result (EvaluatesStuck stand.now args_of
            (values_for code.now stand.now.actor.0 args.now self.old) self.old
            (ActStuck code.now stand.now act)) }
    {
        match self.values(code, stand.actor, args) {
            Ok(args) => self.act_with(code, stand, act, args),
            Err(halt) => self.halted(stand, halt),
        }
    }

    // That, with its arguments known.
    fn act_with<'a>(
        &mut self,
        code: &Code,
        stand: &ControlPoint<'a>,
        act: Act,
        args: Vec<Value>,
    ) -> Result<Pace<'a>, Fault>
        ensures done { IfOk result (λ pace. IsAct code.now stand.now act args self.old pace
            self.new) }
        ensures stuck { OnStuck result (ActStuck code.now stand.now act args self.old) }
    {
        match act {
            Act::World(call) => {
                self.go_on(stand)?;
                self.predefined_act(stand.actor, call, args)?;
                Ok(Pace::Off)
            }
            Act::Function(function) => self.call_function(code, stand, function, args),
            Act::Actor(class) => {
                self.go_on(stand)?;
                self.call_void(code, stand.actor, class, args)?;
                Ok(Pace::Off)
            }
        }
    }

    /// A method of what an actor aims at.
    #[tactic(auto, using(crate::proofs::Going::more_stuck))]
    pub(crate) fn method<'a>(
        &mut self,
        code: &Code,
        stand: &ControlPoint<'a>,
        aim: &Aim,
        method: Method,
        args: &[Resolved],
    ) -> Result<Pace<'a>, Fault>
        ensures done { IfOk result (λ pace. MethodStep code.now stand.now aim.now method args.now
            self.old pace self.new) }
        ensures stuck { OnStuck result (MethodStepStuck code.now stand.now aim.now method args.now
            self.old) }
    {
        match args {
            [] => self.method_with(code, stand, aim, method, None),
            [arg] => match self.value(code, stand.actor, arg) {
                Ok(value) => self.method_with(code, stand, aim, method, Some(value)),
                Err(halt) => self.halted(stand, halt),
            },
            _ => Err(Fault::Stuck),
        }
    }

    // That, with its argument known: a vector changes, or what is sent goes to a reference.
    fn method_with<'a>(
        &mut self,
        code: &Code,
        stand: &ControlPoint<'a>,
        aim: &Aim,
        method: Method,
        sent: Option<Value>,
    ) -> Result<Pace<'a>, Fault>
        ensures done { IfOk result (λ pace. IsMethod code.now stand.now aim.now method sent self.old
            pace self.new) }
        ensures stuck { OnStuck result (MethodDoneStuck code.now stand.now aim.now method sent
            self.old) }
    {
        match method {
            Method::PushBack => match sent {
                Some(element) => self.grow(code, stand, aim, element),
                None => Err(Fault::Stuck),
            },
            Method::Clear => self.clear(code, stand, aim),
            Method::Code | Method::Size | Method::Substr | Method::At => {
                self.call_reference(code, stand, aim, method, sent)
            }
            Method::IsReady | Method::IsError | Method::Get | Method::GetFuture | Method::IsSet => {
                self.call_reference(code, stand, aim, method, sent)
            }
            Method::Send | Method::SendError | Method::Cancel => {
                self.call_reference(code, stand, aim, method, sent)
            }
        }
    }

    // A method of the reference at which an actor aims.
    #[tactic(auto, using(crate::proofs::Stepped::method_by))]
    fn call_reference<'a>(
        &mut self,
        code: &Code,
        stand: &ControlPoint<'a>,
        aim: &Aim,
        method: Method,
        sent: Option<Value>,
    ) -> Result<Pace<'a>, Fault>
        ensures done { IfOk result (λ pace. IsCall code.now stand.now aim.now method sent self.old
            pace self.new) }
        ensures stuck { OnStuck result (CallsStuck code.now stand.now aim.now method sent
            self.old) }
    {
        let Some((kind, cell)) = self.reference_at(code, stand.actor, aim) else {
            return Err(Fault::Stuck);
        };
        self.go_on(stand)?;
        self.method_act(stand.actor, method, kind, cell, sent)?;
        Ok(Pace::Off)
    }

    // The reference at which an actor aims.
    fn reference_at(&self, code: &Code, actor: ActorId, aim: &Aim) -> Option<(Kind, CellId)>
        ensures done { IfSome result (λ r. field_path (places_in code.now.fields) aim.now.path.items
            (option_map value_of (place_held actor.0 aim.now.place self.now.heap))
            ≡ Some (RefValue r.0 r.1.0)) }
        ensures none { IsNone result → NoReferenceAt code.now actor.0 aim.now self.now.heap }
    {
        let root = self.heap.frames().held(actor, aim.place)?;
        match part(code.fields(), root, &aim.path)? {
            Value::Ref(kind, cell) => Some((*kind, *cell)),
            _ => None,
        }
    }

    fn call_function<'a>(
        &mut self,
        code: &Code,
        stand: &ControlPoint<'a>,
        function: usize,
        args: Vec<Value>,
    ) -> Result<Pace<'a>, Fault>
        ensures done { IfOk result (λ pace. FunctionCalled code.now stand.now function args self.old
            pace self.new) }
        ensures stuck { OnStuck result (FunctionStuck code.now stand.now function args self.old) }
    {
        match self.function_value(code, function, args) {
            Ok(value) => next_after(stand, value),
            Err(halt) => self.halted(stand, halt),
        }
    }
}
