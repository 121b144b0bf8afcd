// Call statements: messages, sends, cancelling, and calls of functions.

ghost use Rattle.std.specs.Prelude.{◌≡◌, ◌⊎◌, IfOk, OnOk, None, Some, map, slice_get};
ghost use Rattle.flow_value.specs.View.{value_of, outcome_of};
ghost use Rattle.flow_meaning.specs.Lines.{print_line};
ghost use Rattle.flow_meaning.specs.Evaluating.{sent};
ghost use Rattle.flow_steps.specs.Points.{values};
ghost use Rattle.flow_steps.specs.Acting.{args_of, IsMessage, Printed, PredefinedCalled, MethodCalled};
ghost use Rattle.flow_steps.specs.Delivering.{complete_at, sending};
ghost use Rattle.flow_steps.specs.Holding.{outcome_refs};
ghost use Rattle.flow_steps.specs.Stuck.{OnStuck, Missing, SomeMissing};
ghost use Rattle.flow_steps.specs.StuckRequests.{NoMessage, PredefinedStuck, MethodStuck};
ghost use Rattle.flow_eval.specs.Answers.{arg};

use crate::call::Call;
use crate::effects::{int_at, take_text};
use crate::errors::Fault;
use crate::process::Process;
use flow_ast::predefined::{Method, Predefined};
use flow_base::errors::ALREADY_SET;
use flow_base::ids::{ActorId, CellId};
use flow_cancel::task::Task;
use flow_trace::line::Line;
use flow_value::value::{Kind, Outcome, Value, own_text};
use std::alloc::Global;

/// Takes the first argument out of the arguments.
fn first(args: Vec<Value>) -> Option<Value>
    ensures { result ≡ slice_get args.items 0 }
{
    args.into_iter().next()
}

/// The line of a printed value.
fn print_line(alloc: Global, actor: ActorId, value: Value) -> Result<Line, Fault>
    ensures done { IfOk result (λ l. print_line actor.0 (value_of value) ≡ Some l) }
    ensures stuck { OnStuck result (print_line actor.0 (value_of value) ≡ None) }
{
    match value {
        Value::Int(n) => Ok(Line::PrintInt(actor, n)),
        Value::Bool(b) => Ok(Line::PrintBool(actor, b)),
        Value::Text(text) => Ok(Line::PrintText(actor, own_text(alloc, text)?)),
        Value::Void | Value::Error(_) | Value::Struct(_) | Value::List(_) | Value::Ref(_, _) => {
            Err(Fault::Stuck)
        }
    }
}

/// What a method sends: `send` a value, void where it has no argument; `sendError` an error.
fn sent(method: Method, arg: Option<Value>) -> Result<Outcome, Fault>
    ensures done { IfOk result (λ o. sent method (map value_of (values arg))
        ≡ Some (outcome_of o)) }
    ensures stuck { OnStuck result (sent method (map value_of (values arg)) ≡ None) }
{
    match (method, arg) {
        (Method::Send, arg) => Ok(Outcome::Value(arg.unwrap_or(Value::Void))),
        (Method::SendError, Some(Value::Error(error))) => Ok(Outcome::Error(error)),
        _ => Err(Fault::Stuck),
    }
}

/// A text that is sent to a port of a process.
fn send_to(alloc: Global, actor: ActorId, args: Vec<Value>) -> Result<Call, Fault>
    ensures done { IfOk result (λ c. IsMessage actor (args_of args) c) }
    ensures stuck { OnStuck result (NoMessage (args_of args)) }
{
    let mut args = args;
    let process = int_at(&args, 0)?;
    let port = int_at(&args, 1)?;
    let text = take_text(alloc, &mut args, 2)?;
    Ok(Call::SendTo(actor, process, port, text))
}

impl Process {
    #[tactic(auto, using(crate::proofs::Amiss::nothing_printed))]
    // A value is printed.
    fn print(&mut self, actor: ActorId, args: Vec<Value>) -> Result<(), Fault>
        ensures done { OnOk result (Printed actor (args_of args) self.old self.new) }
        ensures stuck { OnStuck result (print_line actor.0 (arg (args_of args) 0) ≡ None) }
    {
        self.run_on(actor)?;
        let Some(value) = first(args) else {
            return Err(Fault::Stuck);
        };
        let line = print_line(self.alloc, actor, value)?;
        self.tell(line);
        Ok(())
    }

    #[tactic(auto, using(crate::proofs::Acts::message_by))]
    /// A call statement of a predefined name.
    pub(crate) fn predefined_act(
        &mut self,
        actor: ActorId,
        call: Predefined,
        args: Vec<Value>,
    ) -> Result<(), Fault>
        ensures done { OnOk result (PredefinedCalled actor call args self.old self.new) }
        ensures stuck { OnStuck result (PredefinedStuck actor call args) }
    {
        match call {
            Predefined::Trace => self.print(actor, args),
            Predefined::SendTo => {
                let sent = send_to(self.alloc, actor, args)?;
                self.ask(sent);
                Ok(())
            }
            _ => Err(Fault::Stuck),
        }
    }

    // Whether nothing more can be sent into the cell of a kind of reference, if there is one.
    fn is_complete(&self, kind: Kind, cell: CellId) -> Result<bool, Fault>
        ensures done { IfOk result (λ b. b ≡ complete_at kind cell.0 self.now.heap) }
        ensures stuck { OnStuck result (Missing kind cell.0 self.now.heap) }
    {
        match kind {
            Kind::Promise | Kind::Future => {
                if self.heap.cells().references(cell).is_none() {
                    return Err(Fault::Stuck);
                }
                Ok(self.heap.cells().content(cell).is_some())
            }
            Kind::PromiseStream | Kind::FutureStream => {
                if self.heap.streams().references(cell).is_none() {
                    return Err(Fault::Stuck);
                }
                Ok(self.heap.streams().ended(cell))
            }
        }
    }

    // A send into a cell to which nothing more can be sent throws that; otherwise a turn, and the cell fires.
    fn send_into(
        &mut self,
        actor: ActorId,
        kind: Kind,
        cell: CellId,
        outcome: Outcome,
    ) -> Result<(), Fault>
        ensures done { OnOk result (self.new ≡ sending actor kind cell.0 outcome self.old) }
        ensures stuck { OnStuck result (Missing kind cell.0 self.old.heap
            ⊎ SomeMissing (outcome_refs outcome) self.old.heap) }
    {
        if self.is_complete(kind, cell)? {
            return self.throw(actor, ALREADY_SET);
        }
        if !self.turn() {
            return Ok(());
        }
        self.hold_outcome(&outcome)?;
        self.heap.push(Task::Run(actor))?;
        self.fill(kind, cell, outcome)
    }

    #[tactic(auto, using(crate::proofs::Acts::sends_by))]
    /// A call statement on a reference.
    pub(crate) fn method_act(
        &mut self,
        actor: ActorId,
        method: Method,
        kind: Kind,
        cell: CellId,
        arg: Option<Value>,
    ) -> Result<(), Fault>
        ensures done { OnOk result (MethodCalled actor method kind cell arg self.old self.new) }
        ensures stuck { OnStuck result (MethodStuck method kind cell arg self.old.heap) }
    {
        match kind {
            Kind::Promise | Kind::PromiseStream => {
                let outcome = sent(method, arg)?;
                self.send_into(actor, kind, cell, outcome)
            }
            Kind::Future if method == Method::Cancel => {
                self.heap.push(Task::Run(actor))?;
                self.cancel_owner(cell)
            }
            Kind::Future | Kind::FutureStream => Err(Fault::Stuck),
        }
    }
}
