// Expressions of an actor, by what it sees.

ghost use Rattle.std.specs.Prelude.{◌≡◌, IfOk, OnOk, map, slice_get};
ghost use Rattle.flow_tree.specs.DeclView.{function_of};
ghost use Rattle.flow_tree.specs.declared.limits.TheConstants.{CALL_DEPTH};
ghost use Rattle.flow_eval.specs.Eval.{function_called};
ghost use Rattle.flow_eval.specs.Functions.{run_function};
ghost use Rattle.flow_value.specs.View.{value_of};
ghost use Rattle.flow_eval.specs.View.{Gives, GivesAll, setting_of};
ghost use Rattle.flow_code.specs.Resolved.Truth.{GivesTruth};
ghost use Rattle.flow_code.specs.Resolved.View.{actor_view_of};
ghost use Rattle.flow_steps.specs.declared.next.Pace.TheVariants.{Off};
ghost use Rattle.flow_steps.specs.Evaluating.{Halted, program_time, setting_in, sight_in, with_left};
ghost use Rattle.flow_steps.specs.Seen.{contents_seen};
ghost use Rattle.flow_steps.specs.Stepping.{function_result, value_for, truth_for, values_for};
ghost use Rattle.flow_steps.specs.Stuck.{OnStuck};
ghost use Rattle.flow_steps.specs.StuckCalls.{HaltsStuck};

use crate::errors::Fault;
use crate::frames::ControlPoint;
use crate::next::Pace;
use crate::process::Process;
use crate::seen::Contents;
use flow_base::ids::ActorId;
use flow_code::expr::evaluate::{ActorView, evaluate_args, evaluate_resolved, evaluate_truth};
use flow_code::expr::expr::Resolved;
use flow_code::program::Code;
use flow_eval::cells::CellView;
use flow_eval::evaluate::{Setting, Turns, run_at};
use flow_eval::stop::Halt;
use flow_tree::limits::CALL_DEPTH;
use flow_value::value::Value;

/// The time of an event as a number of programs, the greatest of them where it is later.
fn program_time(ticks: u64) -> i64
    ensures { result ≡ program_time ticks }
{
    i64::try_from(ticks).unwrap_or(i64::MAX)
}

/// A plain function of a program is run, where it has one at this place.
fn run_function<C: CellView>(
    setting: &Setting<C>,
    function: usize,
    args: Vec<Value>,
    turns: &mut Turns,
) -> Result<Value, Halt>
    ensures { Gives (function_called (setting_of C.content setting.now)
        (run_function (setting_of C.content setting.now) CALL_DEPTH)
        (slice_get (map function_of setting.now.functions.now) function) (map value_of args.items)
        turns.old.left) result turns.new.left }
{
    if function >= setting.functions.len() {
        return Err(Halt::NoMeaning);
    }
    run_at(setting, CALL_DEPTH, function, args, turns)
}

impl Process {
    // What stays the same while an expression is evaluated.
    fn setting<'a>(&self, code: &'a Code, contents: &'a Contents<'a>) -> Setting<'a, Contents<'a>>
        requires { contents.now.cells.now ≡ self.now.heap.cells }
        ensures { setting_of contents_seen result ≡ setting_in code.now self.now }
    {
        let raw = code.program().raw();
        Setting {
            alloc: self.alloc,
            records: &raw.records,
            functions: &raw.functions,
            view: contents,
            time: program_time(self.time),
        }
    }

    // What an actor sees while it evaluates.
    fn sight<'a>(
        &'a self,
        code: &'a Code,
        actor: ActorId,
        contents: &'a Contents<'a>,
    ) -> ActorView<'a, Contents<'a>>
        requires { contents.now.cells.now ≡ self.now.heap.cells }
        ensures { actor_view_of contents_seen result ≡ sight_in code.now actor.0 self.now }
    {
        ActorView {
            setting: self.setting(code, contents),
            fields: code.fields(),
            places: self.heap.frames().places_held(actor),
        }
    }

    /// Evaluation gave no value: an error is thrown where the actor stands, or no turn was left.
    pub(crate) fn halted<'a>(
        &mut self,
        stand: &ControlPoint<'a>,
        halt: Halt,
    ) -> Result<Pace<'a>, Fault>
        ensures off { IfOk result (λ pace. pace ≡ Off) }
        ensures halted { OnOk result (Halted stand.now halt self.old self.new) }
        ensures stuck { OnStuck result (HaltsStuck stand.now halt self.old.heap) }
    {
        self.note(*stand)?;
        match halt {
            Halt::Thrown(error) => self.throw(stand.actor, error)?,
            Halt::Spent => self.spent = true,
            Halt::NoMeaning => return Err(Fault::Stuck),
            Halt::OutOfMemory => return Err(Fault::OutOfMemory),
        }
        Ok(Pace::Off)
    }

    /// The value of an expression for an actor.
    pub(crate) fn value(
        &mut self,
        code: &Code,
        actor: ActorId,
        expr: &Resolved,
    ) -> Result<Value, Halt>
        ensures gives { Gives (value_for code.now actor.0 expr.now self.old) result
            self.new.left }
        ensures rest { self.new ≡ with_left self.new.left self.old }
    {
        let mut turns = Turns { left: self.left };
        let value = {
            let contents = Contents {
                cells: self.heap.cells(),
            };
            let sight = self.sight(code, actor, &contents);
            evaluate_resolved(&sight, expr, &mut turns)
        };
        self.left = turns.left;
        value
    }

    /// The truth value of an expression for an actor.
    pub(crate) fn truth(
        &mut self,
        code: &Code,
        actor: ActorId,
        expr: &Resolved,
    ) -> Result<bool, Halt>
        ensures gives { GivesTruth (truth_for code.now actor.0 expr.now self.old) result
            self.new.left }
        ensures rest { self.new ≡ with_left self.new.left self.old }
    {
        let mut turns = Turns { left: self.left };
        let value = {
            let contents = Contents {
                cells: self.heap.cells(),
            };
            let sight = self.sight(code, actor, &contents);
            evaluate_truth(&sight, expr, &mut turns)
        };
        self.left = turns.left;
        value
    }

    /// The values of arguments for an actor.
    pub(crate) fn values(
        &mut self,
        code: &Code,
        actor: ActorId,
        args: &[Resolved],
    ) -> Result<Vec<Value>, Halt>
        ensures gives { GivesAll (values_for code.now actor.0 args.now self.old) result
            self.new.left }
        ensures rest { self.new ≡ with_left self.new.left self.old }
    {
        let mut turns = Turns { left: self.left };
        let values = {
            let contents = Contents {
                cells: self.heap.cells(),
            };
            let sight = self.sight(code, actor, &contents);
            evaluate_args(&sight, args, &mut turns)
        };
        self.left = turns.left;
        values
    }

    /// The value of a plain function.
    pub(crate) fn function_value(
        &mut self,
        code: &Code,
        function: usize,
        args: Vec<Value>,
    ) -> Result<Value, Halt>
        ensures gives { Gives (function_result code.now function args self.old) result
            self.new.left }
        ensures rest { self.new ≡ with_left self.new.left self.old }
    {
        let mut turns = Turns { left: self.left };
        let value = {
            let contents = Contents {
                cells: self.heap.cells(),
            };
            let setting = self.setting(code, &contents);
            run_function(&setting, function, args, &mut turns)
        };
        self.left = turns.left;
        value
    }
}
