// Changes of vectors in place.

ghost use Rattle.std.specs.Prelude.{◌≡◌, IfOk, OnOk, IfSome, IsNone, Option, Some, None, map};
ghost use Rattle.std.specs.Option.{option_map};
ghost use Rattle.flow_value.specs.Values.{ValueTrees, CompositeValue, ListWhole, count_of, with_last};
ghost use Rattle.flow_value.specs.View.{value_of, values_of};
ghost use Rattle.flow_meaning.specs.Evaluating as change;
ghost use Rattle.flow_steps.specs.Stepping.{aimed_value, IsChanged, Grows, Clears};
ghost use Rattle.flow_steps.specs.Stuck.{OnStuck, AimsStuck};
ghost use Rattle.flow_steps.specs.StuckSteps.{NoVectorAt, ChangeStuck};

use crate::calling::part;
use crate::errors::Fault;
use crate::frames::ControlPoint;
use crate::next::Pace;
use crate::process::Process;
use flow_base::errors::TOO_LONG;
use flow_base::ids::ActorId;
use flow_code::class::Aim;
use flow_code::program::Code;
use flow_tree::limits::ELEMENTS;
use flow_value::value::{Value, own_items};
use std::rc::Rc;

// The elements of a value that is a list.
fn items_of(value: Option<Value>) -> Option<Rc<Vec<Value>>>
    ensures done { IfSome result (λ items. option_map value_of value
        ≡ Some (CompositeValue ListWhole (values_of items.value.items))) }
    ensures none { IsNone result → (es : ValueTrees)
        → option_map value_of value ≡ Some (CompositeValue ListWhole es) → ⊥ }
{
    match value {
        Some(Value::List(items)) => Some(items),
        _ => None,
    }
}

impl Process {
    // How many elements the vector has at which an actor aims.
    #[tactic(auto, using(crate::proofs::InPlace::vector_there, crate::proofs::InPlace::no_part_there, crate::proofs::InPlace::other_there))]
    fn vector_size(&self, code: &Code, actor: ActorId, aim: &Aim) -> Option<usize>
        ensures done { IfSome result (λ n. (es : ValueTrees) × (aimed_value code.now actor.0 aim.now
            self.now ≡ Some (CompositeValue ListWhole es)) × (count_of es ≡ n)) }
        ensures none { IsNone result → NoVectorAt code.now actor.0 aim.now self.now }
    {
        let root = self.heap.frames().held(actor, aim.place)?;
        match part(code.fields(), root, &aim.path)? {
            Value::List(items) => Some(items.len()),
            _ => None,
        }
    }

    // The vector is taken out of its place, so that nothing there shares its elements, and comes back with one more.
    fn append(
        &mut self,
        code: &Code,
        actor: ActorId,
        aim: &Aim,
        element: Value,
    ) -> Result<(), Fault>
        ensures done { OnOk result ((es : ValueTrees) × (old : Option Value)
            × IsChanged code.now actor aim.now es (with_last es (value_of element)) self.old old
            self.new) }
        ensures stuck { OnStuck result (NoVectorAt code.now actor.0 aim.now self.old) }
    {
        let old = self.assign(code, actor, aim, Value::Void)?;
        let Some(items) = items_of(old) else {
            return Err(Fault::Stuck);
        };
        let mut items = own_items(self.alloc, items)?;
        items.push(element)?;
        let vector = Value::list(self.alloc, items)?;
        self.assign(code, actor, aim, vector)?;
        Ok(())
    }

    /// A vector grows by an element; where it is full, an error is thrown, and the element counts nothing.
    #[tactic(auto, using(crate::proofs::InPlace::full))]
    pub(crate) fn grow<'a>(
        &mut self,
        code: &Code,
        stand: &ControlPoint<'a>,
        aim: &Aim,
        element: Value,
    ) -> Result<Pace<'a>, Fault>
        ensures done { IfOk result (λ pace. Grows code.now stand.now aim.now element self.old pace
            self.new) }
        ensures stuck { OnStuck result (ChangeStuck code.now stand.now aim.now change.Grows
            (Some element) self.old) }
    {
        let Some(count) = self.vector_size(code, stand.actor, aim) else {
            return Err(Fault::Stuck);
        };
        if count >= ELEMENTS {
            self.note(*stand)?;
            self.throw(stand.actor, TOO_LONG)?;
            return Ok(Pace::Off);
        }
        self.hold_value(&element)?;
        self.append(code, stand.actor, aim, element)?;
        let next = stand.next()?;
        Ok(Pace::On(next))
    }

    /// A vector is cleared: the empty one takes its place, and then what it referred to is dropped.
    pub(crate) fn clear<'a>(
        &mut self,
        code: &Code,
        stand: &ControlPoint<'a>,
        aim: &Aim,
    ) -> Result<Pace<'a>, Fault>
        ensures done { IfOk result (λ pace. Clears code.now stand.now aim.now self.old pace
            self.new) }
        ensures stuck { OnStuck result (ChangeStuck code.now stand.now aim.now change.Clears None
            self.old) }
    {
        let Some(_) = self.vector_size(code, stand.actor, aim) else {
            return Err(Fault::Stuck);
        };
        let next = stand.next()?;
        let empty = Value::list(self.alloc, Vec::new(self.alloc))?;
        let old = self.assign(code, stand.actor, aim, empty)?;
        self.on_after(next, old)
    }
}
