// What is told of a process between bursts.

ghost use Rattle.std.specs.Prelude.{◌≡◌, ◌++◌, map, length, IsSome, IfOk, OnOk};
ghost use Rattle.flow_numbered.specs.Numbered.{thing};
ghost use Rattle.std.specs.Option.{ForSome};
ghost use Rattle.flow_steps.specs.Views.{frame_view, callback_view, frames_in, callbacks_in};

use crate::process::Process;
use flow_base::ids::{ActorId, CellId};
use flow_base::memory::NoMemory;
use flow_frame::held::Held;

/// The frame of an unfinished actor: its number, its class, and its state.
#[derive(Clone, Copy, PartialEq, Eq)]
pub struct FrameView {
    pub actor: ActorId,
    pub class: u32,
    pub state: u32,
}

/// A callback of an actor: its number through the whole class, and the cell that it waits for.
#[derive(Clone, Copy, PartialEq, Eq)]
pub struct CallbackView {
    pub actor: ActorId,
    pub callback: u32,
    pub cell: CellId,
}

// The callbacks of an actor, as they are told.
fn add_callbacks(
    views: &mut Vec<CallbackView>,
    actor: ActorId,
    callbacks: &[Held],
) -> Result<(), NoMemory>
    ensures { OnOk result
        (views.new.items ≡ views.old.items ++ map (callback_view actor.0) callbacks.now) }
{
    for held in callbacks {
        views.push(CallbackView {
            actor,
            callback: held.callback,
            cell: held.cell,
        })?;
    }
    Ok(())
}

impl Process {
    // The frame of an actor, as it is told.
    fn frame_view(&self, actor: ActorId) -> FrameView
        requires { IsSome (thing self.now.heap.frames.things actor.0) }
        ensures { ForSome (thing self.now.heap.frames.things actor.0)
            (λ f. result ≡ frame_view (actor.0, f)) }
    {
        FrameView {
            actor,
            class: self.heap.frames().class(actor),
            state: self.heap.frames().state(actor),
        }
    }

    /// The frames of unfinished actors, by rising number.
    pub fn frames(&self) -> Result<Vec<FrameView>, NoMemory>
        ensures { IfOk result (λ views. views.items ≡ frames_in self.now.heap) }
    {
        let mut views = Vec::new(self.alloc);
        let mut last = ActorId(0);
        while let Some(actor) = self.heap.frames().next_actor(last) {
            views.push(self.frame_view(actor))?;
            last = actor;
        }
        Ok(views)
    }

    /// The callbacks of unfinished actors, by rising number of the actor, and those of an actor in order.
    pub fn callbacks(&self) -> Result<Vec<CallbackView>, NoMemory>
        ensures { IfOk result (λ views. views.items ≡ callbacks_in self.now.heap) }
    {
        let mut views = Vec::new(self.alloc);
        let mut last = ActorId(0);
        while let Some(actor) = self.heap.frames().next_actor(last) {
            add_callbacks(&mut views, actor, self.heap.frames().callbacks(actor))?;
            last = actor;
        }
        Ok(views)
    }

    /// How many actors are unfinished.
    pub fn live(&self) -> u64
        ensures { result ≡ length self.now.heap.frames.things }
    {
        let mut count: u64 = 0;
        let mut last = ActorId(0);
        while let Some(actor) = self.heap.frames().next_actor(last) {
            count += 1;
            last = actor;
        }
        count
    }
}
