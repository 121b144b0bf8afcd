// Laws of the events of a world.

ghost use Rattle.flow_meaning.specs.Frame.{Frame};
ghost use Rattle.flow_meaning.specs.Process.{Proc};
ghost use Rattle.flow_steps.specs.declared.process.Process.{Process};
ghost use Rattle.flow_world_refinement.specs.Order.Beginning.{StartShown};
ghost use Rattle.flow_world_refinement.specs.Order.Coming.{SameNext, SameEnd};

use flow_trace::out::LineOut;

/// What is meant by a process in memory that rests between events and shows one of the definitions.
pub trait Resting {
    ghost rests: { Process → Proc Frame → Type 0 };
}

/// Whatever is meant by a process that rests: a world in memory before its first event shows the first
/// state of the definitions; and where a world shows one of the definitions, the same line of the
/// script or the same pending event comes next.
pub fn next_events_match<R: Resting>()
    ensures start { StartShown R.rests }
    ensures next { SameNext R.rests }
{}

/// Where a world shows one of the definitions, a run is idle or comes to its bound where they say so,
/// and an event runs or is spent only where they have one.
pub fn ends_of_runs_match<R: Resting, L: LineOut>()
    ensures { SameEnd R.rests L.puts }
{}
