// The law of a whole run.

ghost use Rattle.flow_code.specs.declared.program.Code.{Code};
ghost use Rattle.flow_meaning.specs.Frame.{Frame};
ghost use Rattle.flow_meaning.specs.Process.{Proc};
ghost use Rattle.flow_meaning.specs.World.{World};
ghost use Rattle.flow_steps.specs.declared.process.Process.{Process};
ghost use Rattle.flow_class.specs.Classes.{RawTree};
ghost use Rattle.flow_world_refinement.specs.Traces.Quiet.{CutFollows, HealFollows, FailureFollows};
ghost use Rattle.flow_world_refinement.specs.Traces.Traced.{BeginningFollows, CodeStays, TraceFollows};

use flow_trace::out::LineOut;

/// What is meant by a boundary of events.
pub trait Boundary {
    /// A process in memory rests, and shows one of the definitions.
    ghost rests: { Process → Proc Frame → Type 0 };

    /// What a world of the definitions keeps from event to event.
    ghost keeps: { World Frame → Type 0 };

    /// The code is that of the classes.
    ghost is_code: { Code → Type 0 };
}

/// Whatever is meant by a boundary: where each event in memory is the next event of the definitions,
/// with its lines, and, if frames are asked for, those of a world in memory are those seen of the world
/// that it shows, the lines that are put of classes in a world, from the first to the last, are what is
/// shown of these classes in it; without frames, a trace of them.
/// And what was put of a trace that has begun is a first part of all that is shown of these classes.
pub fn traces_refine_if_events_do<B: Boundary, L: LineOut>()
    ensures whole { TraceFollows B.rests B.keeps B.is_code L.puts }
    ensures part { BeginningFollows B.rests B.keeps B.is_code L.puts }
{}

/// An event leaves the code as it is.
pub fn events_keep_code<L: LineOut>()
    ensures { CodeStays L.puts }
{}

/// Whatever is meant by a boundary: where a process that rests has nothing to do, a link of two processes
/// that is cut by the script, or heals, is the next event of the definitions, and so is a disk that is to fail.
pub fn link_and_disk_events_refine<B: Boundary, L: LineOut>()
    ensures cut { (r : RawTree) → CutFollows B.rests B.keeps B.is_code r L.puts }
    ensures failure { (r : RawTree) → FailureFollows B.rests B.keeps B.is_code r L.puts }
    ensures heal { (r : RawTree) → HealFollows B.rests B.keeps B.is_code r L.puts }
{}
