// Actors that start.

ghost use Rattle.std.specs.Prelude.{List};
ghost use Rattle.flow_class.specs.Classes.{RawTree};
ghost use Rattle.flow_trace.specs.declared.line.Line.{Line};
ghost use Rattle.flow_meaning.specs.Process.{Proc};
ghost use Rattle.flow_meaning.specs.Frame.{Frame};
ghost use Rattle.flow_steps.specs.declared.process.Process.{Process};
ghost use Rattle.flow_operation_refinement.specs.Matching.{Always};
ghost use Rattle.flow_step_refinement.specs.Effects.Starting as law;

/// A new actor in memory has its arguments in its first places as its frame has them in its first slots; where a turn is left, an
/// actor that is called starts in memory as in the process, with the line, and its result goes where the caller wants it.
pub fn actor_starts_refine()
    ensures holds { Always law.ActorHolds }
    ensures call { Always law.CallStarts }
    ensures void { Always law.VoidStarts }
{}

/// So does `main`, whose result the process holds.
pub fn main_start_refines()
    ensures { (r : RawTree) (ls : List Line) (m : Process) (p : Proc Frame)
        → law.MainBoots r ls m p }
{}
