// What stands in the code where actors stand.

ghost use Rattle.std.specs.Prelude.{ℕ, List};
ghost use Rattle.flow_class.specs.Classes.{RawTree};
ghost use Rattle.flow_code.specs.declared.class.Class.{Class};
ghost use Rattle.flow_meaning.specs.Frame.{Frame};
ghost use Rattle.flow_steps.specs.declared.frames.ControlPoint.{ControlPoint};
ghost use Rattle.flow_step_refinement.specs.Decoding as law;
ghost use Rattle.flow_step_refinement.specs.Matching as tasks;

/// An actor that stands in the code of its class, and goes on, stands there again; and what stands there
/// is coded from what its frame has: the instruction, the end of the block, its waits with their groups,
/// where it aims, and its effects.
pub fn code_matches_frames()
    ensures begins { law.BeginsInCode }
    ensures stays { law.StaysInCode }
    ensures class { law.InClassStays }
    ensures code { law.InCodeOf }
    ensures from { law.InstructionFrom }
    ensures instruction { (r : RawTree) (classes : List Class) (s : ControlPoint) (i : ℕ) (f : Frame)
        → law.InstructionAt r classes s i f }
    ensures end { (r : RawTree) (classes : List Class) (s : ControlPoint) (i : ℕ) (f : Frame)
        → law.EndAt r classes s i f }
    ensures group { (r : RawTree) (classes : List Class) (s : ControlPoint) (i : ℕ) (f : Frame)
        → law.GroupAt r classes s i f }
    ensures wait { (r : RawTree) (classes : List Class) (s : ControlPoint) (i : ℕ) (f : Frame)
        → law.WaitAt r classes s i f }
    ensures aim { law.AimOf }
    ensures effect { law.EffectOf }
    ensures stored { tasks.EffectAims }
    ensures branch { tasks.BranchCoded }
{}
