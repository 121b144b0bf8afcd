// What is shown of programs and of their classes.

ghost use Rattle.flow_compile_laws.specs.Frames.Laws.{TraceShown, ClassTraceShown, ShownKept, ShownReturned};

/// Without frames what is shown is the trace.
pub fn shown_without_frames_is_trace()
    ensures source { TraceShown }
    ensures classes { ClassTraceShown }
{}

/// Of a program that the front accepts and the classes that it is compiled to the same is shown in every
/// world, with frames and without.
pub fn compile_preserves_shown_lines()
    ensures kept { ShownKept }
    ensures returned { ShownReturned }
{}
