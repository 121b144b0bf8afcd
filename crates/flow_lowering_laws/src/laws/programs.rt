// Laws of compiled programs.

ghost use Rattle.flow_lowering_laws.specs.Programs.{CompilesFaithfully};

/// The classes of a program that the front accepts carry its actors: each has the slots and groups of
/// its actor, in the order of the text, and at each point of the text stands what the text says.
pub fn compiled_classes_carry_program()
    ensures { CompilesFaithfully }
{}
