// What the code is coded from.

ghost use Rattle.flow_step_refinement.specs.Effects.Texts as law;

/// An effect or a call statement of the code is coded from one of the class text, with the same arguments and the same path.
pub fn code_matches_texts()
    ensures effect { law.EffectCoded }
    ensures operand { law.OperandCoded }
    ensures call { law.CallCoded }
    ensures void { law.VoidCoded }
    ensures method { law.MethodCoded }
{}

/// Where the fields of an aim lead in memory, the names of its path lead in the frame.
pub fn aims_match_paths()
    ensures { law.PathSeen }
{}
