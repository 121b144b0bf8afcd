// What is proved of the class text of a program.

ghost use Rattle.flow_class_text_laws.specs.Laws.{CompilesToText, CompilesFew};

/// Some class text of version 2 derives the records, functions and classes of each program that the front accepts and in which no
/// actor weighs more than 60,000. Each of its tokens is spelled by some bytes, within its bounds; no node is deeper than 64; each
/// number that numbers or names a thing of a class is below 2^32; and no group has more than 64 callbacks.
pub fn compiled_classes_have_text()
    ensures { CompilesToText }
{}

/// Each class of such a program has 2^32 places at most.
pub fn compiled_classes_have_few_places()
    ensures { CompilesFew }
{}
