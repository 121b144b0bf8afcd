// What is proved of class text that is read.

ghost use Rattle.flow_class_reading_laws.specs.Laws.{OneAnswer, ReadsWhole, ReadsWritten, WrittenIsReadBack, CompiledIsReadBack, ReadIsReadBack};

/// The same bytes have one answer of `read_classes` at most, want of memory aside: the same records, functions and classes, or the
/// same refusal.
pub fn class_texts_have_one_answer()
    ensures { OneAnswer }
{}

/// Of what a class text derives the laws on runs hold where it is valid, and some class text of version 2 derives it in tokens that
/// can be spelled.
pub fn read_classes_are_written()
    ensures whole { ReadsWhole }
    ensures written { ReadsWritten }
{}

/// What was written is read back: of valid classes that some class text derives, the canonical text, within the limit on bytes, is
/// read as equal ones, places aside. It is never refused. Such are the classes of each program that is accepted, and those that were
/// read.
pub fn written_classes_are_read_back()
    ensures written { WrittenIsReadBack }
    ensures compiled { CompiledIsReadBack }
    ensures read { ReadIsReadBack }
{}
