// What holds of traces in words.

ghost use Rattle.flow_explain.specs.Laws.{ReadBack};

/// From a line in words, from what lines told before it, and from the actors of the program, of which no two waits or branches of one
/// stand at one place, the line of the trace is read back, but for the cell of a timer or of an answer of a disk.
pub fn lines_read_back()
    ensures { ReadBack }
{}
