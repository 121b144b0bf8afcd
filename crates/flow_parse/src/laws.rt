// Laws of the grammar.

ghost use Rattle.flow_parse.specs.Laws.{OneProgram, OneAnswer};

/// The same tokens are derived as one program at most.
pub fn derives_one()
    ensures { OneProgram }
{}

/// The same tokens have one answer of `parse` at most, want of memory aside: one program, or one
/// refusal at one place.
pub fn answers_once()
    ensures { OneAnswer }
{}
