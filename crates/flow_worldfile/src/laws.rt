// Laws of world files.

ghost use Rattle.flow_worldfile.specs.Laws.{OneVerdict, ReadsBack};

/// A text is a world file of one world at most, or has one first line that breaks a rule, and not
/// both.
pub fn one_verdict()
    ensures { OneVerdict }
{}

/// The printed text of a world in range is a world file of that world.
pub fn reads_back()
    ensures { ReadsBack }
{}
