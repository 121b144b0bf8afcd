// Laws of the classes of a program.

ghost use Rattle.flow_validity_laws.specs.Laws.{CompilesWithinRules, CompilesValid};

/// The classes of a program that the front accepts keep the rules V1 to V7: its records and functions keep the rules on
/// declarations, the name of a class counting as an actor's; the heads of the classes stand behind them, and `main` is there; in
/// each class what is named exists, jumps and handlers lead on, each group is named by one `choose`, and everything fits its type.
pub fn compiled_classes_keep_v1_to_v7()
    ensures { CompilesWithinRules }
{}

/// And if no use of a local is lost in the program either, all rules V1 to V8 hold: no walk through a class comes to an
/// instruction that reads a place which is empty there.
pub fn compiled_classes_are_valid()
    ensures { CompilesValid }
{}
