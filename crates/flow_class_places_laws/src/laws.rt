// What is proved of classes that are equal but for places.

ghost use Rattle.flow_class_places_laws.specs.Laws.{SoundnessAside, ValidityAside, BreachesAside, HeadsAside, ClassTextReadBack};
ghost use Rattle.flow_class_places_laws.specs.Shown.{ClassesShownAside, ProgramsShownAside};

/// The rules of classes say the same of classes that are equal but for places: the first rule that is broken is the same, with the
/// class that breaks it, and where all rules hold of some classes they hold of the others. The classes of one number have the same
/// name, result, parameters, slots and locals.
pub fn validity_without_places()
    ensures valid { ValidityAside }
    ensures breaks { BreachesAside }
    ensures class { SoundnessAside }
    ensures heads { HeadsAside }
{}

/// Of such classes the same lines are shown in every world, with frames and without, and so of programs that are equal but for
/// places.
pub fn shown_lines_without_places()
    ensures classes { ClassesShownAside }
    ensures programs { ProgramsShownAside }
{}

/// The canonical text of the records, functions and classes that some class text derives is read back: its tokens are derived as
/// the same, places aside, within the limits of class text.
pub fn class_text_read_back()
    ensures { ClassTextReadBack }
{}
