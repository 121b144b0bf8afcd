// How great the classes may be that are judged.

ghost use Rattle.std.specs.Prelude.{◌≡◌, true, map};
ghost use Rattle.flow_class.specs.View.{class_of};
ghost use Rattle.flow_validate.specs.Sizes.{HasFewPlaces, AreFew};

use flow_class::class::Class;

// Whether places are numbered below 2^32.
fn has_few_places(class: &Class) -> bool
    ensures few { result ≡ true → HasFewPlaces (class_of class.now) }
    ensures all { HasFewPlaces (class_of class.now) → result ≡ true }
{
    let most = u32::MAX as usize;
    class.slots.len() <= most && class.locals.len() <= most
}

/// Whether each of these classes has fewer than 2^32 slots and fewer than 2^32 locals, as those have that can be judged.
pub fn are_few(classes: &[Class]) -> bool
    ensures few { result ≡ true → AreFew (map class_of classes.now) }
    ensures all { AreFew (map class_of classes.now) → result ≡ true }
{
    for class in classes {
        if !has_few_places(class) {
            return false;
        }
    }
    true
}
