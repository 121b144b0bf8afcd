// One monitor of those that are handed in.

ghost use Rattle.std.specs.Prelude.{◌≡◌, option_map, map};
ghost use Rattle.flow_monitor.specs.Attaching.{or_named, first_named};

use crate::monitor::Monitor;
use flow_base::name::Name;

// The first of a name, of what was found before and one more, which is dropped else.
fn or_named(
    found: Option<Box<dyn Monitor>>,
    more: Box<dyn Monitor>,
    name: &Name,
) -> Option<Box<dyn Monitor>>
    ensures { option_map (λ m. record { name = label m; begun = begun m }) result ≡ or_named name.now
        (option_map (λ m. record { name = label m; begun = begun m }) found)
        (record { name = label more; begun = begun more }) }
{
    if let Some(first) = found {
        return Some(first);
    }
    if more.name().as_bytes() == name.bytes() {
        return Some(more);
    }
    None
}

/// The first monitor of that name; none exactly where there is none. The others are dropped.
pub fn pick(handed: Vec<Box<dyn Monitor>>, name: &Name) -> Option<Box<dyn Monitor>>
    ensures { option_map (λ m. record { name = label m; begun = begun m }) result ≡ first_named name.now
        (map (λ m. record { name = label m; begun = begun m }) handed.items) }
{
    let mut found = None;
    for monitor in handed {
        found = or_named(found, monitor, name);
    }
    found
}
