// What a scope consists of.

use flow_base::name::Name;

/// The begin of a scope, or a local with its number.
#[derive(Drop)]
pub enum Entry {
    Mark,
    Var(Name, u32),
}
