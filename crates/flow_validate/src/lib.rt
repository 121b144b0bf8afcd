//! The verdict on class programs: `validate` accepts exactly those which keep the rules V1 to V8, and says of any other which rule is
//! broken first, and by which class. The definitions stand in flow_valid; this crate's own `specs/` say how its parts go through
//! declarations and classes.
#![tactic(auto)]

pub mod blocks;
pub mod decls;
pub mod filling;
pub mod heads;
pub mod invalid;
pub mod named;
pub mod sizes;
pub mod touch;
pub mod types;
pub mod validate;
pub mod window;
