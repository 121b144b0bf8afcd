pub mod effects;
pub mod events;
pub mod invariants;
pub mod order;
pub mod traces;
pub mod views;
