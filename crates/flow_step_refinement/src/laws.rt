pub mod effects;
pub mod resuming;
pub mod services;
