//! What accepted programs are: the control graph of a body, and that each is well typed.
//!
//! - `laws::control_flow`: The control graph of a body, the walks in it, and laws of what the rules on bodies say
//!   by them. The definitions stand in this crate's `specs/`; each law is what a call with an empty body
//!   ensures.
//! - `laws::typing`: The law that joins the judgement of expressions by form with their types: where no rule
//!   refuses a program, it is well typed.
#![tactic(auto)]

pub mod laws;
