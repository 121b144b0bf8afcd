//! Whether classes are valid, and what is shown of them, doesn't depend on places in the text; and class text is read back as the same,
//! places aside.
#![tactic(auto)]

pub mod laws;
