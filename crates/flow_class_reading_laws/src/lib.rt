//! Laws of reading class text: one answer to each text, what is read is written as class text has classes, and what was written is read
//! back.
#![tactic(auto)]

pub mod laws;
