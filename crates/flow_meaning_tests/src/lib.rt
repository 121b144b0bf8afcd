//! Worked runs of programs and of classes, computed by the checker with the definitions of `flow_meaning`, and
//! classes that carry actors, shown by terms. They stand in `proofs/`.
#![tactic(auto)]
