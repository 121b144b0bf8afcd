// The places of a frame.

use flow_tree::decl::Slot;
use flow_tree::ty::Ty;

/// The places of an actor's frame: its slots, which are its parameters and then its state variables,
/// the types of its locals, and how many branches each of its groups has, all in the order of the
/// text. Group k, from 1, has the number of branches at index k - 1.
#[derive(Drop)]
pub struct Layout {
    pub slots: Vec<Slot>,
    pub locals: Vec<Ty>,
    pub branches: Vec<u32>,
}
