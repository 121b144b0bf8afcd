// Where an actor stands.

ghost use Rattle.std.specs.Prelude.{◌<◌, ◌^◌, length};

use flow_layout::places::Layout;
use flow_tree::decl::Program;
use std::alloc::Global;

/// An actor's program and its layout.
#[derive(Drop)]
pub struct Context<'a> {
    pub alloc: Global,
    pub program: &'a Program,
    pub layout: &'a Layout,
    ghost small: { length layout.now.slots.items < 2 ^ 32 },
}
