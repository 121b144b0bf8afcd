// The layout of an actor.

ghost use Rattle.std.specs.Prelude.{◌≡◌, IfOk};
ghost use Rattle.flow_tree.specs.DeclView.{actor_of};
ghost use Rattle.flow_layout.specs.Laying.{laid, layout_of};

use crate::places::Layout;
use flow_base::memory::NoMemory;
use flow_tree::decl::ActorDecl;
use std::alloc::Global;

/// The layout of an actor.
pub fn layout(alloc: Global, actor: &ActorDecl) -> Result<Layout, NoMemory>
    ensures { IfOk result (λ l. laid l ≡ layout_of (actor_of actor.now)) }
{
    let mut layout = Layout {
        slots: Vec::new(alloc),
        locals: Vec::new(alloc),
        branches: Vec::new(alloc),
    };
    layout.lay_params(alloc, &actor.params)?;
    layout.lay_body(alloc, &actor.body)?;
    Ok(layout)
}
