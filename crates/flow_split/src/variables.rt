// Names become places.

ghost use Rattle.std.specs.Prelude.{◌≡◌, IfOk};
ghost use Rattle.flow_tree.specs.View.{expr_of, exprs_of};
ghost use Rattle.flow_class.specs.Scopes.{place_of, over, over_all, path_over};
ghost use Rattle.flow_split.specs.Contexts.{slots_in};

use crate::context::Context;
use flow_base::memory::NoMemory;
use flow_catch::scopes::Scopes;
use flow_choose::places::{over, over_all, path_over, place_of};
use flow_class::class::Slotted;
use flow_tree::expr::Expr;
use flow_tree::stmt::Target;
use flow_tree::ty::Ident;

impl<'a> Context<'a> {
    /// An expression over places.
    pub fn over(&self, scopes: &Scopes, expr: &Expr) -> Result<Expr, NoMemory>
        ensures { IfOk result (λ e. expr_of e
            ≡ over (slots_in self.now) scopes.now (expr_of expr.now)) }
    {
        over(self.alloc, &self.layout.slots, scopes, expr)
    }

    /// Expressions over places, in the same order.
    pub fn over_all(&self, scopes: &Scopes, exprs: &[Expr]) -> Result<Vec<Expr>, NoMemory>
        ensures { IfOk result (λ v. exprs_of v.items
            ≡ over_all (slots_in self.now) scopes.now (exprs_of exprs.now)) }
    {
        over_all(self.alloc, &self.layout.slots, scopes, exprs)
    }

    /// A path over places.
    pub fn path_over(&self, scopes: &Scopes, path: &[Ident]) -> Result<Target, NoMemory>
        ensures { IfOk result (λ t. t.path.items
            ≡ path_over (slots_in self.now) scopes.now path.now) }
    {
        path_over(self.alloc, &self.layout.slots, scopes, path)
    }

    /// The place of a name.
    pub fn place_of(&self, scopes: &Scopes, name: &[u8]) -> Option<Slotted>
        ensures { result ≡ place_of (slots_in self.now) scopes.now name.now }
    {
        place_of(&self.layout.slots, scopes, name)
    }
}
