// Laws of the grammar.

ghost use Rattle.flow_exprs.specs.Laws.{OneExpr, OneType};

/// The same tokens are derived as one expression at most, and as one type at most.
pub fn derives_one()
    ensures expr { OneExpr }
    ensures ty { OneType }
{}
