// How walks through a body leave it.

ghost use Rattle.std.specs.Prelude.{◌≡◌, ◌-◌, length};
ghost use Rattle.std.specs.Option.{option_map};
ghost use Rattle.flow_tree.specs.View.{expr_of};
ghost use Rattle.flow_ast.specs.Typing.{is_there};
ghost use Rattle.flow_tree.specs.Body.{Body, Branches};
ghost use Rattle.flow_tree.specs.StmtView.{stmt_of, body_of, branch_of, branches_of, simple_of, else_of};
ghost use Rattle.flow_ast.specs.Slots.{body_groups, branch_groups};
ghost use Rattle.flow_staterule.specs.Ways.{ways, branch_ways, branching, else_waits, never, at_once, either, onward, both, follow, node, plain, sequence, with_step, head, looped, handled, waited_at, round, empty};

use flow_ast::expr::Expr;
use flow_ast::stmt::{Stmt, StmtKind, When};

/// By which walks a point is reached: by one that passes no wait, and by one that passes some.
#[derive(Clone, Copy, PartialEq, Eq)]
pub struct Reached {
    pub fresh: bool,
    pub waited: bool,
}

/// How a body is left: at its end, by a `break` or a `continue` of the loop around it, and to the catch around it.
#[derive(Clone, Copy, PartialEq, Eq)]
pub struct Ways {
    pub ends: Reached,
    pub breaks: Reached,
    pub continues: Reached,
    pub throws: Reached,
}

/// The waits that are looked for: the first so many from a point on.
#[derive(Clone, Copy)]
pub struct Looked(pub usize);

/// The ways out of a part of a body, and how many of the waits behind it are looked for.
#[derive(Clone, Copy)]
pub struct Passed {
    pub ways: Ways,
    pub looked: Looked,
}

impl Reached {
    pub const NEVER: Reached = Reached {
        fresh: false,
        waited: false,
    };

    pub const AT_ONCE: Reached = Reached {
        fresh: true,
        waited: false,
    };

    /// By walks of either kind.
    pub fn either(self, other: Reached) -> Reached
        ensures { result ≡ either self other }
    {
        Reached {
            fresh: self.fresh || other.fresh,
            waited: self.waited || other.waited,
        }
    }

    /// By walks that go on where others end.
    pub fn onward(self, other: Reached) -> Reached
        ensures { result ≡ onward self other }
    {
        Reached {
            fresh: self.fresh && other.fresh,
            waited: (self.waited && (other.fresh || other.waited)) || (self.fresh && other.waited),
        }
    }
}

impl Ways {
    /// A node that leads so to the catch around it, and nowhere else.
    fn node(reached: Reached) -> Ways
        ensures { result ≡ node reached }
    {
        Ways {
            ends: Reached::NEVER,
            breaks: Reached::NEVER,
            continues: Reached::NEVER,
            throws: reached,
        }
    }

    /// A node that leads so to what follows it too.
    fn plain(reached: Reached) -> Ways
        ensures { result ≡ plain reached }
    {
        Ways {
            ends: reached,
            ..Ways::node(reached)
        }
    }

    /// A `break`.
    fn breaking() -> Ways
        ensures { result ≡ record {
          ends = never;
          breaks = at_once;
          continues = never;
          throws =
              at_once;
        } }
    {
        Ways {
            breaks: Reached::AT_ONCE,
            ..Ways::node(Reached::AT_ONCE)
        }
    }

    /// A `continue`.
    fn continuing() -> Ways
        ensures { result ≡ record {
          ends = never;
          breaks = never;
          continues = at_once;
          throws =
              at_once;
        } }
    {
        Ways {
            continues: Reached::AT_ONCE,
            ..Ways::node(Reached::AT_ONCE)
        }
    }

    /// An empty body.
    fn empty() -> Ways
        ensures { result ≡ empty }
    {
        Ways {
            ends: Reached::AT_ONCE,
            ..Ways::node(Reached::NEVER)
        }
    }

    fn both(self, other: Ways) -> Ways
        ensures { result ≡ both self other }
    {
        Ways {
            ends: self.ends.either(other.ends),
            breaks: self.breaks.either(other.breaks),
            continues: self.continues.either(other.continues),
            throws: self.throws.either(other.throws),
        }
    }

    fn follow(self, reached: Reached) -> Ways
        ensures { result ≡ follow reached self }
    {
        Ways {
            ends: reached.onward(self.ends),
            breaks: reached.onward(self.breaks),
            continues: reached.onward(self.continues),
            throws: reached.onward(self.throws),
        }
    }

    /// One after the other.
    fn sequence(self, other: Ways) -> Ways
        ensures { result ≡ sequence self other }
    {
        Ways {
            ends: self.ends.onward(other.ends),
            breaks: self.breaks.either(self.ends.onward(other.breaks)),
            continues: self.continues.either(self.ends.onward(other.continues)),
            throws: self.throws.either(self.ends.onward(other.throws)),
        }
    }

    /// By which walks a round of a loop comes to its end, or to the step of a `for`.
    pub fn round(&self) -> Reached
        ensures { result ≡ round self.now }
    {
        self.ends.either(self.continues)
    }

    /// A round of a `for`: its body, and then its step.
    pub fn with_step(self, step: Ways) -> Ways
        ensures { result ≡ with_step self step }
    {
        Ways {
            ends: self.round().onward(step.ends),
            breaks: self.breaks,
            continues: Reached::NEVER,
            throws: self.throws.either(self.round().onward(step.throws)),
        }
    }

    /// By which walks the head of a loop with this round is reached.
    pub fn head(&self) -> Reached
        ensures { result ≡ head self.now }
    {
        Reached {
            fresh: true,
            waited: self.round().waited,
        }
    }

    /// A loop with this round, whose head leads past it or doesn't.
    fn looped(self, past: bool) -> Ways
        ensures { result ≡ looped past self }
    {
        let head = self.head();
        Ways {
            ends: if past { head } else { Reached::NEVER }.either(head.onward(self.breaks)),
            breaks: Reached::NEVER,
            continues: Reached::NEVER,
            throws: head.either(head.onward(self.throws)),
        }
    }

    /// A `try` with its handler.
    fn handled(self, handler: Ways) -> Ways
        ensures { result ≡ handled self handler }
    {
        let after = handler.follow(self.throws);
        Ways {
            ends: self.ends.either(after.ends),
            breaks: self.breaks.either(after.breaks),
            continues: self.continues.either(after.continues),
            throws: Reached::AT_ONCE.either(after.throws),
        }
    }
}

/// Whether a `for` leads past its body: it does where it has a condition.
fn leads_past(test: &Option<Expr>) -> bool
    ensures { result ≡ is_there (option_map expr_of test.now) }
{
    match test {
        None => false,
        Some(_) => true,
    }
}

impl Looked {
    /// By which walks the point behind a wait is reached.
    pub fn waited(self) -> Reached
        ensures { result ≡ waited_at self.0 }
    {
        Reached {
            fresh: self.0 == 0,
            waited: self.0 > 0,
        }
    }

    /// Those behind a wait.
    pub fn past_one(self) -> Looked
        ensures { result.0 ≡ self.0 - 1 }
    {
        Looked(self.0.saturating_sub(1))
    }

    /// A part without a wait.
    fn none_of(self, ways: Ways) -> Passed
        ensures ways { result.ways ≡ ways }
        ensures looked { result.looked ≡ self }
    {
        Passed { ways, looked: self }
    }

    /// The ways out of statements, one after another.
    #[cycle(ways)]
    pub fn body(self, stmts: &[Stmt]) -> Passed
        ensures ways { result.ways ≡ ways self.0 (body_of stmts.now) }
        ensures looked { result.looked.0 ≡ self.0 - length (body_groups (body_of stmts.now)) }
    {
        let mut passed = self.none_of(Ways::empty());
        for stmt in stmts {
            let more = passed.looked.stmt(stmt);
            passed = Passed {
                ways: passed.ways.sequence(more.ways),
                looked: more.looked,
            };
        }
        passed
    }

    /// The ways out of one statement.
    #[cycle(ways)]
    pub fn stmt(self, stmt: &Stmt) -> Passed
        ensures ways { (k : Body) → ways self.0 (stmt_of stmt.now k)
            ≡ sequence result.ways (ways result.looked.0 k) }
        ensures looked { (k : Body) → self.0 - length (body_groups (stmt_of stmt.now k))
            ≡ result.looked.0 - length (body_groups k) }
    {
        match &stmt.kind {
            StmtKind::Block(body) => self.joined(Ways::node(Reached::AT_ONCE), body),
            StmtKind::If(_, chosen, otherwise) => {
                let chosen = self.body(chosen);
                chosen.looked.branching(chosen.ways, otherwise)
            }
            StmtKind::While(_, body) => self.looped(true, body),
            StmtKind::For(init, test, step, body) => {
                let init = self.part(init);
                let step = init.looked.part(step);
                let body = step.looked.body(body);
                let round = body.ways.with_step(step.ways);
                Passed {
                    ways: init.ways.sequence(round.looped(leads_past(test))),
                    looked: body.looked,
                }
            }
            StmtKind::Loop(body) => self.looped(false, body),
            StmtKind::Break => self.none_of(Ways::breaking()),
            StmtKind::Continue => self.none_of(Ways::continuing()),
            StmtKind::Return(_) => self.none_of(Ways::node(Reached::AT_ONCE)),
            StmtKind::Throw(_) => self.none_of(Ways::node(Reached::AT_ONCE)),
            StmtKind::Try(body, _, _, handler) => {
                let body = self.body(body);
                let handler = body.looked.body(handler);
                Passed {
                    ways: body.ways.handled(handler.ways),
                    looked: handler.looked,
                }
            }
            StmtKind::Choose(branches) => {
                let inner = self.past_one().branches(branches);
                let ways = Ways::node(Reached::AT_ONCE).both(inner.ways);
                Passed {
                    ways: ways.follow(self.waited()),
                    looked: inner.looked,
                }
            }
            StmtKind::Declare(_, _) => self.none_of(Ways::plain(Reached::AT_ONCE)),
            StmtKind::Assign(_, _) => self.none_of(Ways::plain(Reached::AT_ONCE)),
            StmtKind::Modify(_, _) => self.none_of(Ways::plain(Reached::AT_ONCE)),
            StmtKind::Call(_, _) => self.none_of(Ways::plain(Reached::AT_ONCE)),
            StmtKind::Wait(_) => self.past_one().none_of(Ways::plain(self.waited())),
        }
    }

    /// An `if` whose first body is left so.
    #[cycle(ways)]
    fn branching(self, chosen: Ways, otherwise: &Option<Vec<Stmt>>) -> Passed
        ensures ways { result.ways ≡ branching self.0 chosen (else_of otherwise.now) }
        ensures looked { result.looked.0 ≡ self.0 - else_waits (else_of otherwise.now) }
    {
        match otherwise {
            None => self.none_of(Ways::plain(Reached::AT_ONCE).both(chosen)),
            Some(otherwise) => {
                let inner = self.joined(chosen, otherwise);
                Passed {
                    ways: Ways::node(Reached::AT_ONCE).both(inner.ways),
                    looked: inner.looked,
                }
            }
        }
    }

    /// These ways, and those out of a body.
    #[cycle(ways)]
    fn joined(self, begun: Ways, body: &Vec<Stmt>) -> Passed
        ensures ways { result.ways ≡ both begun (ways self.0 (body_of body.now.items)) }
        ensures looked { result.looked.0 ≡ self.0 - length (body_groups (body_of body.now.items)) }
    {
        let body = self.body(body);
        Passed {
            ways: begun.both(body.ways),
            looked: body.looked,
        }
    }

    /// A loop whose round is a body alone.
    #[cycle(ways)]
    fn looped(self, past: bool, body: &Vec<Stmt>) -> Passed
        ensures ways { result.ways ≡ looped past (ways self.0 (body_of body.now.items)) }
        ensures looked { result.looked.0 ≡ self.0 - length (body_groups (body_of body.now.items)) }
    {
        let body = self.body(body);
        Passed {
            ways: body.ways.looped(past),
            looked: body.looked,
        }
    }

    /// The init or the step of a `for`, where it is there.
    #[tactic(auto, using(crate::proofs::Sequences::sequence_empty))]
    #[cycle(ways)]
    pub fn part(self, part: &Option<Box<Stmt>>) -> Passed
        ensures ways { result.ways ≡ ways self.0 (simple_of part.now) }
        ensures looked { result.looked.0 ≡ self.0 - length (body_groups (simple_of part.now)) }
    {
        match part {
            Some(stmt) => self.stmt(stmt),
            None => self.none_of(Ways::empty()),
        }
    }

    /// The branches of a `choose`.
    #[cycle(ways)]
    fn branches(self, branches: &[When]) -> Passed
        ensures ways { result.ways ≡ branch_ways self.0 (branches_of branches.now) }
        ensures looked { result.looked.0 ≡ self.0 - length
            (branch_groups (branches_of branches.now)) }
    {
        let mut passed = self.none_of(Ways::node(Reached::NEVER));
        for branch in branches {
            let more = passed.looked.branch(branch);
            passed = Passed {
                ways: passed.ways.both(more.ways),
                looked: more.looked,
            };
        }
        passed
    }

    /// A branch, behind its wait.
    #[tactic(auto, using(crate::proofs::Passing::past_two))]
    #[cycle(ways)]
    fn branch(self, branch: &When) -> Passed
        ensures ways { (k : Branches) → branch_ways self.0 (branch_of branch.now k)
            ≡ both result.ways (branch_ways result.looked.0 k) }
        ensures looked { (k : Branches) → self.0 - length (branch_groups (branch_of branch.now k))
            ≡ result.looked.0 - length (branch_groups k) }
    {
        self.body(&branch.body)
    }
}
