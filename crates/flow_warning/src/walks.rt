// How walks go on that neither mention a name nor have come to a wait.

ghost use Rattle.std.specs.Prelude.{◌≡◌, true};
ghost use Rattle.std.specs.Option.{option_map};
ghost use Rattle.flow_tree.specs.View.{expr_of};
ghost use Rattle.flow_tree.specs.Body.{Body};
ghost use Rattle.flow_tree.specs.StmtView.{stmt_of, body_of, simple_of, else_of};
ghost use Rattle.flow_warning.specs.Walks.{nowhere, empty, passed, thrown, left, waiting, unless_mentioned, first_wait, either, in_turn, round, looped, tested, handled, alone, branching};

use crate::mentions::{
    branches_mention, change_mentions, maybe_mentions, mention, mentions, path_mentions,
};
use flow_base::place::Place;
use flow_tree::expr::Expr;
use flow_tree::stmt::{Stmt, StmtKind};

/// How such walks leave a part of a body: at its end, by a `break` or a `continue` of the loop around it, to the catch around it, by a
/// `return` or a `throw`; and the first wait that one of them comes to.
#[derive(Clone, Copy, PartialEq, Eq)]
pub struct Walks {
    pub ends: bool,
    pub breaks: bool,
    pub continues: bool,
    pub throws: bool,
    pub leaves: bool,
    pub wait: Option<Place>,
}

// The first of two waits.
fn first_wait(one: Option<Place>, other: Option<Place>) -> Option<Place>
    ensures { result ≡ first_wait one other }
{
    match one {
        Some(place) => Some(place),
        None => other,
    }
}

impl Walks {
    /// None.
    const NOWHERE: Walks = Walks {
        ends: false,
        breaks: false,
        continues: false,
        throws: false,
        leaves: false,
        wait: None,
    };

    // Those through an empty body.
    fn empty() -> Walks
        ensures { result ≡ empty }
    {
        Walks {
            ends: true,
            ..Walks::NOWHERE
        }
    }

    // Those through a node, unless it mentions the name.
    fn passed(mentioned: bool) -> Walks
        ensures { result ≡ unless_mentioned mentioned passed }
    {
        if mentioned {
            return Walks::NOWHERE;
        }
        Walks {
            ends: true,
            throws: true,
            ..Walks::NOWHERE
        }
    }

    // Those through a node that leads to the catch alone.
    fn thrown() -> Walks
        ensures { result ≡ thrown }
    {
        Walks {
            throws: true,
            ..Walks::NOWHERE
        }
    }

    // Those to a `return` or a `throw`, unless it mentions the name.
    fn left(mentioned: bool) -> Walks
        ensures { result ≡ unless_mentioned mentioned left }
    {
        if mentioned {
            return Walks::NOWHERE;
        }
        Walks {
            throws: true,
            leaves: true,
            ..Walks::NOWHERE
        }
    }

    // Those to a wait, unless it mentions the name.
    fn waiting(mentioned: bool, at: Place) -> Walks
        ensures { result ≡ unless_mentioned mentioned (waiting at) }
    {
        if mentioned {
            return Walks::NOWHERE;
        }
        Walks {
            wait: Some(at),
            ..Walks::NOWHERE
        }
    }

    fn breaking() -> Walks
        ensures { result ≡ record nowhere { breaks = true } }
    {
        Walks {
            breaks: true,
            ..Walks::NOWHERE
        }
    }

    fn continuing() -> Walks
        ensures { result ≡ record nowhere { continues = true } }
    {
        Walks {
            continues: true,
            ..Walks::NOWHERE
        }
    }

    // These, unless the name is mentioned before.
    fn unless(self, mentioned: bool) -> Walks
        ensures { result ≡ unless_mentioned mentioned self }
    {
        if mentioned { Walks::NOWHERE } else { self }
    }

    // Those of two kinds.
    fn either(self, other: Walks) -> Walks
        ensures { result ≡ either self other }
    {
        Walks {
            ends: self.ends || other.ends,
            breaks: self.breaks || other.breaks,
            continues: self.continues || other.continues,
            throws: self.throws || other.throws,
            leaves: self.leaves || other.leaves,
            wait: first_wait(self.wait, other.wait),
        }
    }

    // Those through one part and then another.
    fn in_turn(self, other: Walks) -> Walks
        ensures { result ≡ in_turn self other }
    {
        if !self.ends {
            return self;
        }
        Walks {
            ends: false,
            ..self
        }
        .either(other)
    }

    /// Those through a round of a loop, which comes to its end also by a `continue`.
    pub fn round(self) -> Walks
        ensures { result ≡ round self }
    {
        Walks {
            ends: self.ends || self.continues,
            continues: false,
            ..self
        }
    }

    // Those through a loop with this round, which nothing but a `break` leaves.
    fn looped(self) -> Walks
        ensures { result ≡ looped self }
    {
        Walks {
            ends: self.breaks,
            breaks: false,
            continues: false,
            ..self
        }
    }

    // Those through a loop with this round and this condition.
    fn tested(self, name: &[u8], test: &Option<Expr>) -> Walks
        ensures { result ≡ tested name.now (option_map expr_of test.now) self }
    {
        match test {
            None => self.looped(),
            Some(test) => Walks::passed(false)
                .either(self.looped())
                .unless(mentions(name, test)),
        }
    }

    // Those through a `try` and its handler.
    fn handled(self, handler: Walks) -> Walks
        ensures { result ≡ handled self handler }
    {
        if !self.throws {
            return self;
        }
        Walks {
            throws: false,
            ..self
        }
        .either(handler)
    }

    /// Those through these and then through a `for` part or a body.
    pub fn onward(self, other: Walks) -> Walks
        ensures { result ≡ in_turn self other }
    {
        self.in_turn(other)
    }
}

/// The walks from the begin of these statements that don't mention a name, as far as their first wait.
#[tactic(auto, using(crate::proofs::Joins::alone_next, crate::proofs::Joins::alone_stops, crate::proofs::Joins::alone_end))]
#[cycle(alone)]
pub fn alone(name: &[u8], stmts: &[Stmt]) -> Walks
    ensures { result ≡ alone name.now (body_of stmts.now) }
{
    let mut walks = Walks::empty();
    for stmt in stmts {
        walks = walks.in_turn(alone_in(name, stmt));
        if !walks.ends {
            return walks;
        }
    }
    walks
}

// Those through a statement.
#[cycle(alone)]
fn alone_in(name: &[u8], stmt: &Stmt) -> Walks
    ensures { (k : Body) → alone name.now (stmt_of stmt.now k) ≡ in_turn result (alone name.now k) }
{
    match &stmt.kind {
        StmtKind::Block(body) => alone(name, body),
        StmtKind::If(test, chosen, otherwise) => branching(
            name,
            mentions(name, test),
            alone(name, chosen),
            otherwise,
        ),
        StmtKind::While(test, body) => {
            let body = alone(name, body);
            Walks::passed(false)
                .either(body.looped())
                .unless(mentions(name, test))
        }
        StmtKind::For(init, test, step, body) => {
            let init = alone_part(name, init);
            let round = alone(name, body).round().in_turn(alone_part(name, step));
            init.in_turn(round.tested(name, test))
        }
        StmtKind::Loop(body) => alone(name, body).looped(),
        StmtKind::Break => Walks::breaking(),
        StmtKind::Continue => Walks::continuing(),
        StmtKind::Return(value) => Walks::left(maybe_mentions(name, value)),
        StmtKind::Throw(error) => Walks::left(maybe_mentions(name, error)),
        StmtKind::Try(body, _, _, handler) => alone(name, body).handled(alone(name, handler)),
        StmtKind::Choose(branches) => Walks::waiting(branches_mention(name, branches), stmt.at),
        StmtKind::Declare(_, value) => Walks::passed(maybe_mentions(name, value)),
        StmtKind::Assign(target, value) => {
            Walks::passed(path_mentions(name, target) || mentions(name, value))
        }
        StmtKind::Modify(target, change) => {
            Walks::passed(path_mentions(name, target) || change_mentions(name, change))
        }
        StmtKind::Call(target, args) => {
            Walks::passed(path_mentions(name, target) || mention(name, args))
        }
        StmtKind::Wait(waiting) => Walks::waiting(mentions(name, &waiting.operand), stmt.at),
    }
}

// Those through an `if` by whether its condition mentions the name, its first body and its `else`.
#[cycle(alone)]
fn branching(name: &[u8], mentioned: bool, chosen: Walks, otherwise: &Option<Vec<Stmt>>) -> Walks
    ensures { result ≡ branching name.now mentioned chosen (else_of otherwise.now) }
{
    let walks = match otherwise {
        None => Walks::passed(false).either(chosen),
        Some(otherwise) => Walks::thrown().either(chosen.either(alone(name, otherwise))),
    };
    walks.unless(mentioned)
}

/// Those through the init or the step of a `for`, where it is there.
#[cycle(alone)]
pub fn alone_part(name: &[u8], part: &Option<Box<Stmt>>) -> Walks
    ensures { result ≡ alone name.now (simple_of part.now) }
{
    match part {
        Some(stmt) => alone_in(name, stmt),
        None => Walks::empty(),
    }
}

/// Those through the rounds of a `for` with this condition, step and body.
pub fn alone_rounds(
    name: &[u8],
    test: &Option<Expr>,
    step: &Option<Box<Stmt>>,
    body: &[Stmt],
) -> Walks
    ensures { result ≡ tested name.now (option_map expr_of test.now)
        (in_turn (round (alone name.now (body_of body.now))) (alone name.now (simple_of step.now))) }
{
    alone(name, body)
        .round()
        .in_turn(alone_part(name, step))
        .tested(name, test)
}
