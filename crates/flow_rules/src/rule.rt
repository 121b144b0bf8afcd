// The rules that a refusal names, and which of two comes first.

ghost use Rattle.std.specs.Prelude.{◌≡◌};
ghost use Rattle.flow_rules.specs.Least.{number, first_of, lesser, unless};

/// A rule on what a program means, K1 to K12.
#[derive(Clone, Copy, PartialEq, Eq)]
pub enum SemanticRule {
    /// K1: a record, variable, call, field or method is not in force.
    UnknownName,
    /// K2: a name is in force already, or predefined.
    TakenName,
    /// K3: a type is not the needed one.
    WrongType,
    /// K4: the number of arguments is not that of what is called.
    WrongCount,
    /// K5: an effect is neither a whole right-hand side, nor a whole operand of a wait, nor a statement.
    EffectInside,
    /// K6: in a function a state variable, an effect, a statement call, `now`, or a type that holds a
    /// reference.
    NotInFunction,
    /// K7: a declaration without a value, of a type that has none without.
    NeedsValue,
    /// K8: the control graph reaches the closing brace of a body.
    FallsOff,
    /// K9: `break` or `continue` outside a loop, `throw;` outside the body of a catch.
    BreakOutside,
    /// K10: `wait`, `waitNext` or `choose` in a function.
    WaitInFunction,
    /// K11: there is no actor `main` with one int and the result `Void`.
    NoMain,
    /// K12: a call as a statement that is neither a function's nor a statement call.
    LostValue,
}

impl SemanticRule {
    /// The number of the rule behind its letter, from 1 to 12.
    pub fn number(self) -> u8
        ensures { result ≡ number self }
    {
        match self {
            SemanticRule::UnknownName => 1,
            SemanticRule::TakenName => 2,
            SemanticRule::WrongType => 3,
            SemanticRule::WrongCount => 4,
            SemanticRule::EffectInside => 5,
            SemanticRule::NotInFunction => 6,
            SemanticRule::NeedsValue => 7,
            SemanticRule::FallsOff => 8,
            SemanticRule::BreakOutside => 9,
            SemanticRule::WaitInFunction => 10,
            SemanticRule::NoMain => 11,
            SemanticRule::LostValue => 12,
        }
    }
}

// The one with the lesser number.
fn first_of(left: SemanticRule, right: SemanticRule) -> SemanticRule
    ensures { result ≡ first_of left right }
{
    if right.number() < left.number() {
        right
    } else {
        left
    }
}

/// The lesser of two rules, where one fails that one.
pub fn lesser(left: Option<SemanticRule>, right: Option<SemanticRule>) -> Option<SemanticRule>
    ensures { result ≡ lesser left right }
{
    match left {
        None => right,
        Some(left) => match right {
            None => Some(left),
            Some(right) => Some(first_of(left, right)),
        },
    }
}

/// This rule, unless that holds.
pub fn unless(holds: bool, rule: SemanticRule) -> Option<SemanticRule>
    ensures { result ≡ unless holds rule }
{
    if holds { None } else { Some(rule) }
}
