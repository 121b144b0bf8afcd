// The forms of the lines of a world file.

ghost use Rattle.std.specs.Prelude.{◌≡◌, ◌≢◌, ℕ, List, [], ◌∷◌, MatchOption, MatchBool, codes};
ghost use Rattle.flow_worldfile.specs.Lines.{Field, text, number, field_of, fields};
ghost use Rattle.flow_worldfile.specs.Directives.{order_form, form, HasForm};
ghost use Rattle.flow_worldfile.specs.declared.directive.Order.{Order};
ghost use Rattle.flow_worldfile.specs.declared.directive.Directive.{Directive};

use crate::directive::{Directive, Order};
use crate::lines::{first_piece, number_of};

/// Whether no field is left.
fn is_end(rest: &[u8]) -> bool
    ensures { MatchBool result (fields rest.now ≡ []) (fields rest.now ≢ []) }
{
    first_piece(rest).is_none()
}

/// The number that is the next field, and what stands after it.
#[tactic(auto, using(crate::proofs::FieldLemmas::no_number))]
fn next_number(rest: &[u8]) -> Option<(u128, &[u8])>
    ensures { MatchOption result ((n : ℕ) (more : List Field)
        → fields rest.now ≢ number n ∷ more)
        (λ next. fields rest.now ≡ number next.0 ∷ fields next.1.now) }
{
    let Some((piece, more)) = first_piece(rest) else {
        return None;
    };
    let Some(value) = number_of(piece) else {
        return None;
    };
    Some((value, more))
}

/// The one number that is left.
fn one_number(rest: &[u8]) -> Option<u128>
    ensures { MatchOption result ((n : ℕ) → fields rest.now ≢ number n ∷ [])
        (λ n. fields rest.now ≡ number n ∷ []) }
{
    let Some((value, more)) = next_number(rest) else {
        return None;
    };
    if !is_end(more) {
        return None;
    }
    Some(value)
}

/// The two numbers that are left.
fn two_numbers(rest: &[u8]) -> Option<(u128, u128)>
    ensures { MatchOption result ((m n : ℕ) → fields rest.now ≢ number m ∷ number n ∷ [])
        (λ both. fields rest.now ≡ number both.0 ∷ number both.1 ∷ []) }
{
    let Some((first, more)) = next_number(rest) else {
        return None;
    };
    let Some(second) = one_number(more) else {
        return None;
    };
    Some((first, second))
}

/// The order of a word and one number.
#[tactic(auto, using(crate::proofs::FieldLemmas::no_short_order))]
fn short_order(word: &[u8], n: u128) -> Option<Order>
    ensures { MatchOption result ((order : Order)
        → field_of word.now ∷ number n ∷ [] ≢ order_form order)
        (λ order. field_of word.now ∷ number n ∷ [] ≡ order_form order) }
{
    if word == b"kill".as_slice() {
        return Some(Order::Kill(n));
    }
    if word == b"stop".as_slice() {
        return Some(Order::Stop(n));
    }
    if word == b"boot".as_slice() {
        return Some(Order::Boot(n));
    }
    None
}

/// The order of a word and two numbers.
#[tactic(auto, using(crate::proofs::FieldLemmas::no_long_order))]
fn long_order(word: &[u8], m: u128, n: u128) -> Option<Order>
    ensures { MatchOption result ((order : Order)
        → field_of word.now ∷ number m ∷ number n ∷ [] ≢ order_form order)
        (λ order. field_of word.now ∷ number m ∷ number n ∷ [] ≡ order_form order) }
{
    if word == b"cut".as_slice() {
        return Some(Order::Cut(m, n));
    }
    if word == b"heal".as_slice() {
        return Some(Order::Heal(m, n));
    }
    if word == b"diskfail".as_slice() {
        return Some(Order::DiskFail(m, n));
    }
    None
}

/// The order that is left of an `at` line.
#[tactic(auto, using(crate::proofs::FieldLemmas::no_order_empty, crate::proofs::FieldLemmas::no_order))]
fn order(rest: &[u8]) -> Option<Order>
    ensures { MatchOption result ((order : Order) → fields rest.now ≢ order_form order)
        (λ order. fields rest.now ≡ order_form order) }
{
    let Some((word, more)) = first_piece(rest) else {
        return None;
    };
    if let Some(n) = one_number(more) {
        return short_order(word, n);
    }
    if let Some((m, n)) = two_numbers(more) {
        return long_order(word, m, n);
    }
    None
}

/// What an `at` line says, of which this is left behind its first word.
fn at_line(rest: &[u8]) -> Option<Directive>
    ensures { MatchOption result ((time : ℕ) (order : Order)
        → fields rest.now ≢ number time ∷ order_form order)
        (λ d. text (codes "at") ∷ fields rest.now ≡ form d) }
{
    let Some((time, more)) = next_number(rest) else {
        return None;
    };
    let Some(order) = order(more) else {
        return None;
    };
    Some(Directive::At(time, order))
}

/// What a line of a word and one number says.
#[tactic(auto, using(crate::proofs::FieldLemmas::no_short_line))]
fn short_line(word: &[u8], n: u128) -> Option<Directive>
    ensures { MatchOption result ((d : Directive) → field_of word.now ∷ number n ∷ [] ≢ form d)
        (λ d. field_of word.now ∷ number n ∷ [] ≡ form d) }
{
    if word == b"word".as_slice() {
        return Some(Directive::Word(n));
    }
    if word == b"seed".as_slice() {
        return Some(Directive::Seed(n));
    }
    if word == b"processes".as_slice() {
        return Some(Directive::Processes(n));
    }
    if word == b"events".as_slice() {
        return Some(Directive::Events(n));
    }
    if word == b"turns".as_slice() {
        return Some(Directive::Turns(n));
    }
    if word == b"loss".as_slice() {
        return Some(Directive::Loss(n));
    }
    None
}

/// What a line of a word and two numbers says.
#[tactic(auto, using(crate::proofs::FieldLemmas::no_long_line))]
fn long_line(word: &[u8], lo: u128, hi: u128) -> Option<Directive>
    ensures { MatchOption result ((d : Directive)
        → field_of word.now ∷ number lo ∷ number hi ∷ [] ≢ form d)
        (λ d. field_of word.now ∷ number lo ∷ number hi ∷ [] ≡ form d) }
{
    if word == b"latency".as_slice() {
        return Some(Directive::Latency(lo, hi));
    }
    if word == b"diskdelay".as_slice() {
        return Some(Directive::DiskDelay(lo, hi));
    }
    None
}

/// What a line says, if it has one of the forms.
#[tactic(auto, using(crate::proofs::FieldLemmas::no_line_empty, crate::proofs::FieldLemmas::no_at_line, crate::proofs::FieldLemmas::no_line))]
pub fn directive(line: &[u8]) -> Option<Directive>
    ensures { MatchOption result ((d : Directive) → HasForm line.now d → ⊥) (HasForm line.now) }
{
    let Some((word, rest)) = first_piece(line) else {
        return None;
    };
    if word == b"at".as_slice() {
        return at_line(rest);
    }
    if let Some(n) = one_number(rest) {
        return short_line(word, n);
    }
    if let Some((lo, hi)) = two_numbers(rest) {
        return long_line(word, lo, hi);
    }
    None
}
