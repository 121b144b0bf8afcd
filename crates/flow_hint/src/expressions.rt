// What is said of an expression that breaks a rule on its meaning.

use crate::explain::Explainer;
use crate::hint::{Hint, words};
use crate::spans::{args_tokens, expr_tokens, target_tokens};
use crate::spelled::put_found;
use flow_base::memory::NoMemory;
use flow_tree::expr::{Expr, Op};
use flow_tree::stmt::Target;
use flow_tree::token::Sign;
use flow_tree::ty::Ident;
use flow_types::callee::{Callee, Need, called_on, indexed_on};
use flow_types::type_view::{ElementView, TypeView, same_found, takes_both, takes_equality};
use itoa::Buffer;

/// What an expression has to be where it stands: an effect may stand there where it is whole; its type; and the name of the
/// variable that takes it.
#[derive(Clone, Copy)]
pub struct Wanted<'a> {
    pub whole: bool,
    pub ty: Option<TypeView<'a>>,
    pub name: &'a [u8],
}

impl<'a> Wanted<'a> {
    /// A part of a statement, of this type.
    pub fn part(ty: TypeView<'a>) -> Wanted<'a> {
        Wanted {
            whole: false,
            ty: Some(ty),
            name: b"x",
        }
    }

    /// Anything.
    fn any() -> Wanted<'static> {
        Wanted {
            whole: false,
            ty: None,
            name: b"x",
        }
    }
}

/// A call: its name, what that calls, how many arguments it is given, and where it begins and how long it is, in tokens.
#[derive(Clone, Copy)]
struct Called<'a> {
    name: &'a Ident,
    callee: Option<Callee<'a>>,
    given: usize,
    token: usize,
    count: usize,
}

/// What an operator takes.
fn taken_by(op: Op) -> &'static [u8] {
    match op {
        Op::Or | Op::And => b"two of `bool`",
        Op::Eq | Op::Ne => b"two of `int`, of `bool` or of `string`",
        Op::Lt | Op::Le | Op::Gt | Op::Ge | Op::Add => b"two of `int` or of `string`",
        Op::Sub | Op::Mul | Op::Div | Op::Rem => b"two of `int`",
    }
}

fn is_future(ty: TypeView<'_>) -> bool {
    matches!(ty, TypeView::Future(_) | TypeView::FutureStream(_))
}

impl<'s, 'n, 'a> Explainer<'s, 'n, 'a> {
    // An expression as it is written, in backquotes, or a pronoun.
    fn quoted(self, expr: &Expr, token: usize) -> Result<Vec<u8>, NoMemory> {
        match self.source.short(token, expr_tokens(expr)) {
            Some(text) => words(self.alloc, &[b"`", text, b"`"]),
            None => words(self.alloc, &[b"this"]),
        }
    }

    /// Says why an expression breaks the rule where it stands.
    pub fn wanted(
        self,
        expr: &'a Expr,
        token: usize,
        wanted: Wanted<'a>,
        hint: &mut Hint,
    ) -> Result<(), NoMemory> {
        let judged = self.seeker.setting.judge(wanted.whole, expr);
        if self.is_rule(judged.fault) {
            return self.inside(wanted.whole, expr, token, hint);
        }
        if self.rule != 3 {
            return Ok(());
        }
        let (Some(found), Some(ty)) = (judged.form, wanted.ty) else {
            return Ok(());
        };
        if same_found(found, ty) {
            return Ok(());
        }
        self.mismatch(expr, token, found, ty, hint)?;
        self.mend(expr, token, found, wanted, hint)
    }

    // Says which type an expression has, and which it should have.
    fn mismatch(
        self,
        expr: &Expr,
        token: usize,
        found: TypeView<'a>,
        wanted: TypeView<'a>,
        hint: &mut Hint,
    ) -> Result<(), NoMemory> {
        let text = self.quoted(expr, token)?;
        let is = self.spelled(found)?;
        let needed = self.needed(wanted)?;
        self.say(
            hint,
            self.source.place(token),
            &[&text, b" is `", &is, b"`, and ", &needed, b" is needed"],
        )
    }

    // A type that is needed, in backquotes; a void actor gives nothing.
    fn needed(self, ty: TypeView<'_>) -> Result<Vec<u8>, NoMemory> {
        if let TypeView::Nothing = ty {
            return words(self.alloc, &[b"nothing"]);
        }
        let spelled = self.spelled(ty)?;
        words(self.alloc, &[b"`", &spelled, b"`"])
    }

    // Advises how a value of one type becomes one of another.
    fn mend(
        self,
        expr: &Expr,
        token: usize,
        found: TypeView<'a>,
        wanted: Wanted<'a>,
        hint: &mut Hint,
    ) -> Result<(), NoMemory> {
        let (Some(text), Some(ty)) = (self.short_text(token, expr_tokens(expr))?, wanted.ty) else {
            return Ok(());
        };
        match (found, ty) {
            (_, TypeView::Nothing) => self.advise(hint, &[b"`return;`"]),
            (TypeView::Future(of), TypeView::Future(_)) => {
                self.mend_wait(b"wait", of, wanted.name, &text, hint)
            }
            (TypeView::FutureStream(of), TypeView::Future(_)) => {
                self.mend_wait(b"waitNext", of, wanted.name, &text, hint)
            }
            (TypeView::FutureStream(of), TypeView::FutureStream(_)) => {
                self.mend_wait(b"waitNext", of, wanted.name, &text, hint)
            }
            (TypeView::Future(of), TypeView::FutureStream(_)) => {
                self.mend_wait(b"wait", of, wanted.name, &text, hint)
            }
            (TypeView::Future(of), _) => {
                if same_found(of.opened(), ty) {
                    return self.mend_wait(b"wait", of, wanted.name, &text, hint);
                }
                Ok(())
            }
            (TypeView::FutureStream(of), _) => {
                self.mend_wait(b"waitNext", of, wanted.name, &text, hint)
            }
            (TypeView::Promise(_), TypeView::Future(_)) => {
                self.advise(hint, &[b"`", &text, b".getFuture()`"])
            }
            (TypeView::PromiseStream(_), TypeView::FutureStream(_)) => {
                self.advise(hint, &[b"`", &text, b".getFuture()`"])
            }
            (TypeView::Int, TypeView::Bool) => self.advise(hint, &[b"`", &text, b" != 0`"]),
            (TypeView::Int, TypeView::Str) => self.advise(hint, &[b"`to_string(", &text, b")`"]),
            (TypeView::Str, TypeView::Int) => self.advise(hint, &[b"`to_int(", &text, b")`"]),
            (TypeView::Int, TypeView::Error) => self.advise(hint, &[b"`error(", &text, b")`"]),
            (_, TypeView::Void) => self.advise(hint, &[b"`Void()`"]),
            _ => Ok(()),
        }
    }

    // Advises to take a value by a wait.
    fn mend_wait<'x>(
        self,
        wait: &'x [u8],
        of: ElementView<'a>,
        name: &'x [u8],
        text: &'x [u8],
        hint: &mut Hint,
    ) -> Result<(), NoMemory> {
        if let TypeView::Void = of.opened() {
            return self.advise(hint, &[b"`", wait, b"(", text, b");`"]);
        }
        let ty = self.spelled(of.opened())?;
        self.advise(
            hint,
            &[b"`", &ty, b" ", name, b" = ", wait, b"(", text, b");`"],
        )
    }

    // Says which part of an expression breaks the rule.
    #[cycle(inside)]
    fn inside(
        self,
        whole: bool,
        expr: &'a Expr,
        token: usize,
        hint: &mut Hint,
    ) -> Result<(), NoMemory> {
        match expr {
            Expr::Int(_) | Expr::Text(_) | Expr::Bool(_) | Expr::VoidValue => Ok(()),
            Expr::Var(name) => self.unknown(name, b"nothing is named", hint),
            Expr::Call(name, args) => {
                let callee = self.seeker.setting.called(&name.name);
                if self.args(callee, args, token.saturating_add(2), hint)? {
                    return Ok(());
                }
                let called = Called {
                    name,
                    callee,
                    given: args.len(),
                    token,
                    count: expr_tokens(expr),
                };
                self.called(whole, called, hint)
            }
            Expr::Field(of, name) => {
                if self.part(of, token, hint)? {
                    return Ok(());
                }
                let base = self.seeker.setting.judge(false, of);
                self.missing(base.form, b"field", name, hint)
            }
            Expr::Method(of, name, args) => {
                if self.part(of, token, hint)? {
                    return Ok(());
                }
                let method = self.method(of, name, args, token);
                let begin = token.saturating_add(expr_tokens(of)).saturating_add(3);
                if self.args(method.callee, args, begin, hint)? {
                    return Ok(());
                }
                self.method_called(of, method, hint)
            }
            Expr::Index(of, index) => {
                let behind = token.saturating_add(expr_tokens(of)).saturating_add(1);
                if self.part(of, token, hint)? || self.part(index, behind, hint)? {
                    return Ok(());
                }
                self.indexed(of, index, token, hint)
            }
            Expr::Not(of) => {
                if self.part(of, token.saturating_add(1), hint)? {
                    return Ok(());
                }
                self.operand(of, token, TypeView::Bool, hint)
            }
            Expr::Neg(of) => {
                if self.part(of, token.saturating_add(1), hint)? {
                    return Ok(());
                }
                self.operand(of, token, TypeView::Int, hint)
            }
            Expr::Binary(op, left, right) => {
                let behind = token.saturating_add(expr_tokens(left)).saturating_add(1);
                if self.part(left, token, hint)? || self.part(right, behind, hint)? {
                    return Ok(());
                }
                self.binary(*op, left, right, token, hint)
            }
            Expr::Paren(of) => self.inside(false, of, token.saturating_add(1), hint),
        }
    }

    // Says which part of an expression breaks the rule, where it breaks it; whether it does.
    #[cycle(inside)]
    fn part(self, expr: &'a Expr, token: usize, hint: &mut Hint) -> Result<bool, NoMemory> {
        let judged = self.seeker.setting.judge(false, expr);
        if !self.is_rule(judged.fault) {
            return Ok(false);
        }
        self.inside(false, expr, token, hint)?;
        Ok(true)
    }

    // The operand behind a sign.
    fn operand(
        self,
        of: &'a Expr,
        token: usize,
        ty: TypeView<'a>,
        hint: &mut Hint,
    ) -> Result<(), NoMemory> {
        let judged = self.seeker.setting.judge(false, of);
        match judged.form {
            Some(found) => self.mismatch(of, token.saturating_add(1), found, ty, hint),
            None => Ok(()),
        }
    }

    // Two operands with a sign between them.
    fn binary(
        self,
        op: Op,
        left: &'a Expr,
        right: &'a Expr,
        token: usize,
        hint: &mut Hint,
    ) -> Result<(), NoMemory> {
        let setting = &self.seeker.setting;
        let first = setting.judge(false, left);
        let second = setting.judge(false, right);
        let (Some(one), Some(other)) = (first.form, second.form) else {
            return Ok(());
        };
        if takes_both(op, one, other) {
            return Ok(());
        }
        self.operands(op, left, one, right, other, token, hint)
    }

    // Says which types two operands have, and what their sign takes.
    fn operands(
        self,
        op: Op,
        left: &Expr,
        one: TypeView<'a>,
        right: &Expr,
        other: TypeView<'a>,
        token: usize,
        hint: &mut Hint,
    ) -> Result<(), NoMemory> {
        let behind = token.saturating_add(expr_tokens(left)).saturating_add(1);
        let sign = self.written_text(behind.saturating_sub(1), 1)?;
        let first = self.quoted(left, token)?;
        let second = self.quoted(right, behind)?;
        let is = self.spelled(one)?;
        let and = self.spelled(other)?;
        self.say(
            hint,
            self.source.place(behind.saturating_sub(1)),
            &[
                &first,
                b" is `",
                &is,
                b"` and ",
                &second,
                b" is `",
                &and,
                b"`; `",
                &sign,
                b"` takes ",
                taken_by(op),
            ],
        )?;
        self.mend_operands(one, other, &first, &second, hint)
    }

    // Advises where two operands don't go together.
    fn mend_operands(
        self,
        one: TypeView<'a>,
        other: TypeView<'a>,
        first: &[u8],
        second: &[u8],
        hint: &mut Hint,
    ) -> Result<(), NoMemory> {
        if is_future(one) && is_future(other) {
            let begin =
                b"whichever comes first: `choose { when (wait(..)) { } when (wait(..)) { } }`";
            return self.advise(hint, &[begin]);
        }
        match (one, other) {
            (TypeView::Str, TypeView::Int) => {
                self.advise(hint, &[b"`to_string(..)` makes a text of ", second])
            }
            (TypeView::Int, TypeView::Str) => {
                self.advise(hint, &[b"`to_string(..)` makes a text of ", first])
            }
            (TypeView::Future(_), _) => {
                self.advise(
                    hint,
                    &[
                        b"wait first, and use the variable that takes the value of ",
                        first,
                    ],
                )
            }
            (_, TypeView::Future(_)) => {
                self.advise(
                    hint,
                    &[
                        b"wait first, and use the variable that takes the value of ",
                        second,
                    ],
                )
            }
            _ => Ok(()),
        }
    }

    // Says that a type has no such field or method.
    fn missing(
        self,
        form: Option<TypeView<'a>>,
        kind: &[u8],
        name: &Ident,
        hint: &mut Hint,
    ) -> Result<(), NoMemory> {
        let Some(form) = form else {
            return Ok(());
        };
        let ty = self.spelled(form)?;
        let bytes = name.name.bytes();
        self.say(
            hint,
            name.at,
            &[b"`", &ty, b"` has no ", kind, b" `", bytes, b"`"],
        )
    }

    // The call of a method, which begins with a token.
    fn method(self, of: &'a Expr, name: &'a Ident, args: &'a [Expr], token: usize) -> Called<'a> {
        let base = self.seeker.setting.judge(false, of);
        let begin = token.saturating_add(expr_tokens(of)).saturating_add(3);
        Called {
            name,
            callee: called_on(base.form, name.name.bytes()),
            given: args.len(),
            token,
            count: begin
                .saturating_add(args_tokens(args))
                .saturating_add(1)
                .saturating_sub(token),
        }
    }

    // Says why the call of a method breaks the rule itself.
    fn method_called(
        self,
        of: &'a Expr,
        method: Called<'a>,
        hint: &mut Hint,
    ) -> Result<(), NoMemory> {
        if method.callee.is_none() {
            let base = self.seeker.setting.judge(false, of);
            return self.missing(base.form, b"method", method.name, hint);
        }
        self.called(false, method, hint)
    }

    // Says why an index breaks the rule itself: it is no `int`, or stands behind what has no elements.
    fn indexed(
        self,
        of: &'a Expr,
        index: &'a Expr,
        token: usize,
        hint: &mut Hint,
    ) -> Result<(), NoMemory> {
        let setting = &self.seeker.setting;
        let base = setting.judge(false, of);
        let Some(form) = base.form else {
            return Ok(());
        };
        if let TypeView::Vector(_) = form {
            let behind = token.saturating_add(expr_tokens(of)).saturating_add(1);
            let judged = setting.judge(false, index);
            self.argument(indexed_on(base.form), 0, index, judged.form, behind, hint)?;
            return Ok(());
        }
        let text = self.quoted(of, token)?;
        let is = self.spelled(form)?;
        self.say(
            hint,
            self.source.place(token),
            &[&text, b" is `", &is, b"`; a `vector` alone has elements"],
        )
    }

    // Says which argument breaks the rule; whether one does.
    #[cycle(inside)]
    fn args(
        self,
        callee: Option<Callee<'a>>,
        args: &'a [Expr],
        begin: usize,
        hint: &mut Hint,
    ) -> Result<bool, NoMemory> {
        let mut token = begin;
        for (number, arg) in args.iter().enumerate() {
            if self.part(arg, token, hint)? {
                return Ok(true);
            }
            let judged = self.seeker.setting.judge(false, arg);
            if self.rule == 3 && self.argument(callee, number, arg, judged.form, token, hint)? {
                return Ok(true);
            }
            token = token.saturating_add(expr_tokens(arg)).saturating_add(1);
        }
        Ok(false)
    }

    // Says that an argument has another type than is needed; whether it has.
    fn argument(
        self,
        callee: Option<Callee<'a>>,
        number: usize,
        arg: &'a Expr,
        form: Option<TypeView<'a>>,
        token: usize,
        hint: &mut Hint,
    ) -> Result<bool, NoMemory> {
        let (Some(callee), Some(found)) = (callee, form) else {
            return Ok(false);
        };
        match callee.needs.at(number) {
            Some(Need::Exactly(ty)) => {
                if same_found(found, ty) {
                    return Ok(false);
                }
                self.mismatch(arg, token, found, ty, hint)?;
                self.mend(
                    arg,
                    token,
                    found,
                    Wanted {
                        ty: Some(ty),
                        ..Wanted::any()
                    },
                    hint,
                )?;
                Ok(true)
            }
            Some(Need::Traced) => {
                if takes_equality(found) {
                    return Ok(false);
                }
                self.untraced(arg, found, token, hint)?;
                Ok(true)
            }
            None => Ok(false),
        }
    }

    // Says that `trace` doesn't print a value of this type.
    fn untraced(
        self,
        arg: &Expr,
        found: TypeView<'a>,
        token: usize,
        hint: &mut Hint,
    ) -> Result<(), NoMemory> {
        let text = self.quoted(arg, token)?;
        let is = self.spelled(found)?;
        self.say(
            hint,
            self.source.place(token),
            &[
                &text,
                b" is `",
                &is,
                b"`; an `int`, a `bool` or a `string` is printed",
            ],
        )?;
        match found {
            TypeView::Named(_) => self.advise(hint, &[b"print its fields, one by one"]),
            TypeView::Vector(_) => self.advise(hint, &[b"print its elements, one by one"]),
            TypeView::Error => self.advise(hint, &[b"print its number: `trace(e.code());`"]),
            _ => Ok(()),
        }
    }

    // Says why what is called breaks the rule itself.
    fn called(self, whole: bool, call: Called<'a>, hint: &mut Hint) -> Result<(), NoMemory> {
        let name = call.name;
        let Some(callee) = call.callee else {
            return self.unknown(name, b"nothing is named", hint);
        };
        let bytes = name.name.bytes();
        match self.rule {
            3 => self.say(
                hint,
                name.at,
                &[b"`", bytes, b"` gives nothing: it is a statement"],
            ),
            4 => self.count(name, callee, call.given, hint),
            5 => {
                if whole {
                    return Ok(());
                }
                self.effect(callee, call.token, call.count, hint)
            }
            6 => {
                self.say(
                    hint,
                    name.at,
                    &[b"`", bytes, b"` may stand in an actor alone"],
                )?;
                self.advise_actor(hint)
            }
            _ => Ok(()),
        }
    }

    // Says how many arguments of which types are needed.
    fn count(
        self,
        name: &Ident,
        callee: Callee<'a>,
        given: usize,
        hint: &mut Hint,
    ) -> Result<(), NoMemory> {
        let mut out = words(self.alloc, &[b"`", name.name.bytes(), b"` takes "])?;
        let needed = callee.needs.count();
        if needed == 0 {
            out.extend_from_slice(b"no argument")?;
        }
        for number in 0..needed {
            if number > 0 {
                out.extend_from_slice(if number + 1 == needed {
                    b" and ".as_slice()
                } else {
                    b", ".as_slice()
                })?;
            }
            match callee.needs.at(number) {
                Some(Need::Exactly(ty)) => {
                    out.push(b'`')?;
                    put_found(&mut out, ty)?;
                    out.push(b'`')?;
                }
                _ => out.extend_from_slice(b"one value")?,
            }
        }
        out.extend_from_slice(b"; given: ")?;
        out.extend_from_slice(Buffer::new().format(given).as_bytes())?;
        hint.say(self.at, name.at, out)
    }

    // Names an effect that stands inside, and shows the two lines to write.
    fn effect(
        self,
        callee: Callee<'a>,
        token: usize,
        count: usize,
        hint: &mut Hint,
    ) -> Result<(), NoMemory> {
        let Some(text) = self.short_text(token, count)? else {
            return Ok(());
        };
        self.say(
            hint,
            self.source.place(token),
            &[b"`", &text, b"` is an effect"],
        )?;
        let (Some(gives), Some(name)) = (callee.gives, self.free_name()) else {
            return Ok(());
        };
        let ty = self.spelled(gives)?;
        let first = b"keep it in a variable first: `".as_slice();
        self.advise_kept(first, &ty, name, &text, hint)?;
        self.replaced(token, &text, name, hint)
    }

    // Shows the statement with a name in place of this text, which begins with a token; or says so where it has a body.
    fn replaced(
        self,
        token: usize,
        text: &[u8],
        name: &[u8],
        hint: &mut Hint,
    ) -> Result<(), NoMemory> {
        let begin = self.source.number(self.at);
        let end = self.source.semicolon(begin);
        if !self.source.is_sign(end, Sign::Semicolon) || self.source.has_body(begin, end) {
            return self.advise(hint, &[b"and `", name, b"` in its place"]);
        }
        let before = words(self.alloc, &[self.source.until(begin, token)])?;
        let after = words(self.alloc, &[self.source.behind(token, text.len(), end)])?;
        self.advise(hint, &[b"`", &before, name, &after, b"`"])
    }

    // Says of which type a call is.
    fn say_gives<'x>(
        self,
        token: usize,
        text: &'x [u8],
        ty: &'x [u8],
        hint: &mut Hint,
    ) -> Result<(), NoMemory> {
        let at = self.source.place(token);
        self.say(hint, at, &[b"`", text, b"` gives `", ty, b"`"])
    }

    // Advises, in words that begin so, to keep what a call gives in a variable of this name.
    fn advise_kept<'x>(
        self,
        begin: &'x [u8],
        ty: &'x [u8],
        name: &'x [u8],
        text: &'x [u8],
        hint: &mut Hint,
    ) -> Result<(), NoMemory> {
        self.advise(hint, &[begin, ty, b" ", name, b" = ", text, b";`"])
    }

    // A name that nothing has yet.
    fn free_name(self) -> Option<&'static [u8]> {
        for name in "a b c d e f g h first second".split_whitespace() {
            let setting = &self.seeker.setting;
            if !setting.has_var(name.as_bytes()) && !setting.has_name(name.as_bytes()) {
                return Some(name.as_bytes());
            }
        }
        None
    }

    /// Says why a call as a statement breaks the rule.
    pub fn call_statement(
        self,
        target: &'a Target,
        args: &'a [Expr],
        token: usize,
        hint: &mut Hint,
    ) -> Result<(), NoMemory> {
        let setting = &self.seeker.setting;
        let begin = token
            .saturating_add(target_tokens(target))
            .saturating_add(1);
        let (name, callee) = match target.path.as_slice() {
            [] => return Ok(()),
            [name] => (name, setting.called(&name.name)),
            [base @ .., name] => {
                let form = setting.target(base).form;
                if form.is_none() {
                    return self.path(target, base.len(), hint);
                }
                let callee = called_on(form, name.name.bytes());
                if callee.is_none() {
                    return self.missing(form, b"method", name, hint);
                }
                (name, callee)
            }
        };
        if self.args(callee, args, begin, hint)? {
            return Ok(());
        }
        if self.rule == 12 {
            return self.lost(callee, token, hint);
        }
        let called = Called {
            name,
            callee,
            given: args.len(),
            token,
            count: begin,
        };
        self.called(true, called, hint)
    }

    // Names what is lost, and shows both ways to mend it.
    fn lost(
        self,
        callee: Option<Callee<'a>>,
        token: usize,
        hint: &mut Hint,
    ) -> Result<(), NoMemory> {
        let end = self.source.semicolon(token);
        let count = end.saturating_sub(token);
        let (Some(callee), Some(text)) = (callee, self.short_text(token, count)?) else {
            return Ok(());
        };
        let Some(gives) = callee.gives else {
            return Ok(());
        };
        let ty = self.spelled(gives)?;
        self.say_gives(token, &text, &ty, hint)?;
        if let TypeView::Future(of) = gives {
            self.mend_wait(b"wait", of, b"x", &text, hint)?;
        }
        let Some(name) = self.free_name() else {
            return Ok(());
        };
        let begin = match gives {
            TypeView::Future(_) => b"or keep it: `state ".as_slice(),
            _ => b"keep it: `".as_slice(),
        };
        self.advise_kept(begin, &ty, name, &text, hint)
    }
}
