// Which rule an expression breaks, and its type by its form.

ghost use Rattle.std.specs.Prelude.{◌≡◌, false, map, if◌then◌else◌};
ghost use Rattle.std.specs.Option.{option_map};
ghost use Rattle.flow_tree.specs.Tree.{indexed};
ghost use Rattle.flow_tree.specs.View.{type_of, result_of, expr_of, exprs_of};
ghost use Rattle.flow_tree.specs.DeclView.{params_of};
ghost use Rattle.flow_ast.specs.Typing.{is_there, with_type};
ghost use Rattle.flow_ast.specs.TypingNames.{named};
ghost use Rattle.flow_rules.specs.declared.rule.SemanticRule.TheVariants.{UnknownName};
ghost use Rattle.flow_rules.specs.Least.{lesser, unless};
ghost use Rattle.flow_rules.specs.Known.{field_row};
ghost use Rattle.flow_rules.specs.Judged.{Traced, wants, fits, operands, sum_form, sign_form, needs_of, gives_of, not_here, placed, said, calls, calls_on, called, called_on, variable_form, field_form, field_of, of_field, form, fault, faults, wanted, returned, is_void};
ghost use Rattle.flow_rules.specs.Items.{path_form, path_fault, target_form, target_fault, base_form, base_fault, call_by_name, call_on, call_fault, written};
ghost use Rattle.flow_types.specs.View.{found_of, need_of, needs_view, kind_of, callee_of};
ghost use Rattle.flow_types.specs.MapView.{known_by, vars_of};
ghost use Rattle.flow_types.specs.SettingView.{setting_view};

use crate::callee::{
    Callee, Kind, Meaning, Need, Needs, called_on, declared_callee, indexed_on, predefined_callee,
};
use crate::top_names::TopNames;
use crate::type_view::{TypeView, same_found, takes_both, takes_equality, takes_sign};
use flow_ast::predefined::{predefined_call, predefined_constant};
use flow_ast::typing::find_named;
use flow_base::name::Name;
use flow_rules::rule::{SemanticRule, lesser, unless};
use flow_tree::decl::Param;
use flow_tree::expr::{Expr, Op};
use flow_tree::ty::{Ident, Ty};
use indexmap::IndexMap;

/// The variables in force, the oldest first.
pub type Vars<'a> = IndexMap<&'a [u8], TypeView<'a>>;

/// Where an expression stands: the names at the top, the variables in force, and whether it stands in
/// a function.
#[derive(Drop)]
pub struct Setting<'n, 'a> {
    pub names: &'n TopNames<'a>,
    pub vars: Vars<'a>,
    pub plain: bool,
}

/// The type of an expression by its form, where it has one, and the least rule that fails in it.
#[derive(Clone, Copy)]
pub struct Judged<'a> {
    pub form: Option<TypeView<'a>>,
    pub fault: Option<SemanticRule>,
}

fn sound<'a>(form: TypeView<'a>) -> Judged<'a>
    ensures form { option_map found_of result.form ≡ Some (found_of form.entry) }
    ensures fault { result.fault ≡ None }
{
    Judged {
        form: Some(form),
        fault: None,
    }
}

// An expression that has to be known.
fn known<'a>(form: Option<TypeView<'a>>) -> Judged<'a>
    ensures form { option_map found_of result.form ≡ option_map found_of form.entry }
    ensures fault { result.fault ≡ unless (is_there (option_map found_of form.entry)) UnknownName }
{
    Judged {
        form,
        fault: unless(form.is_some(), SemanticRule::UnknownName),
    }
}

/// This type is wanted, where there is one.
pub fn wants(form: Option<TypeView<'_>>, wanted: TypeView<'_>) -> Option<SemanticRule>
    ensures { result ≡ wants (option_map found_of form.entry) (found_of wanted.entry) }
{
    match form {
        Some(form) => unless(same_found(form, wanted), SemanticRule::WrongType),
        None => None,
    }
}

// A type that `trace` takes is wanted, where there is one.
fn traced(form: Option<TypeView<'_>>) -> Option<SemanticRule>
    ensures { result ≡ fits (option_map found_of form.entry) (Some Traced) }
{
    match form {
        Some(form) => unless(takes_equality(form), SemanticRule::WrongType),
        None => None,
    }
}

// An argument fits what stands at its place, if something does.
fn fits(form: Option<TypeView<'_>>, need: Option<Need<'_>>) -> Option<SemanticRule>
    ensures { result ≡ fits (option_map found_of form.entry) (option_map need_of need.entry) }
{
    match need {
        Some(Need::Exactly(wanted)) => wants(form, wanted),
        Some(Need::Traced) => traced(form),
        None => None,
    }
}

/// What a sign asks of its operands, as far as they have types.
pub fn operands(
    op: Op,
    left: Option<TypeView<'_>>,
    right: Option<TypeView<'_>>,
) -> Option<SemanticRule>
    ensures { result ≡ operands op (option_map found_of left.entry)
        (option_map found_of right.entry) }
{
    match left {
        Some(left) => match right {
            Some(right) => unless(takes_both(op, left, right), SemanticRule::WrongType),
            None => unless(takes_sign(op, left), SemanticRule::WrongType),
        },
        None => match right {
            Some(right) => unless(takes_sign(op, right), SemanticRule::WrongType),
            None => None,
        },
    }
}

fn only_if<'a>(holds: bool, found: TypeView<'a>) -> Option<TypeView<'a>>
    ensures { option_map found_of result ≡ (if holds then Some (found_of found.entry) else None) }
{
    if holds { Some(found) } else { None }
}

// A sum has the type of its operands, of one of them where the other has none.
fn sum_form<'a>(left: Option<TypeView<'a>>, right: Option<TypeView<'a>>) -> Option<TypeView<'a>>
    ensures { option_map found_of result
        ≡ sum_form (option_map found_of left.entry) (option_map found_of right.entry) }
{
    match left {
        Some(left) => match right {
            Some(right) => only_if(takes_both(Op::Add, left, right), left),
            None => only_if(takes_sign(Op::Add, left), left),
        },
        None => match right {
            Some(right) => only_if(takes_sign(Op::Add, right), right),
            None => None,
        },
    }
}

fn sign_form<'a>(
    op: Op,
    left: Option<TypeView<'a>>,
    right: Option<TypeView<'a>>,
) -> Option<TypeView<'a>>
    ensures { option_map found_of result
        ≡ sign_form op (option_map found_of left.entry) (option_map found_of right.entry) }
{
    match op {
        Op::Add => sum_form(left, right),
        Op::Sub | Op::Mul | Op::Div | Op::Rem => Some(TypeView::Int),
        Op::Or | Op::And | Op::Eq | Op::Ne | Op::Lt | Op::Le | Op::Gt | Op::Ge => {
            Some(TypeView::Bool)
        }
    }
}

fn needs_of<'a>(callee: Option<Callee<'a>>) -> Needs<'a>
    ensures { needs_view result ≡ needs_of (option_map callee_of callee.entry) }
{
    match callee {
        Some(callee) => callee.needs,
        None => Needs::Fixed(&[]),
    }
}

fn gives_of<'a>(callee: Option<Callee<'a>>) -> Option<TypeView<'a>>
    ensures { option_map found_of result ≡ gives_of (option_map callee_of callee.entry) }
{
    match callee {
        Some(callee) => callee.gives,
        None => None,
    }
}

// A sign between two operands.
fn sign_judged<'a>(op: Op, left: Judged<'a>, right: Judged<'a>) -> Judged<'a>
    ensures form { option_map found_of result.form
        ≡ sign_form op (option_map found_of left.entry.form)
        (option_map found_of right.entry.form) }
    ensures fault { result.fault ≡ lesser (lesser left.entry.fault right.entry.fault)
        (operands op (option_map found_of left.entry.form) (option_map found_of right.entry.form)) }
{
    Judged {
        form: sign_form(op, left.form, right.form),
        fault: lesser(
            lesser(left.fault, right.fault),
            operands(op, left.form, right.form),
        ),
    }
}

// The type of the variable with this name, where one is in force.
#[tactic(auto, using(crate::proofs::Lookups::named_lookup))]
fn find_var<'a>(vars: &Vars<'a>, name: &[u8]) -> Option<TypeView<'a>>
    ensures { option_map found_of result ≡ named (vars_of vars.now) name.now }
{
    vars.get(name).copied()
}

// The type of the first field with this name.
#[tactic(auto, using(crate::proofs::Lookups::field_find))]
fn field_named<'a>(fields: &'a [Param], name: &[u8]) -> Option<TypeView<'a>>
    ensures { option_map found_of result ≡ named (map field_row (params_of fields.now)) name.now }
{
    match find_named(fields, name) {
        Some(field) => Some(TypeView::of(&field.ty)),
        None => None,
    }
}

impl<'n, 'a> Setting<'n, 'a> {
    /// What isn't in force in a function.
    pub fn not_here(&self) -> Option<SemanticRule>
        ensures { result ≡ not_here (setting_view self.now) }
    {
        unless(!self.plain, SemanticRule::NotInFunction)
    }

    /// Whether a variable of this name is in force.
    pub fn has_var(&self, name: &[u8]) -> bool
        ensures { result ≡ is_there (named (setting_view self.now).vars name.now) }
    {
        match find_var(&self.vars, name) {
            Some(_) => true,
            None => false,
        }
    }

    /// Whether a name at the top is known.
    pub fn has_name(&self, name: &[u8]) -> bool
        ensures { result ≡ is_there ((setting_view self.now).known name.now) }
    {
        match self.names.find(name) {
            Some(_) => true,
            None => false,
        }
    }

    // What is called may stand in an expression, an effect only as a whole one.
    fn placed(&self, whole: bool, kind: Kind) -> Option<SemanticRule>
        ensures { result ≡ placed (setting_view self.now) whole (kind_of kind) }
    {
        match kind {
            Kind::Value | Kind::Function => None,
            Kind::Clock => self.not_here(),
            Kind::Effect => lesser(unless(whole, SemanticRule::EffectInside), self.not_here()),
            Kind::Statement => lesser(self.not_here(), Some(SemanticRule::WrongType)),
        }
    }

    // What is called may stand as a statement.
    fn said(&self, kind: Kind) -> Option<SemanticRule>
        ensures { result ≡ said (setting_view self.now) (kind_of kind) }
    {
        match kind {
            Kind::Value => Some(SemanticRule::LostValue),
            Kind::Function => None,
            Kind::Clock | Kind::Effect => lesser(self.not_here(), Some(SemanticRule::LostValue)),
            Kind::Statement => self.not_here(),
        }
    }

    // Something is called in an expression, with as many arguments as it needs.
    fn placed_call(
        &self,
        whole: bool,
        args: &[Expr],
        callee: Option<Callee<'a>>,
    ) -> Option<SemanticRule>
        ensures { result ≡ calls (exprs_of args.now) (option_map callee_of callee.entry)
            (placed (setting_view self.now) whole) }
    {
        match callee {
            Some(callee) => lesser(
                unless(callee.needs.are_as_many(args), SemanticRule::WrongCount),
                self.placed(whole, callee.kind),
            ),
            None => Some(SemanticRule::UnknownName),
        }
    }

    // Something is called as a statement, with as many arguments as it needs.
    fn said_call(&self, args: &[Expr], callee: Option<Callee<'a>>) -> Option<SemanticRule>
        ensures { result ≡ calls (exprs_of args.now) (option_map callee_of callee.entry)
            (said (setting_view self.now)) }
    {
        match callee {
            Some(callee) => lesser(
                unless(callee.needs.are_as_many(args), SemanticRule::WrongCount),
                self.said(callee.kind),
            ),
            None => Some(SemanticRule::UnknownName),
        }
    }

    /// What a name without a base calls.
    pub fn called(&self, name: &'a Name) -> Option<Callee<'a>>
        ensures { option_map callee_of result ≡ called (setting_view self.now) name.now }
    {
        match predefined_call(name.bytes()) {
            Some(call) => Some(predefined_callee(call)),
            None => match self.names.find(name.bytes()) {
                Some(meaning) => Some(declared_callee(name, meaning)),
                None => None,
            },
        }
    }

    // The type of a variable in force, where one has this name.
    fn var_form(&self, name: &Name) -> Option<TypeView<'a>>
        ensures { option_map found_of result ≡ named (setting_view self.now).vars name.now }
    {
        find_var(&self.vars, name.bytes())
    }

    // The type of a constant or a variable.
    fn variable_form(&self, name: &Name) -> Option<TypeView<'a>>
        ensures { option_map found_of result ≡ variable_form (setting_view self.now) name.now }
    {
        match predefined_constant(name.bytes()) {
            Some(_) => Some(TypeView::Int),
            None => self.var_form(name),
        }
    }

    // The type of a field of what has this type.
    fn field_form(&self, base: TypeView<'a>, name: &Name) -> Option<TypeView<'a>>
        ensures { option_map found_of result
            ≡ field_form (setting_view self.now) (found_of base.entry) name.now }
    {
        match base {
            TypeView::Named(record) => self.record_field(record, name),
            _ => None,
        }
    }

    fn record_field(&self, owner: &[u8], name: &Name) -> Option<TypeView<'a>>
        ensures { option_map found_of result
            ≡ field_of (known_by self.now.names.now owner.now) name.now }
    {
        match self.names.find(owner) {
            Some(Meaning::Record(fields)) => field_named(fields, name.bytes()),
            _ => None,
        }
    }

    // A field behind a base.
    fn field(&self, base: Judged<'a>, name: &Name) -> Judged<'a>
        ensures form { option_map found_of result.form
            ≡ with_type (option_map found_of base.entry.form)
            (λ t. field_form (setting_view self.now) t name.now) }
        ensures fault { result.fault ≡ lesser base.entry.fault
            (of_field (setting_view self.now) (option_map found_of base.entry.form) name.now) }
    {
        match base.form {
            Some(found) => {
                let field = known(self.field_form(found, name));
                Judged {
                    form: field.form,
                    fault: lesser(base.fault, field.fault),
                }
            }
            None => base,
        }
    }

    // Fields behind a base, one after another.
    #[tactic(auto, using(crate::proofs::Calls::both_step, crate::proofs::Steps::path_end, crate::proofs::Steps::fault_end))]
    fn fields(&self, base: Judged<'a>, names: &[Ident]) -> Judged<'a>
        ensures form { option_map found_of result.form
            ≡ path_form (setting_view self.now) (option_map found_of base.entry.form) names.now }
        ensures fault { result.fault ≡ lesser base.entry.fault
            (path_fault (setting_view self.now) (option_map found_of base.entry.form) names.now) }
    {
        let mut judged = base;
        for name in names {
            judged = self.field(judged, &name.name);
        }
        judged
    }

    /// The target of an assignment: a variable in force, or a field in one.
    pub fn target(&self, path: &[Ident]) -> Judged<'a>
        ensures form { option_map found_of result.form
            ≡ target_form (setting_view self.now) path.now }
        ensures fault { result.fault ≡ target_fault (setting_view self.now) path.now }
    {
        match path {
            [] => Judged {
                form: None,
                fault: None,
            },
            [first, rest @ ..] => self.fields(known(self.var_form(&first.name)), rest),
        }
    }

    // What a method is called on in a statement: a variable, a constant, or a field in one.
    fn base(&self, path: &[Ident]) -> Judged<'a>
        ensures form { option_map found_of result.form
            ≡ base_form (setting_view self.now) path.now }
        ensures fault { result.fault ≡ base_fault (setting_view self.now) path.now }
    {
        match path {
            [] => Judged {
                form: None,
                fault: None,
            },
            [first, rest @ ..] => self.fields(known(self.variable_form(&first.name)), rest),
        }
    }

    // A call with its arguments judged.
    fn call_judged(
        &self,
        whole: bool,
        args: &[Expr],
        callee: Option<Callee<'a>>,
        judged: Option<SemanticRule>,
    ) -> Judged<'a>
        ensures form { option_map found_of result.form
            ≡ gives_of (option_map callee_of callee.entry) }
        ensures fault { result.fault ≡ lesser judged
            (calls (exprs_of args.now) (option_map callee_of callee.entry)
            (placed (setting_view self.now) whole)) }
    {
        Judged {
            form: gives_of(callee),
            fault: lesser(judged, self.placed_call(whole, args, callee)),
        }
    }

    // A call of a method on an expression.
    fn method(
        &self,
        base: Judged<'a>,
        callee: Option<Callee<'a>>,
        args: &[Expr],
    ) -> Option<SemanticRule>
        ensures { result ≡ calls_on (option_map found_of base.entry.form) (exprs_of args.now)
            (option_map callee_of callee.entry) (placed (setting_view self.now) false) }
    {
        match base.form {
            Some(_) => self.placed_call(false, args, callee),
            None => None,
        }
    }

    // A call of a method with its base and its arguments judged.
    fn method_judged(
        &self,
        base: Judged<'a>,
        args: &[Expr],
        callee: Option<Callee<'a>>,
        judged: Option<SemanticRule>,
    ) -> Judged<'a>
        ensures form { option_map found_of result.form
            ≡ gives_of (option_map callee_of callee.entry) }
        ensures fault { result.fault ≡ lesser base.entry.fault
            (lesser judged (calls_on (option_map found_of base.entry.form) (exprs_of args.now)
            (option_map callee_of callee.entry) (placed (setting_view self.now) false))) }
    {
        let called = self.method(base, callee, args);
        Judged {
            form: gives_of(callee),
            fault: lesser(base.fault, lesser(judged, called)),
        }
    }

    /// An expression; an effect may stand where it is whole.
    #[cycle(judge)]
    pub fn judge(&self, whole: bool, expr: &'a Expr) -> Judged<'a>
        ensures form { option_map found_of result.form
            ≡ form (setting_view self.now) (expr_of expr.now) }
        ensures fault { result.fault ≡ fault (setting_view self.now) whole (expr_of expr.now) }
    {
        match expr {
            Expr::Int(_) => sound(TypeView::Int),
            Expr::Text(_) => sound(TypeView::Str),
            Expr::Bool(_) => sound(TypeView::Bool),
            Expr::VoidValue => sound(TypeView::Void),
            Expr::Var(name) => known(self.variable_form(&name.name)),
            Expr::Call(name, args) => {
                let callee = self.called(&name.name);
                let judged = self.judge_args(needs_of(callee), args);
                self.call_judged(whole, args, callee, judged)
            }
            Expr::Field(of, name) => self.field(self.judge(false, of), &name.name),
            Expr::Method(of, name, args) => self.judge_method(of, name, args),
            Expr::Index(of, index) => self.judge_index(of, index),
            Expr::Not(of) => {
                let of = self.judge(false, of);
                Judged {
                    form: Some(TypeView::Bool),
                    fault: lesser(of.fault, wants(of.form, TypeView::Bool)),
                }
            }
            Expr::Neg(of) => {
                let of = self.judge(false, of);
                Judged {
                    form: Some(TypeView::Int),
                    fault: lesser(of.fault, wants(of.form, TypeView::Int)),
                }
            }
            Expr::Binary(op, left, right) => {
                let left = self.judge(false, left);
                let right = self.judge(false, right);
                sign_judged(*op, left, right)
            }
            Expr::Paren(of) => self.judge(false, of),
        }
    }

    // A call of a method on a base.
    #[cycle(judge)]
    fn judge_method(&self, of: &'a Expr, name: &'a Ident, args: &'a [Expr]) -> Judged<'a>
        ensures form { option_map found_of result.form
            ≡ gives_of (called_on (form (setting_view self.now) (expr_of of.now)) name.now.name) }
        ensures fault { result.fault ≡ lesser (fault (setting_view self.now) false (expr_of of.now))
            (lesser (faults (setting_view self.now) 0
            (needs_of (called_on (form (setting_view self.now) (expr_of of.now)) name.now.name))
            (exprs_of args.now)) (calls_on (form (setting_view self.now) (expr_of of.now))
            (exprs_of args.now) (called_on (form (setting_view self.now) (expr_of of.now))
            name.now.name) (placed (setting_view self.now) false))) }
    {
        let base = self.judge(false, of);
        let callee = called_on(base.form, name.name.bytes());
        let judged = self.judge_args(needs_of(callee), args);
        self.method_judged(base, args, callee, judged)
    }

    // An index behind a base.
    #[cycle(judge)]
    fn judge_index(&self, of: &'a Expr, index: &'a Expr) -> Judged<'a>
        ensures form { option_map found_of result.form
            ≡ form (setting_view self.now) (indexed (expr_of of.now) (expr_of index.now)) }
        ensures fault { result.fault ≡ fault (setting_view self.now) false
            (indexed (expr_of of.now) (expr_of index.now)) }
    {
        let base = self.judge(false, of);
        let callee = indexed_on(base.form);
        let args = std::slice::from_ref(index);
        let judged = self.judge_args(needs_of(callee), args);
        self.method_judged(base, args, callee, judged)
    }

    // Arguments, each judged, and compared as far as something is needed.
    #[cycle(judge)]
    fn judge_args(&self, needs: Needs<'a>, args: &'a [Expr]) -> Option<SemanticRule>
        ensures { result ≡ faults (setting_view self.now) 0 (needs_view needs.entry)
            (exprs_of args.now) }
    {
        let mut fault = None;
        for (number, arg) in args.iter().enumerate() {
            let judged = self.judge(false, arg);
            fault = lesser(
                fault,
                lesser(judged.fault, fits(judged.form, needs.at(number))),
            );
        }
        fault
    }

    /// What a `return` gives fits the result, and a void actor gives nothing.
    pub fn returned(&self, given: &'a Option<Expr>, ty: TypeView<'a>) -> Option<SemanticRule>
        ensures { result ≡ returned (setting_view self.now) (option_map expr_of given.now)
            (found_of ty.entry) }
    {
        match given {
            Some(expr) => self.wanted(false, expr, ty),
            None => unless(self.is_void(ty), SemanticRule::WrongType),
        }
    }

    /// Whether this is the result of a void actor.
    pub fn is_void(&self, ty: TypeView<'_>) -> bool
        ensures { result ≡ is_void (setting_view self.now) (found_of ty.entry) }
    {
        !self.plain && matches!(ty, TypeView::Nothing)
    }

    /// An expression of which this type is wanted.
    pub fn wanted(&self, whole: bool, expr: &'a Expr, ty: TypeView<'a>) -> Option<SemanticRule>
        ensures { result ≡ wanted (setting_view self.now) whole (expr_of expr.now)
            (found_of ty.entry) }
    {
        let judged = self.judge(whole, expr);
        lesser(judged.fault, wants(judged.form, ty))
    }

    // A call by a name as a statement.
    fn named_call(&self, name: &'a Name, args: &'a [Expr]) -> Option<SemanticRule>
        ensures { result ≡ call_by_name (setting_view self.now) name.now (exprs_of args.now) }
    {
        let callee = self.called(name);
        lesser(
            self.judge_args(needs_of(callee), args),
            self.said_call(args, callee),
        )
    }

    // A call of a method as a statement.
    fn method_call(&self, path: &[Ident], name: &Name, args: &'a [Expr]) -> Option<SemanticRule>
        ensures { result ≡ call_on (setting_view self.now) path.now name.now (exprs_of args.now) }
    {
        let base = self.base(path);
        let callee = called_on(base.form, name.bytes());
        lesser(
            base.fault,
            lesser(
                self.judge_args(needs_of(callee), args),
                self.said_call(args, callee),
            ),
        )
    }

    /// A call as a statement.
    pub fn call(&self, path: &'a [Ident], args: &'a [Expr]) -> Option<SemanticRule>
        ensures { result ≡ call_fault (setting_view self.now) path.now (exprs_of args.now) }
    {
        match path {
            [] => None,
            [name] => self.named_call(&name.name, args),
            [base @ .., name] => self.method_call(base, &name.name, args),
        }
    }

    /// A written type: its records are known, and in a function it holds no reference.
    pub fn written(&self, ty: &Ty) -> Option<SemanticRule>
        ensures { result ≡ written (setting_view self.now) (type_of ty.now) }
    {
        lesser(
            unless(self.names.type_known(ty), SemanticRule::UnknownName),
            unless(
                !(self.plain && self.names.holds(ty)),
                SemanticRule::NotInFunction,
            ),
        )
    }
}
