// The first refusal of a program.

ghost use Rattle.std.specs.Prelude.{◌≡◌, ◌∷◌, [], ◌++◌, ◌||◌, not, true, false, map, None, IfOk};
ghost use Rattle.std.specs.Option.{option_map};
ghost use Rattle.flow_tree.specs.Tree.{IntType, VoidType};
ghost use Rattle.flow_tree.specs.View.{type_of, result_of};
ghost use Rattle.flow_tree.specs.DeclView.{param_of, params_of, record_of, function_of, actor_of, decl_of, program_of};
ghost use Rattle.flow_ast.specs.Typing.{is_there, packet_fields, param_types, same_type};
ghost use Rattle.flow_ast.specs.TypingNames.{named};
ghost use Rattle.flow_rules.specs.declared.rule.SemanticRule.TheVariants.{TakenName, UnknownName};
ghost use Rattle.flow_rules.specs.Least.{lesser, unless};
ghost use Rattle.flow_rules.specs.Known.{field_row, row_of, type_known, is_predefined};
ghost use Rattle.flow_rules.specs.Items.{item, among, written};
ghost use Rattle.flow_rules.specs.Rules.{name_fault, fields_fault, record_fault, param_fault, params_fault, header_fault, routine_refusal, decl_refusal, decls_refusal, one_int, is_main, refusal_of};
ghost use Rattle.flow_types.specs.View.{found_of, meaning_of};
ghost use Rattle.flow_types.specs.MapView.{rows_of, vars_of};
ghost use Rattle.flow_types.specs.SettingView.{setting_view};
ghost use Rattle.flow_types.specs.WalkView.{texts_of, Says};
ghost use Rattle.flow_types.specs.ProgramView.{returned_type, routine_of, setting_by, taken_in, ParamsOnly, NewParam, ParamsIn};

use crate::callee::Meaning;
use crate::closing::ways_of;
use crate::judge::{Setting, Vars};
use crate::size::sizes;
use crate::top_names::{
    Meanings, TopNames, is_known, is_predefined, meaning_of, name_of, packet_fields, predefined,
    type_known,
};
use crate::type_view::TypeView;
use crate::walk::{Around, Walk, has_text, item};
use flow_base::memory::NoMemory;
use flow_base::name::Name;
use flow_base::place::Place;
use flow_rules::rule::{SemanticRule, lesser, unless};
use flow_tree::decl::{ActorDecl, Decl, FunctionDecl, Param, Program, RecordDecl};
use flow_tree::fault::SourceFault;
use flow_tree::stmt::Stmt;
use flow_tree::ty::{Ident, Ty};
use indexmap::{IndexMap, IndexSet};
use std::alloc::Global;

// A name at the top is not predefined, and not that of a declaration before it.
fn name_fault(before: &Meanings<'_>, name: &Name) -> Option<SemanticRule>
    ensures { result ≡ name_fault (named (rows_of before.now)) name.now }
{
    let taken = is_predefined(name.bytes()) || is_known(before, name.bytes());
    unless(!taken, SemanticRule::TakenName)
}

// The record of a field is declared before, and its name is that of no field before it.
fn field_fault(
    before: &Meanings<'_>,
    names: &IndexSet<&[u8]>,
    field: &Param,
) -> Option<SemanticRule>
    ensures { result ≡ lesser (unless (type_known (named (rows_of before.now))
        (type_of field.now.ty)) UnknownName)
        (unless (not (among (texts_of names.now) field.now.name.name)) TakenName) }
{
    lesser(
        unless(type_known(before, &field.ty), SemanticRule::UnknownName),
        unless(
            !has_text(names, field.name.name.bytes()),
            SemanticRule::TakenName,
        ),
    )
}

// The records of fields are declared before, and no two fields have one name.
fn fields_fault(
    alloc: Global,
    before: &Meanings<'_>,
    fields: &[Param],
) -> Result<Option<SemanticRule>, NoMemory>
    ensures { IfOk result (λ o. o ≡ fields_fault (named (rows_of before.now)) (λ x. false)
        (params_of fields.now)) }
{
    let mut names: IndexSet<&[u8]> = IndexSet::new(alloc);
    let mut fault = None;
    for field in fields {
        fault = lesser(fault, field_fault(before, &names, field));
        names.insert(field.name.name.bytes())?;
    }
    Ok(fault)
}

fn judge_record(
    alloc: Global,
    before: &Meanings<'_>,
    declared: &RecordDecl,
) -> Result<(), SourceFault>
    ensures { Says (item declared.now.at
        (record_fault (named (rows_of before.now)) (record_of declared.now))) result }
{
    let fields = fields_fault(alloc, before, &declared.fields)?;
    item(
        declared.at,
        lesser(name_fault(before, &declared.name.name), fields),
    )
}

// A parameter's name is that of none before it, not predefined, and none at the top.
fn free(setting: &Setting<'_, '_>, name: &[u8]) -> bool
    ensures { result ≡ not (is_there (named (vars_of setting.now.vars) name.now) || is_predefined
        name.now || is_there ((setting_view setting.now).known name.now)) }
{
    !(setting.has_var(name) || is_predefined(name) || setting.has_name(name))
}

// What fails at a parameter.
fn param_fault(setting: &Setting<'_, '_>, param: &Param) -> Option<SemanticRule>
    ensures { result ≡ param_fault (setting_view setting.now)
        (λ x. is_there (named (vars_of setting.now.vars) x)) (param_of param.now) }
{
    lesser(
        setting.written(&param.ty),
        unless(
            free(setting, param.name.name.bytes()),
            SemanticRule::TakenName,
        ),
    )
}

// The parameter is in force from here on.
fn add_param<'a>(
    walk: &mut Walk<'_, 'a>,
    param: &'a Param,
    fault: Option<SemanticRule>,
) -> Result<(), NoMemory>
    requires only { ParamsOnly walk.old }
    requires fault { fault ≡ param_fault (setting_view walk.old.setting) (taken_in walk.old)
        (param_of param.now) }
    ensures { IfOk result (λ _. NewParam walk.old walk.new param.now.name.name
        (type_of param.now.ty) fault) }
{
    let name = param.name.name.bytes();
    walk.setting.vars.insert(name, TypeView::of(&param.ty))?;
    walk.states.insert(name)?;
    Ok(())
}

// Parameters, which are in force from here on.
fn params_fault<'a>(
    walk: &mut Walk<'_, 'a>,
    params: &'a [Param],
) -> Result<Option<SemanticRule>, NoMemory>
    requires empty { (vars_of walk.old.setting.vars ≡ []) × (texts_of walk.old.states ≡ []) }
    ensures fault { IfOk result (λ o. o
        ≡ params_fault (setting_view walk.old.setting) (λ x. false) (params_of params.now)) }
    ensures env { IfOk result (λ o. o ≡ None → ParamsIn walk.old walk.new (params_of params.now)) }
{
    let mut fault = None;
    for param in params {
        let own = param_fault(&walk.setting, param);
        add_param(walk, param, own)?;
        fault = lesser(fault, own);
    }
    Ok(fault)
}

/// What a function returns, and what an actor gives, which is nothing if it is void.
#[derive(Clone, Copy)]
pub enum Returns<'a> {
    Function(&'a Ty),
    Actor(&'a Option<Ty>),
}

impl<'a> Returns<'a> {
    /// The type that is found of it.
    pub fn found(self) -> TypeView<'a>
        ensures { found_of result ≡ returned_type self.entry }
    {
        match self {
            Returns::Function(ty) => TypeView::of(ty),
            Returns::Actor(gives) => TypeView::of_result(gives),
        }
    }
}

/// A function or an actor.
#[derive(Clone, Copy)]
pub struct Routine<'a> {
    pub at: Place,
    pub plain: bool,
    pub returns: Returns<'a>,
    pub name: &'a Ident,
    pub params: &'a [Param],
    pub body: &'a [Stmt],
    pub close: Place,
}

// What a routine returns is a written type, or nothing.
#[tactic(auto, using(crate::proofs::Needed::nothing_written))]
fn written_result(setting: &Setting<'_, '_>, returns: Returns<'_>) -> Option<SemanticRule>
    ensures { result ≡ written (setting_view setting.now) (returned_type returns.entry) }
{
    match returns {
        Returns::Function(ty) | Returns::Actor(Some(ty)) => setting.written(ty),
        Returns::Actor(None) => None,
    }
}

// A routine's header.
fn header_fault<'a>(
    before: &Meanings<'_>,
    walk: &mut Walk<'_, 'a>,
    routine: Routine<'a>,
) -> Result<Option<SemanticRule>, NoMemory>
    requires empty { (vars_of walk.old.setting.vars ≡ []) × (texts_of walk.old.states ≡ []) }
    ensures fault { IfOk result (λ o. o
        ≡ header_fault (named (rows_of before.now)) (setting_view walk.old.setting)
        (routine_of routine.entry)) }
    ensures env { IfOk result (λ o. o ≡ None
        → ParamsIn walk.old walk.new (params_of routine.entry.params.now)) }
{
    let name = name_fault(before, &routine.name.name);
    let returns = written_result(&walk.setting, routine.returns);
    let params = params_fault(walk, routine.params)?;
    Ok(lesser(name, lesser(returns, params)))
}

// What is in force in a routine before its parameters.
fn start<'n, 'a>(alloc: Global, names: &'n TopNames<'a>, routine: Routine<'a>) -> Walk<'n, 'a>
    ensures setting { setting_view result.setting ≡ setting_by names.now routine.entry.plain }
    ensures returns { found_of result.returns ≡ returned_type routine.entry.returns }
    ensures empty { (vars_of result.setting.vars ≡ []) × (texts_of result.states ≡ []) }
{
    let vars: Vars<'a> = IndexMap::new(alloc);
    let setting = Setting {
        names,
        vars,
        plain: routine.plain,
    };
    Walk {
        setting,
        returns: routine.returns.found(),
        states: IndexSet::new(alloc),
    }
}

// A routine's header, its body and its closing brace, where this is in force before its parameters.
fn judge_inside<'a>(
    before: &Meanings<'_>,
    walk: &mut Walk<'_, 'a>,
    routine: Routine<'a>,
) -> Result<(), SourceFault>
    requires empty { (vars_of walk.old.setting.vars ≡ []) × (texts_of walk.old.states ≡ []) }
    requires returns { found_of walk.old.returns ≡ returned_type routine.returns }
    ensures { Says (routine_refusal (named (rows_of before.now)) (setting_view walk.old.setting)
        (routine_of routine.entry)) result }
{
    let is_void = walk.setting.is_void(walk.returns);
    let header = header_fault(before, walk, routine)?;
    item(routine.at, header)?;
    let around = Around {
        looped: false,
        caught: false,
    };
    walk.body(around, routine.body)?;
    let ways = ways_of(routine.body);
    item(
        routine.close,
        unless(is_void || !ways.end, SemanticRule::FallsOff),
    )
}

// A routine's header, its body and its closing brace.
fn judge_routine<'a>(
    alloc: Global,
    names: &TopNames<'a>,
    before: &Meanings<'_>,
    routine: Routine<'a>,
) -> Result<(), SourceFault>
    ensures { Says (routine_refusal (named (rows_of before.now))
        (setting_by names.now routine.entry.plain) (routine_of routine.entry)) result }
{
    let mut walk = start(alloc, names, routine);
    judge_inside(before, &mut walk, routine)
}

fn function_routine(function: &FunctionDecl) -> Routine<'_>
    ensures routine { routine_of result ≡ function_of function.now }
    ensures plain { result.plain ≡ true }
{
    Routine {
        at: function.at,
        plain: true,
        returns: Returns::Function(&function.returns),
        name: &function.name,
        params: &function.params,
        body: &function.body,
        close: function.close,
    }
}

fn actor_routine(actor: &ActorDecl) -> Routine<'_>
    ensures routine { routine_of result ≡ actor_of actor.now }
    ensures plain { result.plain ≡ false }
{
    Routine {
        at: actor.at,
        plain: false,
        returns: Returns::Actor(&actor.returns),
        name: &actor.name,
        params: &actor.params,
        body: &actor.body,
        close: actor.close,
    }
}

fn declaration<'a>(
    alloc: Global,
    names: &TopNames<'a>,
    before: &Meanings<'_>,
    decl: &'a Decl,
) -> Result<(), SourceFault>
    ensures { Says (decl_refusal (setting_by names.now) (named (rows_of before.now))
        (decl_of decl.now)) result }
{
    match decl {
        Decl::Struct(declared) => judge_record(alloc, before, declared),
        Decl::Function(function) => {
            judge_routine(alloc, names, before, function_routine(function))
        }
        Decl::Actor(actor) => judge_routine(alloc, names, before, actor_routine(actor)),
    }
}

// What this declaration declares is known from here on.
#[tactic(auto, using(crate::proofs::Inserts::row_inserted))]
fn declare<'a>(before: &mut Meanings<'a>, decl: &'a Decl) -> Result<(), NoMemory>
    requires { named (rows_of before.old) (row_of (decl_of decl.now)).0 ≡ None }
    ensures { IfOk result (λ _. rows_of before.new
        ≡ rows_of before.old ++ row_of (decl_of decl.now) ∷ []) }
{
    before.insert(name_of(decl), meaning_of(decl))?;
    Ok(())
}

/// The rules hold in these declarations, one after another, where these names stand at the top; or the least rule that fails at the
/// first item in which one does.
pub fn declarations<'a>(
    alloc: Global,
    names: &TopNames<'a>,
    packet: &'a [Param],
    decls: &'a [Decl],
) -> Result<(), SourceFault>
    requires { map field_row (params_of packet.now) ≡ packet_fields }
    ensures { Says (decls_refusal (setting_by names.now) [] (map decl_of decls.now)) result }
{
    let mut before = predefined(alloc, packet)?;
    for decl in decls {
        declaration(alloc, names, &before, decl)?;
        declare(&mut before, decl)?;
    }
    Ok(())
}

/// Whether this is an actor with one int and the result `Void`, as `main` is.
pub fn is_main(meaning: Option<Meaning<'_>>) -> bool
    ensures { result ≡ is_main (option_map meaning_of meaning.entry) }
{
    match meaning {
        Some(Meaning::Actor(params, returns)) => returns_void(returns) && is_one_int(params),
        Some(Meaning::Record(_)) | Some(Meaning::Function(_, _)) | None => false,
    }
}

fn returns_void(returns: &Option<Ty>) -> bool
    ensures { result ≡ same_type (result_of returns.now) VoidType }
{
    match returns {
        Some(Ty::Void) => true,
        None => false,
        Some(Ty::Int | Ty::Bool | Ty::Str | Ty::Error | Ty::Named(_) | Ty::Vector(_)) => false,
        Some(Ty::Future(_) | Ty::FutureStream(_) | Ty::Promise(_) | Ty::PromiseStream(_)) => false,
    }
}

fn is_int(ty: &Ty) -> bool
    ensures { result ≡ same_type (type_of ty.now) IntType }
{
    match ty {
        Ty::Int => true,
        Ty::Void | Ty::Bool | Ty::Str | Ty::Error | Ty::Named(_) | Ty::Vector(_) => false,
        Ty::Future(_) | Ty::FutureStream(_) | Ty::Promise(_) | Ty::PromiseStream(_) => false,
    }
}

fn is_one_int(params: &[Param]) -> bool
    ensures { result ≡ one_int (param_types (params_of params.now)) }
{
    match params {
        [param] => is_int(&param.ty),
        _ => false,
    }
}

/// The rules K1 to K12 and L8 hold in a program; or the least rule of K1 to K12 that fails at its first
/// item in which one does, or else L8 at its first record that is too large.
pub fn judge_program(alloc: Global, program: &Program) -> Result<(), SourceFault>
    ensures { Says (refusal_of (program_of program.now)) result }
{
    let packet = packet_fields(alloc)?;
    let names = TopNames::new(alloc, &packet, &program.decls)?;
    declarations(alloc, &names, &packet, &program.decls)?;
    item(
        program.end,
        unless(is_main(names.find(b"main")), SemanticRule::NoMain),
    )?;
    sizes(alloc, &program.decls)
}
