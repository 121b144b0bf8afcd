// The variables of a plain function.

ghost use Rattle.std.specs.Prelude.{◌≡◌, map};
ghost use Rattle.std.specs.Option.{option_map, option_copied};
ghost use Rattle.flow_value.specs.View.{value_of};
ghost use Rattle.flow_ast.specs.TypingNames.{named};
ghost use Rattle.flow_eval.specs.Variables.{var_of};

use flow_base::name::Name;
use flow_value::value::Value;

/// A variable and its value.
#[derive(Drop)]
pub struct Var {
    pub name: Name,
    pub value: Value,
}

/// The first variable of a name in a list.
pub fn find_var<'a>(vars: &'a [Var], name: &[u8]) -> Option<&'a Value>
    ensures { option_map value_of (option_copied result) ≡ named (map var_of vars.now) name.now }
{
    for var in vars {
        if name == var.name.bytes() {
            return Some(&var.value);
        }
    }
    None
}
