// Laws of what fits.

ghost use Rattle.std.specs.Prelude.{◌≡◌};
ghost use Rattle.std.specs.declared.option.Option.TheVariants.{None};
ghost use Rattle.flow_tree.specs.Decls.{ProgramTree};
ghost use Rattle.flow_tree.specs.declared.token.Tokens.{Tokens};
ghost use Rattle.flow_tree.specs.GrammarDecl.{IsProgram};
ghost use Rattle.flow_rules.specs.Rules.{refusal_of};
ghost use Rattle.flow_typing_laws.specs.Typing.Ends.{EndsAlike};
ghost use Rattle.flow_typing_laws.specs.Typing.Joined.{AcceptedFits};

use crate::laws::control_flow::grammar_keeps_for_parts_simple;

/// A program that the grammar derives and no rule refuses is well typed: an expression in which no rule fails has the type that
/// its form gives, and no effects but a whole one in an actor; its functions fit, as their evaluation asks, and so do its
/// actors.
pub fn accepted_programs_are_well_typed()
    ensures { (tokens : Tokens) (program : ProgramTree) → IsProgram tokens program
        → refusal_of program ≡ None → AcceptedFits program }
{
    grammar_keeps_for_parts_simple();
}

/// What fits in a function asks of the end of a body what the rule on closing braces does: both say of each body that fits
/// whether its end is reached, and whether a `break` of the loop around it is.
pub fn closing_rule_agrees_with_fitting()
    ensures { EndsAlike }
{}
