// Programs that keep the rules.

ghost use Rattle.std.specs.Prelude.{◌≡◌, ◌<◌, length, slice_get, Some, IfOk};
ghost use Rattle.std.specs.Option.{option_map};
ghost use Rattle.flow_tree.specs.DeclView.{decl_of, program_of};
ghost use Rattle.flow_types.specs.Checked.{Checked};
ghost use Rattle.flow_types.specs.Variables.{variables_of};
ghost use Rattle.flow_types.specs.VariablesView.{variable_list};

use crate::collect::variables_in;
use crate::program::judge_program;
use crate::variable::Variable;
use flow_base::memory::NoMemory;
use flow_tree::decl::Program;
use flow_tree::fault::SourceFault;
use std::alloc::Global;

/// A program that keeps the rules K1 to K12 and L8.
#[derive(Drop)]
pub struct Typed {
    program: Program,
}

/// A program, where the rules K1 to K12 and L8 hold in it. Otherwise it is refused: by the least rule
/// of K1 to K12 that fails at its first item in the order of the text in which one does; or, where none
/// does, by L8 at its first record that is too large.
#[tactic(auto, using(crate::proofs::Answering::refused_checked))]
pub fn check(alloc: Global, program: Program) -> Result<Typed, SourceFault>
    ensures checked { Checked (program_of program) result }
    ensures program { IfOk result (λ t. t.program ≡ program) }
{
    judge_program(alloc, &program)?;
    Ok(Typed { program })
}

impl Typed {
    /// The program.
    pub fn program(&self) -> &Program
        ensures { result.now ≡ self.now.program }
    {
        &self.program
    }

    /// The variables of the declaration at this place: its parameters, and then the others in the order
    /// of the text. A record has none. They are listed when they are asked for.
    pub fn variables(&self, alloc: Global, decl: usize) -> Result<Vec<Variable>, NoMemory>
        requires { decl < length self.now.program.decls.items }
        ensures { IfOk result (λ v. Some (variable_list v.items)
            ≡ option_map variables_of (slice_get (program_of self.now.program).decls decl)) }
    {
        variables_in(alloc, &self.program.decls[decl])
    }
}
