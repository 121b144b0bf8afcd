// Laws of what is decided.

ghost use Rattle.flow_top.specs.Laws.{MissingProgram, MissingWorld};
ghost use Rattle.flow_top.specs.OneAnswer.{OneAnswer};

use flow_class_reading_laws::laws::class_texts_have_one_answer;
use flow_front::laws::one_verdict;
use flow_worldfile::laws::one_verdict as one_world_verdict;

/// Where the file is missing that a request begins with, there is a read fault or want of memory.
pub fn missing_program()
    ensures { MissingProgram }
{}

/// Where the world's file is missing, nothing is run, and no world refused.
pub fn missing_world()
    ensures { MissingWorld }
{}

/// Over files that tell, what is due by a request is one outcome, with one text and one status, by the same files.
pub fn one_answer()
    ensures { OneAnswer }
{
    one_verdict();
    one_world_verdict();
    class_texts_have_one_answer();
}
