// What actors evaluate.

ghost use Rattle.flow_step_refinement.specs.Referring as law;

/// Where the variables of a frame and what set cells hold refer to cells that are there, so does what an
/// expression and arguments come to.
pub fn evaluation_refers_to_what_is_there()
    ensures value { law.ValueThere }
    ensures arguments { law.ArgumentsThere }
{}
