// Laws of the kinds.

ghost use Rattle.flow_expected.specs.declared.kind.TheConstants.{KINDS};
ghost use Rattle.flow_expected.specs.Expected.{AreAll};

/// Each kind is among `KINDS`.
#[tactic(auto, using(crate::proofs::AllKinds::kinds_all))]
pub fn kinds_are_all()
    ensures { AreAll KINDS }
{}
