// Laws of canonical texts.

ghost use Rattle.flow_show.specs.Laws.{OneText, RoundTrip, TwiceIsOnce};

/// Equal programs have one canonical text, places aside. A program that the tokens of some text derive
/// is read back from its canonical text, places aside, within the limits on its parts that it keeps;
/// and the canonical text of what is read back is the same text again.
pub fn canonical()
    ensures one { OneText }
    ensures read_back { RoundTrip }
    ensures twice { TwiceIsOnce }
{}
