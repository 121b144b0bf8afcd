// Laws of the definition of tokens.

ghost use Rattle.std.specs.Prelude.{ℕ, List};
ghost use Rattle.flow_lex.specs.Laws.{ReadsOnce, HasVerdict};

/// A text has one list of tokens at most, one lexical refusal at most, and never both.
pub fn reads_once()
    ensures { (bytes : List ℕ) → ReadsOnce bytes }
{}

/// Every text has tokens or a lexical refusal.
pub fn has_verdict()
    ensures { (bytes : List ℕ) → HasVerdict bytes }
{}
