// What is said beyond a rule.

use flow_base::memory::NoMemory;
use flow_base::place::Place;
use std::alloc::Global;

/// Words on a place of the text.
#[derive(Drop)]
pub struct Remark {
    pub at: Place,
    pub words: Vec<u8>,
}

/// What a note says beyond the rule that is broken: words behind its sentence, words on other places, and advice in place of the
/// rule's own.
#[derive(Drop)]
pub struct Hint {
    /// Words on the place that is refused; none where this is empty.
    pub words: Vec<u8>,
    /// Whether these words stand in place of the rule's sentence, not behind it.
    pub alone: bool,
    pub remarks: Vec<Remark>,
    pub help: Vec<Vec<u8>>,
}

impl Hint {
    /// Nothing is said.
    pub fn new(alloc: Global) -> Hint {
        Hint {
            words: Vec::new(alloc),
            alone: false,
            remarks: Vec::new(alloc),
            help: Vec::new(alloc),
        }
    }

    /// Says something of a place: behind the rule's sentence where it is the refused one, else as a remark.
    pub fn say(&mut self, refused: Place, at: Place, words: Vec<u8>) -> Result<(), NoMemory> {
        if is_there(refused, at) && self.words.is_empty() {
            self.words = words;
            return Ok(());
        }
        self.remarks.push(Remark { at, words })?;
        Ok(())
    }

    /// Advises so, where that isn't advised yet.
    pub fn advise(&mut self, words: Vec<u8>) -> Result<(), NoMemory> {
        if !self
            .help
            .iter()
            .any(|one| one.as_slice() == words.as_slice())
        {
            self.help.push(words)?;
        }
        Ok(())
    }
}

/// Whether two places are one by their lines and columns.
pub fn is_there(one: Place, other: Place) -> bool {
    one.line == other.line && one.column == other.column
}

/// Words made of parts, one behind the other.
pub fn words(alloc: Global, parts: &[&[u8]]) -> Result<Vec<u8>, NoMemory> {
    let mut out = Vec::new(alloc);
    for part in parts {
        out.extend_from_slice(part)?;
    }
    Ok(out)
}
