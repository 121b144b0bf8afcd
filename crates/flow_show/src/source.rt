// A text that grows at its end.

ghost use Rattle.std.specs.Prelude.{◌≡◌, suc, [], ◌++◌, codes, IfOk};
ghost use Rattle.flow_base.specs.Quote.{quoted};
ghost use Rattle.flow_tree.specs.Canon.{indent};

use flow_base::memory::NoMemory;
use flow_trace::quote::quote;
use std::alloc::Global;
use std::marker::Model;

/// A text that is written from its beginning to its end. Contracts see it as the list of its bytes.
#[derive(Drop)]
pub struct Source {
    alloc: Global,
    bytes: Vec<u8>,
}

impl Model for Source {
    ghost use Rattle.std.specs.Prelude.{ℕ, List};

    ghost Value = { List ℕ };

    ghost view = { λ s. s.bytes.items };
}

impl Source {
    /// The empty text. It takes no memory.
    pub fn new(alloc: Global) -> Source
        ensures { result ≡ [] }
    {
        Source {
            alloc,
            bytes: Vec::new(alloc),
        }
    }

    /// Its bytes.
    pub fn into_bytes(self) -> Vec<u8>
        ensures { result.items ≡ self }
    {
        self.bytes
    }

    /// Bytes at the end.
    pub fn put(&mut self, bytes: &[u8]) -> Result<(), NoMemory>
        ensures { IfOk result (λ _. self.new ≡ self.old ++ bytes.now) }
    {
        self.bytes.extend_from_slice(bytes)?;
        Ok(())
    }

    /// A text in quotes.
    pub fn put_quoted(&mut self, text: &[u8]) -> Result<(), NoMemory>
        ensures { IfOk result (λ _. self.new ≡ self.old ++ quoted text.now) }
    {
        self.put(&quote(self.alloc, text)?)
    }

    /// Four spaces for each level.
    #[tactic(auto, using(crate::proofs::Texts::indent_more))]
    pub fn put_indent(&mut self, level: usize) -> Result<(), NoMemory>
        ensures { IfOk result (λ _. self.new ≡ self.old ++ indent level) }
    {
        for _done in 0..level {
            self.put(b"    ")?;
        }
        Ok(())
    }
}
