// The files of the system and standard output.

ghost use Rattle.std.specs.Prelude.{◌≡◌};
ghost use Rattle.flow_base.specs.Seen.{Untold};

use flow_base::fault::OutFault;
use flow_base::sink::Sink;
use flow_refusal::Watcher;
use flow_system::opened::Opener;
use std::alloc::Global;
use std::fs::File;
use std::io;

/// The files of the system, of which nothing is told before it is read.
#[derive(Drop)]
pub struct SystemFiles<'a> {
    rt: &'a HostRuntime,
}

impl<'a> SystemFiles<'a> {
    /// The files of this system.
    pub fn new(rt: &'a HostRuntime) -> SystemFiles<'a> {
        SystemFiles { rt }
    }
}

impl<'a> Opener for SystemFiles<'a> {
    ghost content = { λ s name. Untold };

    type File = File;

    fn open(&mut self, name: &str) -> io::Result<File> {
        File::open(self.rt, name)
    }
}

/// How many bytes at the begin of a text are kept: more than a refusal has.
const BEGIN: usize = 256;

/// Of how many actors the lines are kept that say where they wait.
const ACTORS: usize = 20;

/// A sink that keeps how its text begins, watches the lines of a trace, counts the pieces that are lines of a script, and keeps the
/// first ones that are lines of actors.
#[derive(Drop)]
pub struct BeginKept<S> {
    out: S,
    begin: Vec<u8>,
    watcher: Watcher,
    script: usize,
    waits: Vec<u8>,
    actors: usize,
}

impl<S: Sink> BeginKept<S> {
    /// Nothing of this sink's text is kept yet.
    pub fn new(alloc: Global, out: S) -> BeginKept<S>
        ensures { S.seen result.out ≡ S.seen out }
    {
        BeginKept {
            out,
            begin: Vec::new(alloc),
            watcher: Watcher::new(alloc),
            script: 0,
            waits: Vec::new(alloc),
            actors: 0,
        }
    }

    /// How the text that was written begins, as far as there was memory to keep it.
    pub fn begin(&self) -> &[u8] {
        &self.begin
    }

    /// What is remembered of the lines that were written.
    pub fn watcher(&self) -> &Watcher {
        &self.watcher
    }

    /// How many pieces were lines of a script.
    pub fn script(&self) -> usize {
        self.script
    }

    /// The lines of the first actors, as far as there was memory to keep them.
    pub fn waits(&self) -> &[u8] {
        &self.waits
    }

    // Keeps a piece, where it belongs to the begin of the text.
    fn keep(&mut self, piece: &[u8])
        ensures { self.new.out ≡ self.old.out }
    {
        self.watcher.see(piece);
        if piece.starts_with(b"at ") {
            self.script = self.script.saturating_add(1);
        }
        if self.actors < ACTORS && piece.starts_with(b"actor ") {
            self.actors += 1;
            let _ = self.waits.extend_from_slice(piece);
        }
        if self.begin.len() < BEGIN && piece.len() < BEGIN {
            let _ = self.begin.extend_from_slice(piece);
        }
    }
}

impl<S: Sink> Sink for BeginKept<S> {
    ghost seen = { λ s. S.seen s.out };

    ghost handed_first = { λ s. S.handed_first s.out };

    fn write(&mut self, piece: &[u8]) -> Result<usize, OutFault> {
        self.keep(piece);
        self.out.write(piece)
    }

    fn flush(&mut self) -> Result<(), OutFault> {
        self.out.flush()
    }

    fn faults(&self) -> u64 {
        self.out.faults()
    }
}
