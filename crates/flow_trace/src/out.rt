// Where lines are put.

ghost use Rattle.std.specs.Prelude.{◌≡◌, ℕ, List, [], ◌∷◌, ◌++◌, OnOk, OnErr};
ghost use Rattle.std.specs.declared.result.Result.{Result};
ghost use Rattle.flow_base.specs.Faults.{HasCause};
ghost use Rattle.flow_base.specs.declared.fault.OutFault.{OutFault};
ghost use Rattle.flow_trace.specs.Out.{GainsLine};
ghost use Rattle.flow_trace.specs.declared.line.Line.{Line};

use crate::line::Line;
use flow_base::fault::OutFault;
use std::alloc::Global;
use std::marker::Model;

/// Where the lines of a trace are put, one after another.
pub trait LineOut {
    /// What a put means: the object before it, the line, the answer, and the object after it.
    ghost puts: { Self → Line → Result (Unit {0}) OutFault → Self → Type 0 };

    /// How often it has failed. The count never falls; at 2^64 - 1 it stands still.
    ghost faults: { Self → ℕ };

    /// What no put changes, as where the lines go.
    ghost Kept: { Type 0 } = { Unit {0} };

    ghost kept: { Self → Self.Kept };

    /// Puts a line.
    fn put(&mut self, line: &Line) -> Result<(), OutFault>
        ensures puts { puts self.old line.now result self.new }
        ensures cause { HasCause (faults self.old) (faults self.new) result }
        ensures kept { Self.kept self.new ≡ Self.kept self.old };

    /// How often it has failed.
    fn faults(&self) -> u64
        ensures { result ≡ faults self.now };
}

/// Lines in memory, in the order in which they were put. Putting one fails for want of memory alone.
/// Contracts see it as the list of its lines.
#[derive(Drop)]
pub struct LineVec {
    alloc: Global,
    lines: Vec<Line>,
}

impl Model for LineVec {
    ghost use Rattle.std.specs.Prelude.{List};
    ghost use Rattle.flow_trace.specs.declared.line.Line.{Line};

    ghost Value = { List Line };

    ghost view = { λ v. v.lines.items };
}

impl LineVec {
    /// No line yet. It takes no memory.
    pub fn new(alloc: Global) -> LineVec
        ensures { result ≡ [] }
    {
        LineVec {
            alloc,
            lines: Vec::new(alloc),
        }
    }

    /// The lines that were put.
    pub fn lines(&self) -> &[Line]
        ensures { result.now ≡ self.now }
    {
        &self.lines
    }
}

impl LineOut for LineVec {
    ghost puts = { GainsLine };

    ghost faults = { λ _. 0 };

    ghost kept = { λ _. record {} };

    fn put(&mut self, line: &Line) -> Result<(), OutFault> {
        let Ok(copy) = line.copy(self.alloc) else {
            return Err(OutFault::OutOfMemory);
        };
        match self.lines.push(copy) {
            Ok(()) => Ok(()),
            Err(_) => Err(OutFault::OutOfMemory),
        }
    }

    fn faults(&self) -> u64 {
        0
    }
}
