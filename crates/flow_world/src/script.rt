// The script of a world.

ghost use Rattle.std.specs.Prelude.{◌≡◌, IfOk, length};
ghost use Rattle.flow_world.specs.Ending.{script_time, first_act, lines_after};
ghost use Rattle.flow_world.specs.Resuming.{ScriptLeft};
ghost use Rattle.flow_world.specs.Starting.{ScriptInOrder};

use flow_base::memory::NoMemory;
use flow_worldfile::{Act, At};
use std::marker::Model;

/// The lines of a script that are left, in the order in which they come: by time, and at one time in the order of the
/// file. Contracts see the list of them.
#[derive(Drop)]
pub struct Script {
    lines: Vec<At>,
    done: usize,
}

impl Model for Script {
    ghost use Rattle.std.specs.Prelude.{List, drop};
    ghost use Rattle.flow_worldfile.specs.declared.world.At.{At};

    ghost Value = { List At };

    ghost view = { λ s. drop s.done s.lines.items };
}

impl Script {
    /// These lines, in the order of the file.
    pub fn new(lines: Vec<At>) -> Result<Script, NoMemory>
        ensures { IfOk result (λ s. ScriptInOrder lines.items s) }
    {
        let mut lines = lines;
        lines.sort_by_key(|line| line.time)?;
        Ok(Script { lines, done: 0 })
    }

    /// These lines, in the order of the file, of which so many are done, in the order in which they come.
    pub fn after(lines: Vec<At>, done: u32) -> Result<Script, NoMemory>
        ensures { IfOk result (λ s. ScriptLeft lines.items done s) }
    {
        let mut lines = lines;
        lines.sort_by_key(|line| line.time)?;
        Ok(Script {
            lines,
            done: done as usize,
        })
    }

    /// How many lines are left.
    pub fn left(&self) -> usize
        ensures { result ≡ length self.now }
    {
        self.lines.len().saturating_sub(self.done)
    }

    /// The time of the next line, where one is left.
    pub fn first(&self) -> Option<u64>
        ensures { result ≡ script_time self.now }
    {
        if self.done < self.lines.len() {
            Some(self.lines[self.done].time)
        } else {
            None
        }
    }

    /// Takes the next line's act, where one is left.
    pub fn next(&mut self) -> Option<Act>
        ensures act { result ≡ first_act self.old }
        ensures left { self.new ≡ lines_after self.old }
    {
        if self.done < self.lines.len() {
            let act = self.lines[self.done].act;
            self.done += 1;
            Some(act)
        } else {
            None
        }
    }
}
