// A host that keeps lines, and the code of a program.

use flow_base::fault::OutFault;
use flow_base::ids::{CellId, ProcId};
use flow_base::memory::NoMemory;
use flow_base::text::Text;
use flow_code::program::Code;
use flow_compile::{CompileFault, compile, front};
use flow_machine::host::Host;
use flow_simdisk::DiskAsk;
use flow_trace::buffer::{LineBuf, print_line};
use flow_trace::line::Line;
use flow_trace::out::{LineOut, LineVec};
use flow_valid::program::ClassProgram;
use std::alloc::Global;
use std::test::Fail;

/// A host that keeps the lines and the cell of the last timer, and nothing else.
#[derive(Drop)]
pub(crate) struct Lines {
    pub(crate) lines: LineVec,
    pub(crate) timer: Option<CellId>,
}

pub(crate) fn new_host(alloc: Global) -> Lines {
    Lines {
        lines: LineVec::new(alloc),
        timer: None,
    }
}

impl Host for Lines {
    ghost use Rattle.std.specs.Prelude.{[]};

    ghost kept = { λ _. tt };

    ghost processes = { λ _. 1 };

    ghost faults = { λ _. 0 };

    ghost World = { Unit {0} };

    ghost serves = { record {
      supply = λ _. record { now = 0; processes = 1; word = 0 };
      serve = λ _ w. ([], w);
    } };

    // It shows no world of the definitions.
    ghost shows = { λ _ _ _. ⊥ };

    ghost wrote = { λ _ _ _. Unit {0} };

    ghost broke = { λ _ _ _. Unit {0} };

    fn line(&mut self, line: &Line) -> Result<(), OutFault> {
        self.lines.put(line)
    }

    fn random(&mut self, lo: i64, _width: u64) -> Result<i64, NoMemory> {
        Ok(lo)
    }

    fn timer(&mut self, cell: CellId, _at: u64) -> Result<(), NoMemory> {
        self.timer = Some(cell);
        Ok(())
    }

    fn packet(&mut self, _to: ProcId, _port: u16, _text: Text) -> Result<(), OutFault> {
        Ok(())
    }

    fn listening(&self, _port: u16) -> bool {
        false
    }

    fn listen(&mut self, _port: u16, _cell: CellId) -> Result<(), NoMemory> {
        Ok(())
    }

    fn unlisten(&mut self, _cell: CellId) {}

    fn disk(&mut self, _cell: CellId, _ask: DiskAsk) -> Result<(), NoMemory> {
        Ok(())
    }

    fn faults(&self) -> u64 {
        0
    }
}

fn made(compiled: Result<ClassProgram, CompileFault>) -> Result<ClassProgram, Fail> {
    match compiled {
        Ok(classes) => Ok(classes),
        Err(_) => Err(Fail::from("no classes")),
    }
}

/// The classes of a program that the front accepts.
pub(crate) fn classes(alloc: Global, text: &[u8]) -> Result<ClassProgram, Fail> {
    let Ok(sound) = front(alloc, text) else {
        return Err(Fail::from("no program"));
    };
    made(compile(alloc, &sound))
}

/// The code of a program that the front accepts.
pub(crate) fn code(alloc: Global, text: &[u8]) -> Result<Code, Fail> {
    Ok(Code::new(alloc, classes(alloc, text)?)?)
}

// Lines as text.
pub(crate) fn text(alloc: Global, lines: &[Line]) -> Result<Vec<u8>, Fail> {
    let mut line_text = LineBuf::new(alloc)?;
    let mut text = Vec::new(alloc);
    for line in lines {
        print_line(line, &mut line_text);
        text.extend_from_slice(line_text.bytes())?;
    }
    Ok(text)
}

// Whether lines are those of a text.
pub(crate) fn are_lines(alloc: Global, lines: &[Line], wanted: &[u8]) -> Result<bool, Fail> {
    let told = text(alloc, lines)?;
    Ok(told.as_slice() == wanted)
}
