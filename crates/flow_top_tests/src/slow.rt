// A sink that takes one byte a call, and files that give one.

ghost use Rattle.std.specs.Prelude.{None};

use flow_base::fault::OutFault;
use flow_base::files::Files;
use flow_base::ids::FileNo;
use flow_base::sink::Sink;

// A sink that takes the first byte of a piece and no more.
#[derive(Drop)]
pub(crate) struct OneByteOut {
    pub(crate) bytes: Vec<u8>,
}

impl Sink for OneByteOut {
    ghost seen = { λ s. record { written = None; handed = None; faults = 0 } };

    ghost handed_first = { λ s. tt };

    fn write(&mut self, piece: &[u8]) -> Result<usize, OutFault> {
        let [first, ..] = piece else {
            return Ok(0);
        };
        if self.bytes.push(*first).is_err() {
            return Err(OutFault::OutOfMemory);
        }
        Ok(1)
    }

    fn flush(&mut self) -> Result<(), OutFault> {
        Ok(())
    }

    fn faults(&self) -> u64 {
        0
    }
}

// Files that give one byte a call.
#[derive(Drop)]
pub(crate) struct OneByteIn<F> {
    pub(crate) files: F,
}

impl<F: Files> Files for OneByteIn<F> {
    ghost seen = { λ s. F.seen s.files };

    fn open_file(&mut self, name: &str) -> Result<FileNo, OutFault> {
        self.files.open_file(name)
    }

    fn read(&mut self, file: FileNo, buf: &mut [u8]) -> Result<usize, OutFault> {
        let room = buf.len().min(1);
        self.files.read(file, &mut buf[..room])
    }

    fn faults(&self) -> u64 {
        self.files.faults()
    }
}
