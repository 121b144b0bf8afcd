// The text of the classes of a program, written a block at a time.

ghost use Rattle.std.specs.Prelude.{◌≡◌, map, IfOk, OnOk};
ghost use Rattle.std.specs.Io.KnownBytes.{Appends};
ghost use Rattle.flow_base.specs.Bytes.{AppendsPart, Grows};
ghost use Rattle.flow_base.specs.Faults.{HasCause};
ghost use Rattle.flow_class.specs.View.{block_of, class_of, raw_of};
ghost use Rattle.flow_classprint.specs.ClassText.{all_text, numbered, block_text, class_front, class_back, class_text, front_text, ClassText};

use crate::block::put_block;
use crate::class::{put_class_back, put_class_front};
use crate::instr::sum;
use crate::print::put_front;
use flow_base::fault::OutFault;
use flow_base::memory::NoMemory;
use flow_base::sink::Sink;
use flow_class::class::{Block, Class, RawClasses};
use flow_show::show::write_lines;
use flow_show::source::Source;
use std::alloc::Global;

// The text of the head, the records and the functions.
fn front(alloc: Global, raw: &RawClasses) -> Result<Vec<u8>, NoMemory>
    ensures { IfOk result (λ v. v.items ≡ front_text (raw_of raw.now)) }
{
    let mut out = Source::new(alloc);
    put_front(&mut out, raw)?;
    Ok(out.into_bytes())
}

// The text before the blocks of a class.
fn before_blocks(alloc: Global, class: &Class) -> Result<Vec<u8>, NoMemory>
    ensures { IfOk result (λ v. v.items ≡ class_front (class_of class.now)) }
{
    let mut out = Source::new(alloc);
    put_class_front(&mut out, class)?;
    Ok(out.into_bytes())
}

// The text behind the blocks of a class.
fn behind_blocks(alloc: Global, class: &Class) -> Result<Vec<u8>, NoMemory>
    ensures { IfOk result (λ v. v.items ≡ class_back (class_of class.now)) }
{
    let mut out = Source::new(alloc);
    put_class_back(&mut out, class)?;
    Ok(out.into_bytes())
}

// The text of a block.
fn block_alone(alloc: Global, number: usize, block: &Block) -> Result<Vec<u8>, NoMemory>
    ensures { IfOk result (λ v. v.items ≡ block_text number (block_of block.now)) }
{
    let mut out = Source::new(alloc);
    put_block(&mut out, number, block)?;
    Ok(out.into_bytes())
}

// Writes the blocks of a class.
fn write_blocks<S: Sink>(alloc: Global, blocks: &[Block], out: &mut S) -> Result<(), OutFault>
    ensures whole { OnOk result (Appends (S.seen out.old).written (S.seen out.new).written
        (numbered block_text 0 (map block_of blocks.now))) }
    ensures part { AppendsPart (S.seen out.old).written (S.seen out.new).written
        (numbered block_text 0 (map block_of blocks.now)) }
    ensures handed { Grows (S.seen out.old).handed (S.seen out.new).handed }
    ensures cause { HasCause (S.seen out.old).faults (S.seen out.new).faults result }
{
    let mut number: usize = 0;
    for block in blocks {
        let Ok(text) = block_alone(alloc, number, block) else {
            return Err(OutFault::OutOfMemory);
        };
        write_lines(out, &text)?;
        let Ok(next) = sum(number, 1) else {
            return Err(OutFault::OutOfMemory);
        };
        number = next;
    }
    Ok(())
}

// Writes a class.
fn write_class<S: Sink>(alloc: Global, class: &Class, out: &mut S) -> Result<(), OutFault>
    ensures whole { OnOk result (Appends (S.seen out.old).written (S.seen out.new).written
        (class_text (class_of class.now))) }
    ensures part { AppendsPart (S.seen out.old).written (S.seen out.new).written
        (class_text (class_of class.now)) }
    ensures handed { Grows (S.seen out.old).handed (S.seen out.new).handed }
    ensures cause { HasCause (S.seen out.old).faults (S.seen out.new).faults result }
{
    let Ok(begin) = before_blocks(alloc, class) else {
        return Err(OutFault::OutOfMemory);
    };
    write_lines(out, &begin)?;
    write_blocks(alloc, &class.blocks, out)?;
    let Ok(end) = behind_blocks(alloc, class) else {
        return Err(OutFault::OutOfMemory);
    };
    write_lines(out, &end)?;
    Ok(())
}

// Writes classes.
fn write_all<S: Sink>(alloc: Global, classes: &[Class], out: &mut S) -> Result<(), OutFault>
    ensures whole { OnOk result (Appends (S.seen out.old).written (S.seen out.new).written
        (all_text class_text (map class_of classes.now))) }
    ensures part { AppendsPart (S.seen out.old).written (S.seen out.new).written
        (all_text class_text (map class_of classes.now)) }
    ensures handed { Grows (S.seen out.old).handed (S.seen out.new).handed }
    ensures cause { HasCause (S.seen out.old).faults (S.seen out.new).faults result }
{
    for class in classes {
        write_class(alloc, class, out)?;
    }
    Ok(())
}

/// Writes the canonical text of classes, each line of it by one call where the sink takes it whole. What was written is
/// always a first part of the text. `Failed` comes only where the sink's count rose. One block at a time is held in memory.
pub fn write_classes<S: Sink>(alloc: Global, raw: &RawClasses, out: &mut S) -> Result<(), OutFault>
    ensures whole { OnOk result (Appends (S.seen out.old).written (S.seen out.new).written
        (ClassText (raw_of raw.now))) }
    ensures part { AppendsPart (S.seen out.old).written (S.seen out.new).written
        (ClassText (raw_of raw.now)) }
    ensures handed { Grows (S.seen out.old).handed (S.seen out.new).handed }
    ensures cause { HasCause (S.seen out.old).faults (S.seen out.new).faults result }
{
    let Ok(text) = front(alloc, raw) else {
        return Err(OutFault::OutOfMemory);
    };
    write_lines(out, &text)?;
    write_all(alloc, &raw.classes, out)
}
