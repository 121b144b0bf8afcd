// What is written of a run.

ghost use Rattle.std.specs.Prelude.{◌≡◌, ◌++◌, decimal, IfOk, OnOk};
ghost use Rattle.flow_worldfile.specs.Worlds.{seen};
ghost use Rattle.flow_sweep.specs.Sweeps.{end_words, find_text, first_text, loss_words};

use crate::ran::{Ended, Ran};
use flow_base::memory::NoMemory;
use flow_family::PowerLoss;
use flow_worldfile::{World0, print_world};
use itoa::Buffer;
use std::alloc::Global;

// Adds a word and a number.
fn push_counted(text: &mut Vec<u8>, word: &[u8], n: u64) -> Result<(), NoMemory>
    ensures { OnOk result (text.new.items ≡ text.old.items ++ word.now ++ decimal n) }
{
    text.extend_from_slice(word)?;
    text.extend_from_slice(Buffer::new().format(n).as_bytes())?;
    Ok(())
}

// Adds the loss of power, where there is one.
fn push_loss(text: &mut Vec<u8>, loss: Option<PowerLoss>) -> Result<(), NoMemory>
    ensures { OnOk result (text.new.items ≡ text.old.items ++ loss_words loss) }
{
    let Some(loss) = loss else {
        return Ok(());
    };
    push_counted(text, b" kill ", u64::from(loss.process.0))?;
    push_counted(text, b" at ", loss.time)
}

// Adds how a run ended.
fn push_end(text: &mut Vec<u8>, ended: &Ended) -> Result<(), NoMemory>
    ensures { OnOk result (text.new.items ≡ text.old.items ++ end_words ended.now) }
{
    text.extend_from_slice(b" end ")?;
    match ended {
        Ended::Stopped(name) => {
            text.extend_from_slice(b"stop ")?;
            text.extend_from_slice(name.bytes())?;
        }
        Ended::Spent => text.extend_from_slice(b"spent")?,
        Ended::Bound => text.extend_from_slice(b"bound")?,
        Ended::Idle => text.extend_from_slice(b"idle")?,
    }
    Ok(())
}

/// The line of a run, behind some bytes.
pub fn find_text(
    alloc: Global,
    before: &[u8],
    seed: u64,
    loss: Option<PowerLoss>,
    ran: &Ran,
) -> Result<Vec<u8>, NoMemory>
    ensures { IfOk result (λ text. text.items ≡ before.now ++ find_text seed loss ran.now) }
{
    let mut text = before.to_vec(alloc)?;
    push_counted(&mut text, b"seed ", seed)?;
    push_loss(&mut text, loss)?;
    push_end(&mut text, &ran.ended)?;
    push_counted(&mut text, b" event ", ran.events)?;
    text.extend_from_slice(b"\n")?;
    Ok(text)
}

/// The line of a run as a comment, and its world.
pub fn first_text(
    alloc: Global,
    seed: u64,
    loss: Option<PowerLoss>,
    ran: &Ran,
    world: &World0,
) -> Result<Vec<u8>, NoMemory>
    ensures { IfOk result (λ text. text.items ≡ first_text seed loss (seen world.now) ran.now) }
{
    let mut text = find_text(alloc, b"# ", seed, loss, ran)?;
    let printed = print_world(alloc, world)?;
    text.extend_from_slice(&printed)?;
    Ok(text)
}
