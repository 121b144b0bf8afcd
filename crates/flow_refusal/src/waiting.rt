// The note on an actor that waits.

ghost use Rattle.std.specs.Prelude.{◌≡◌, ◌++◌, IfOk};
ghost use Rattle.flow_refusal.specs.Note.{waits_at, who_waits, waits_here, wait_note};

use crate::excerpt::put_excerpt;
use crate::line::put_place;
use flow_base::memory::NoMemory;
use flow_base::place::Place;

// Adds a place in a file.
fn put_at(out: &mut Vec<u8>, file: &str, at: Place) -> Result<(), NoMemory>
    ensures { IfOk result (λ _. out.new.items ≡ out.old.items ++ waits_at file.now at) }
{
    out.extend_from_slice(file.as_bytes())?;
    out.extend_from_slice(b":")?;
    put_place(out, at)?;
    Ok(())
}

// Adds which actor waits there, by numbers.
fn put_who(out: &mut Vec<u8>, process: &[u8], actor: &[u8]) -> Result<(), NoMemory>
    ensures { IfOk result (λ _. out.new.items
        ≡ out.old.items ++ who_waits process.now actor.now) }
{
    out.extend_from_slice(b": actor ")?;
    out.extend_from_slice(actor)?;
    out.extend_from_slice(b" of process ")?;
    out.extend_from_slice(process)?;
    Ok(())
}

// Adds its name, and that it waits.
fn put_name(out: &mut Vec<u8>, name: &[u8]) -> Result<(), NoMemory>
    ensures { IfOk result (λ _. out.new.items ≡ out.old.items ++ waits_here name.now) }
{
    out.extend_from_slice(b", ")?;
    out.extend_from_slice(name)?;
    out.extend_from_slice(b", waits here\n")?;
    Ok(())
}

/// Adds the note on an actor that waits at a place of the text of a file, by the numbers of its process and of itself and by its name:
/// the place, which actor waits there, and the line of the text with a mark under the place.
pub fn put_wait(
    out: &mut Vec<u8>,
    file: &str,
    text: &[u8],
    process: &[u8],
    actor: &[u8],
    name: &[u8],
    at: Place,
) -> Result<(), NoMemory>
    ensures { IfOk result (λ _. out.new.items
        ≡ out.old.items ++ wait_note file.now text.now process.now actor.now name.now at) }
{
    put_at(out, file, at)?;
    put_who(out, process, actor)?;
    put_name(out, name)?;
    put_excerpt(out, text, at)?;
    Ok(())
}
