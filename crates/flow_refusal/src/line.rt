// The line that tells why a program text or a world file is refused.

ghost use Rattle.std.specs.Prelude.{◌≡◌, ◌++◌, codes, decimal, IfOk};
ghost use Rattle.flow_tree.specs.declared.fault.SourceFault.TheVariants.{Refused, AcrossWait};
ghost use Rattle.flow_refusal.specs.Refusal.{place_text, rule_text, where_text, refusal_text, refusal_status, world_refusal};

use flow_base::memory::NoMemory;
use flow_base::place::Place;
use flow_tree::fault::{Rule, SourceFault};
use flow_worldfile::WorldFault;
use itoa::Buffer;
use std::alloc::Global;

/// Adds a place to a line, as line and column from 1.
pub fn put_place(line: &mut Vec<u8>, at: Place) -> Result<(), NoMemory>
    ensures { IfOk result (λ _. line.new.items ≡ line.old.items ++ place_text at) }
{
    line.extend_from_slice(Buffer::new().format(at.line).as_bytes())?;
    line.extend_from_slice(b":")?;
    line.extend_from_slice(Buffer::new().format(at.column).as_bytes())?;
    Ok(())
}

// A letter and a number.
fn put_number(line: &mut Vec<u8>, letter: &[u8], number: u8) -> Result<(), NoMemory>
    ensures { IfOk result (λ _. line.new.items ≡ line.old.items ++ (letter.now ++ decimal number)) }
{
    line.extend_from_slice(letter)?;
    line.extend_from_slice(Buffer::new().format(number).as_bytes())?;
    Ok(())
}

/// Adds a rule to a line, by its letter and its number.
pub fn put_rule(line: &mut Vec<u8>, rule: Rule) -> Result<(), NoMemory>
    ensures { IfOk result (λ _. line.new.items ≡ line.old.items ++ rule_text rule) }
{
    match rule {
        Rule::S(number) => put_number(line, b"S", number),
        Rule::L(number) => put_number(line, b"L", number),
        Rule::K(number) => put_number(line, b"K", number),
    }
}

fn put_at(line: &mut Vec<u8>, at: Place) -> Result<(), NoMemory>
    ensures { IfOk result (λ _. line.new.items
        ≡ line.old.items ++ (codes " at " ++ place_text at)) }
{
    line.extend_from_slice(b" at ")?;
    put_place(line, at)?;
    Ok(())
}

fn put_where(line: &mut Vec<u8>, rule: Rule, at: Place) -> Result<(), NoMemory>
    ensures { IfOk result (λ _. line.new.items ≡ line.old.items ++ where_text rule at) }
{
    match rule {
        Rule::S(_) => put_at(line, at),
        Rule::L(number) => {
            if number == 1 {
                return Ok(());
            }
            put_at(line, at)
        }
        Rule::K(_) => put_at(line, at),
    }
}

fn put_rule_line(line: &mut Vec<u8>, rule: Rule, at: Place) -> Result<(), NoMemory>
    ensures { IfOk result (λ _. line.new.items ≡ line.old.items ++ refusal_text (Refused rule at)) }
{
    line.extend_from_slice(b"refused ")?;
    put_rule(line, rule)?;
    put_where(line, rule, at)?;
    line.extend_from_slice(b"\n")?;
    Ok(())
}

fn put_use_line(line: &mut Vec<u8>, at: Place, declared: Place, wait: Place) -> Result<(), NoMemory>
    ensures { IfOk result (λ _. line.new.items
        ≡ line.old.items ++ refusal_text (AcrossWait at declared wait)) }
{
    line.extend_from_slice(b"refused U1 at ")?;
    put_place(line, at)?;
    line.extend_from_slice(b" declared ")?;
    put_place(line, declared)?;
    line.extend_from_slice(b" wait ")?;
    put_place(line, wait)?;
    line.extend_from_slice(b"\n")?;
    Ok(())
}

/// The line that tells why a program text is refused, with its line feed. Want of memory tells
/// nothing.
pub fn refusal_line(alloc: Global, fault: &SourceFault) -> Result<Vec<u8>, NoMemory>
    ensures { IfOk result (λ v. v.items ≡ refusal_text fault.now) }
{
    let mut line = Vec::new(alloc);
    match fault {
        SourceFault::Refused { rule, at } => put_rule_line(&mut line, *rule, *at)?,
        SourceFault::AcrossWait { at, declared, wait } => {
            put_use_line(&mut line, *at, *declared, *wait)?
        }
        SourceFault::OutOfMemory => {}
    }
    Ok(line)
}

/// The status of a refusal: 10 where a limit is passed, 1 for another rule, 7 for want of memory.
pub fn refusal_status(fault: &SourceFault) -> u8
    ensures { result ≡ refusal_status fault.now }
{
    match fault {
        SourceFault::Refused { rule, .. } => match rule {
            Rule::S(_) => 1,
            Rule::L(_) => 10,
            Rule::K(_) => 1,
        },
        SourceFault::AcrossWait { .. } => 1,
        SourceFault::OutOfMemory => 7,
    }
}

/// The line that tells why a world file is refused, with its line feed.
pub fn world_line(alloc: Global, fault: WorldFault) -> Result<Vec<u8>, NoMemory>
    ensures { IfOk result (λ v. v.items ≡ world_refusal fault) }
{
    let text = format!(in alloc; "{fault}")?;
    let mut line = Vec::new(alloc);
    line.extend_from_slice(b"refused ")?;
    line.extend_from_slice(text.as_bytes())?;
    line.extend_from_slice(b"\n")?;
    Ok(line)
}
