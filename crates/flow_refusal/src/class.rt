// The line that tells why a class text is refused.

ghost use Rattle.std.specs.Prelude.{◌≡◌, ◌++◌, codes, decimal, IfOk};
ghost use Rattle.flow_classread.specs.declared.fault.ClassFault.TheVariants.{Form, Invalid};
ghost use Rattle.flow_refusal.specs.Refusal.{in_class, class_refusal, class_status};

use flow_base::memory::NoMemory;
use flow_base::name::Name;
use flow_classread::fault::ClassFault;
use itoa::Buffer;
use std::alloc::Global;

// Adds the class that breaks a rule, where it is one.
fn put_class(line: &mut Vec<u8>, class: &Option<Name>) -> Result<(), NoMemory>
    ensures { IfOk result (λ _. line.new.items ≡ line.old.items ++ in_class class.now) }
{
    match class {
        None => Ok(()),
        Some(name) => {
            line.extend_from_slice(b" in ")?;
            line.extend_from_slice(name.bytes())?;
            Ok(())
        }
    }
}

fn put_form_line(line: &mut Vec<u8>, number: u32) -> Result<(), NoMemory>
    ensures { IfOk result (λ _. line.new.items ≡ line.old.items ++ class_refusal (Form number)) }
{
    line.extend_from_slice(b"refused C1 at line ")?;
    line.extend_from_slice(Buffer::new().format(number).as_bytes())?;
    line.extend_from_slice(b"\n")?;
    Ok(())
}

fn put_invalid_line(line: &mut Vec<u8>, rule: u8, class: &Option<Name>) -> Result<(), NoMemory>
    ensures { IfOk result (λ _. line.new.items
        ≡ line.old.items ++ class_refusal (Invalid rule class.now)) }
{
    line.extend_from_slice(b"refused C2 V")?;
    line.extend_from_slice(Buffer::new().format(rule).as_bytes())?;
    put_class(line, class)?;
    line.extend_from_slice(b"\n")?;
    Ok(())
}

/// The line that tells why a class text is refused, with its line feed. Want of memory tells nothing.
pub fn class_line(alloc: Global, fault: &ClassFault) -> Result<Vec<u8>, NoMemory>
    ensures { IfOk result (λ v. v.items ≡ class_refusal fault.now) }
{
    let mut line = Vec::new(alloc);
    match fault {
        ClassFault::Form(number) => put_form_line(&mut line, *number)?,
        ClassFault::Invalid { rule, class } => put_invalid_line(&mut line, *rule, class)?,
        ClassFault::TooLarge => line.extend_from_slice(b"refused L11\n")?,
        ClassFault::OutOfMemory => {}
    }
    Ok(line)
}

/// The status of a refusal of a class text: 10 where the limit on its bytes is passed, 9 for another rule, 7 for want of memory.
pub fn class_status(fault: &ClassFault) -> u8
    ensures { result ≡ class_status fault.now }
{
    match fault {
        ClassFault::Form(_) => 9,
        ClassFault::Invalid { .. } => 9,
        ClassFault::TooLarge => 10,
        ClassFault::OutOfMemory => 7,
    }
}
