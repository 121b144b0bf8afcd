// The fault that a line tells.

ghost use Rattle.std.specs.Prelude.{◌≡◌, IfOk, IfSome};
ghost use Rattle.flow_refusal.specs.Refusal.{refusal_text, class_refusal, world_refusal};

use crate::class::class_line;
use crate::excerpt::{first, from};
use crate::line::{refusal_line, world_line};
use flow_base::memory::NoMemory;
use flow_base::name::{Name, is_name};
use flow_base::place::Place;
use flow_classread::fault::ClassFault;
use flow_tree::fault::{Rule, SourceFault};
use flow_worldfile::WorldFault;
use std::alloc::Global;

// The numbers of a line, in order; those above 2^32 - 1 as that.
fn numbers(alloc: Global, line: &[u8]) -> Result<Vec<u32>, NoMemory> {
    let mut numbers = Vec::new(alloc);
    let mut number: Option<u32> = None;
    for byte in line {
        if byte.is_ascii_digit() {
            let digit = u32::from(byte.saturating_sub(b'0'));
            number = Some(number.unwrap_or(0).saturating_mul(10).saturating_add(digit));
        } else if let Some(whole) = number {
            numbers.push(whole)?;
            number = None;
        }
    }
    Ok(numbers)
}

// A place by line and column. No line of a refusal says how many bytes stand before it.
fn place(line: u32, column: u32) -> Place {
    Place {
        line,
        column,
        byte: 0,
    }
}

// A rule by its letter and its number.
fn rule(letter: u8, number: u32) -> Option<Rule> {
    let number = u8::try_from(number).ok()?;
    match letter {
        b'S' => Some(Rule::S(number)),
        b'L' => Some(Rule::L(number)),
        b'K' => Some(Rule::K(number)),
        _ => None,
    }
}

// What a line with this letter and these numbers may tell.
fn told(letter: u8, numbers: &[u32]) -> Option<SourceFault> {
    match numbers {
        [number] => Some(SourceFault::Refused {
            rule: rule(letter, *number)?,
            at: place(1, 1),
        }),
        [number, line, column] => Some(SourceFault::Refused {
            rule: rule(letter, *number)?,
            at: place(*line, *column),
        }),
        [_, line, column, in_line, in_column, at_line, at_column] => {
            Some(SourceFault::AcrossWait {
                at: place(*line, *column),
                declared: place(*in_line, *in_column),
                wait: place(*at_line, *at_column),
            })
        }
        _ => None,
    }
}

// The letter of the rule in a line, which stands behind `refused `.
fn letter(line: &[u8]) -> u8 {
    match line.get(8) {
        Some(letter) => *letter,
        None => b' ',
    }
}

/// The fault of a program that a line tells. `None` where it tells none.
pub fn read_refusal(alloc: Global, line: &[u8]) -> Result<Option<SourceFault>, NoMemory>
    ensures { IfOk result (λ o. IfSome o (λ fault. line.now ≡ refusal_text fault)) }
{
    let numbers = numbers(alloc, line)?;
    let Some(fault) = told(letter(line), &numbers) else {
        return Ok(None);
    };
    let again = refusal_line(alloc, &fault)?;
    if again.as_slice() != line {
        return Ok(None);
    }
    Ok(Some(fault))
}

// The name behind `refused C2 V4 in `, before the line feed.
fn class_name(alloc: Global, line: &[u8]) -> Result<Option<Name>, NoMemory> {
    let rest = from(line, 17);
    let name = first(rest, rest.len().saturating_sub(1));
    if !is_name(name) {
        return Ok(None);
    }
    Ok(Some(Name::new(alloc, name)?))
}

// The rule behind `refused C2 V` that a line may tell, with its class.
fn invalid_told(alloc: Global, line: &[u8]) -> Result<Option<ClassFault>, NoMemory> {
    match line.get(12) {
        None => Ok(None),
        Some(digit) => Ok(Some(ClassFault::Invalid {
            rule: digit.saturating_sub(b'0'),
            class: class_name(alloc, line)?,
        })),
    }
}

// What a line with these numbers may tell of a class text.
fn class_told(alloc: Global, line: &[u8], numbers: &[u32]) -> Result<Option<ClassFault>, NoMemory> {
    match numbers {
        [1, number] => Ok(Some(ClassFault::Form(*number))),
        [11] => Ok(Some(ClassFault::TooLarge)),
        _ => invalid_told(alloc, line),
    }
}

/// The fault of a class text that a line tells. `None` where it tells none.
pub fn read_class_refusal(alloc: Global, line: &[u8]) -> Result<Option<ClassFault>, NoMemory>
    ensures { IfOk result (λ o. IfSome o (λ fault. line.now ≡ class_refusal fault)) }
{
    let numbers = numbers(alloc, line)?;
    let Some(fault) = class_told(alloc, line, &numbers)? else {
        return Ok(None);
    };
    let again = class_line(alloc, &fault)?;
    if again.as_slice() != line {
        return Ok(None);
    }
    Ok(Some(fault))
}

// What a line with these numbers may tell of a world file.
fn world_told(numbers: &[u32]) -> Option<WorldFault> {
    match numbers {
        [1, line] => Some(WorldFault::Form(*line)),
        [2, line] => Some(WorldFault::Range(*line)),
        [3, line] => Some(WorldFault::Twice(*line)),
        [4, line] => Some(WorldFault::NoProcess(*line)),
        [10] => Some(WorldFault::TooLarge),
        _ => None,
    }
}

/// The fault of a world file that a line tells. `None` where it tells none.
pub fn read_world_refusal(alloc: Global, line: &[u8]) -> Result<Option<WorldFault>, NoMemory>
    ensures { IfOk result (λ o. IfSome o (λ fault. line.now ≡ world_refusal fault)) }
{
    let numbers = numbers(alloc, line)?;
    let Some(fault) = world_told(&numbers) else {
        return Ok(None);
    };
    let again = world_line(alloc, fault)?;
    if again.as_slice() != line {
        return Ok(None);
    }
    Ok(Some(fault))
}
