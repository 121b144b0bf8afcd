// The rules V4 to V6: where blocks lead, which groups are chosen, and what a catch part names.

ghost use Rattle.std.specs.Prelude.{◌≡◌, [], map, nat_eq, IfOk};
ghost use Rattle.std.specs.List.{list_all};
ghost use Rattle.std.specs.Option.{option_map};
ghost use Rattle.flow_tree.specs.Tree.{ErrorType};
ghost use Rattle.flow_tree.specs.View.{type_of};
ghost use Rattle.flow_ast.specs.Typing.{same_type};
ghost use Rattle.flow_class.specs.Classes.{BlockTree};
ghost use Rattle.flow_class.specs.View.{class_of, block_of, catcher_of, last_of, group_of};
ghost use Rattle.flow_validate.specs.Counting.{counted_once, counted, zeros};
ghost use Rattle.flow_valid.specs.Validity.{all_blocks, leads_on, leads_forward, times_chosen, each_once, groups_chosen, distinct, takes_error, catches, catchers_kept};

use flow_base::memory::NoMemory;
use flow_class::class::{Block, Catcher, Class, Group, Last};
use flow_tree::ty::Ty;
use indexmap::IndexSet;
use std::alloc::Global;

// `goto` and `test` lead from this block to one of greater number.
fn leads_on(number: usize, last: &Last) -> bool
    ensures { result ≡ leads_on number (last_of last.now) }
{
    match last {
        Last::Goto(block) => number < *block as usize,
        Last::Test(_, holds, fails) => number < *holds as usize && number < *fails as usize,
        Last::Pass(_) | Last::Choose(_) | Last::Return(_) | Last::Throw(_) => true,
    }
}

fn all_lead_on(blocks: &[Block]) -> bool
    ensures { result ≡ all_blocks (λ n (b : BlockTree). leads_on n b.last) 0
        (map block_of blocks.now) }
{
    for number in 0..blocks.len() {
        if !leads_on(number, &blocks[number].last) {
            return false;
        }
    }
    true
}

/// Whether `goto` and `test` lead to blocks of greater number.
pub fn leads_forward(class: &Class) -> bool
    ensures { result ≡ leads_forward (class_of class.now) }
{
    all_lead_on(&class.blocks)
}

// Notes that a group, numbered from 1, is chosen once more.
fn note_chosen(counts: &mut Vec<u32>, group: u32)
    ensures { counts.new.items ≡ counted_once counts.old.items group }
{
    if group == 0 {
        return;
    }
    let number = group as usize - 1;
    if number < counts.len() {
        counts[number] = counts[number].saturating_add(1);
    }
}

// A count for each group, which begins at 0.
fn no_counts(alloc: Global, groups: &[Group]) -> Result<Vec<u32>, NoMemory>
    ensures { IfOk result (λ v. v.items ≡ zeros groups.now) }
{
    let mut counts = Vec::new(alloc);
    for _ in groups {
        counts.push(0)?;
    }
    Ok(counts)
}

// Counts how often groups are chosen.
fn count_chosen(counts: &mut Vec<u32>, blocks: &[Block])
    ensures { counts.new.items ≡ counted (map block_of blocks.now) counts.old.items }
{
    for block in blocks {
        if let Last::Choose(group) = &block.last {
            note_chosen(counts, *group);
        }
    }
}

fn are_all_one(counts: &[u32]) -> bool
    ensures { result ≡ list_all (nat_eq 1) counts.now }
{
    for count in counts {
        if *count != 1 {
            return false;
        }
    }
    true
}

/// Whether each group is named by exactly one `choose`.
pub fn groups_chosen(alloc: Global, class: &Class) -> Result<bool, NoMemory>
    ensures { IfOk result (λ b. b ≡ groups_chosen (class_of class.now)) }
{
    let mut counts = no_counts(alloc, &class.groups)?;
    count_chosen(&mut counts, &class.blocks);
    Ok(are_all_one(&counts))
}

// Whether no number stands twice: each is put among those behind it.
fn put_distinct(behind: &mut IndexSet<u32>, numbers: &[u32]) -> Result<bool, NoMemory>
    requires empty { behind.old.keys ≡ [] }
    ensures { IfOk result (λ b. b ≡ distinct numbers.now) }
{
    let mut at = numbers.len();
    while at > 0 {
        at -= 1;
        if behind.contains(&numbers[at]) {
            return Ok(false);
        }
        behind.insert(numbers[at])?;
    }
    Ok(true)
}

// Whether no number stands twice.
fn are_distinct(alloc: Global, numbers: &[u32]) -> Result<bool, NoMemory>
    ensures { IfOk result (λ b. b ≡ distinct numbers.now) }
{
    let mut behind: IndexSet<u32> = IndexSet::new(alloc);
    put_distinct(&mut behind, numbers)
}

// The error of a catch part goes into a local for errors.
fn takes_error(class: &Class, error: Option<u32>) -> bool
    ensures { result ≡ takes_error (class_of class.now) error }
{
    match error {
        Some(number) => match class.locals.get(number as usize) {
            Some(ty) => is_error(ty),
            None => false,
        },
        None => true,
    }
}

fn is_error(ty: &Ty) -> bool
    ensures { result ≡ same_type ErrorType (type_of ty.now) }
{
    match ty {
        Ty::Error => true,
        Ty::Int | Ty::Bool | Ty::Str | Ty::Void | Ty::Named(_) | Ty::Vector(_) => false,
        Ty::Future(_) | Ty::FutureStream(_) | Ty::Promise(_) | Ty::PromiseStream(_) => false,
    }
}

fn catches(
    alloc: Global,
    class: &Class,
    number: usize,
    catcher: &Option<Catcher>,
) -> Result<bool, NoMemory>
    ensures { IfOk result (λ b. b ≡ catches (class_of class.now) number
        (option_map catcher_of catcher.now)) }
{
    let Some(catcher) = catcher else {
        return Ok(true);
    };
    let forward = number < catcher.block as usize && takes_error(class, catcher.error);
    Ok(forward && are_distinct(alloc, &catcher.drops)?)
}

fn all_catch(alloc: Global, class: &Class, blocks: &[Block]) -> Result<bool, NoMemory>
    ensures { IfOk result (λ b. b ≡ all_blocks
        (λ n (b : BlockTree). catches (class_of class.now) n b.catcher) 0
        (map block_of blocks.now)) }
{
    for number in 0..blocks.len() {
        if !catches(alloc, class, number, &blocks[number].catcher)? {
            return Ok(false);
        }
    }
    Ok(true)
}

/// Whether each catch part leads to a block of greater number, has a local for its error, and drops distinct locals.
pub fn catchers_kept(alloc: Global, class: &Class) -> Result<bool, NoMemory>
    ensures { IfOk result (λ b. b ≡ catchers_kept (class_of class.now)) }
{
    all_catch(alloc, class, &class.blocks)
}
