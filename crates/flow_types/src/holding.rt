// Which records hold a reference.

ghost use Rattle.std.specs.Prelude.{◌≡◌, ℕ, ◌≤◌, length, false, IfOk, ◌<◌, Bool};
ghost use Rattle.std.specs.List.{list_any};
ghost use Rattle.flow_types.specs.Holding.{marked, uses_hold, level, replicated, set_mark, Swept};

use flow_base::memory::NoMemory;
use std::alloc::Global;

/// What a record holds: a reference of its own, and other records, by their numbers.
#[derive(Drop)]
pub struct Uses {
    pub direct: bool,
    pub records: Vec<usize>,
}

/// Whether the record with this number is marked.
pub fn is_marked(marks: &[bool], number: usize) -> bool
    ensures { result ≡ marked marks.now number }
{
    match marks.get(number) {
        Some(mark) => *mark,
        None => false,
    }
}

#[tactic(auto, using(crate::proofs::Levels::any_step, crate::proofs::Levels::any_found, crate::proofs::Levels::any_end))]
fn any_marked(marks: &[bool], numbers: &[usize]) -> bool
    ensures { result ≡ list_any (marked marks.now) numbers.now }
{
    for number in numbers {
        if is_marked(marks, *number) {
            return true;
        }
    }
    false
}

// Whether a record holds a reference, where the marked ones do.
fn uses_hold(uses: &Uses, marks: &[bool]) -> bool
    ensures { result ≡ uses_hold (marked marks.now) uses.now }
{
    uses.direct || any_marked(marks, &uses.records)
}

#[tactic(auto, using(crate::proofs::Levels::set_marked))]
fn mark(marks: &mut Vec<bool>, number: usize)
    requires { number < length marks.old.items }
    ensures { marks.new.items ≡ set_mark marks.old.items number }
{
    marks[number] = true;
}

// Marks, one after another, each record that holds a reference as far as the marks say, and says whether
// one was marked anew.
fn sweep(marks: &mut Vec<bool>, uses: &[Uses]) -> bool
    requires { length marks.old.items ≡ length uses.now }
    ensures length { length marks.new.items ≡ length uses.now }
    ensures swept { Swept uses.now marks.old.items marks.new.items result }
{
    let mut more = false;
    for (number, used) in uses.iter().enumerate() {
        if !is_marked(marks, number) && uses_hold(used, marks) {
            mark(marks, number);
            more = true;
        }
    }
    more
}

#[tactic(auto, using(crate::proofs::Levels::replicated_marks))]
fn unmarked(alloc: Global, count: usize) -> Result<Vec<bool>, NoMemory>
    ensures { IfOk result (λ v. v.items ≡ replicated count) }
{
    Ok(vec![in alloc; false; count]?)
}

/// Of these records those that hold a reference, through however many others.
pub fn settled(alloc: Global, uses: &[Uses]) -> Result<Vec<bool>, NoMemory>
    ensures { IfOk result (λ v. (n : ℕ) → length uses.now ≤ n → (i : ℕ) → marked v.items i
        ≡ level uses.now n i) }
{
    let mut marks = unmarked(alloc, uses.len())?;
    'sweeps: while sweep(&mut marks, uses) {}
    Ok(marks)
}
