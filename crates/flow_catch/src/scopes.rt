// The locals in force.

ghost use Rattle.std.specs.Prelude.{◌≡◌, ◌≤◌, ◌<◌, [], ◌∷◌, ◌++◌, length, take, reverse, IfOk, OnOk};
ghost use Rattle.flow_class.specs.Scopes.{Mark, Var, find, scope, outside};
ghost use Rattle.flow_catch.specs.Inner.{scope_of, inner_locals, listed, lists_of, left_lists};

use crate::entry::Entry;
use flow_base::memory::NoMemory;
use flow_base::name::Name;
use std::alloc::Global;
use std::marker::Model;

/// The locals in force with their numbers, in scopes. Contracts see them newest first, with a mark at
/// the begin of each scope.
#[derive(Drop)]
pub struct Scopes {
    entries: Vec<Entry>,
}

impl Model for Scopes {
    ghost use Rattle.flow_class.specs.Scopes.{Scope};
    ghost use Rattle.flow_catch.specs.Inner.{scope_of};

    ghost Value = { Scope };

    ghost view = { λ s. scope_of s.entries.items };
}

// How many of the first entries are outside of the innermost scope among them.
fn outer(entries: &[Entry], end: usize) -> usize
    requires { end ≤ length entries.now }
    ensures within { result ≤ end }
    ensures outside { scope_of (take result entries.now)
        ≡ outside (scope_of (take end entries.now)) }
{
    let mut at = end;
    while at > 0 {
        at -= 1;
        if let Entry::Mark = &entries[at] {
            return at;
        }
    }
    at
}

// The locals of the innermost scope among the first entries, newest first.
fn newest(alloc: Global, entries: &[Entry], end: usize) -> Result<Vec<u32>, NoMemory>
    requires { end ≤ length entries.now }
    ensures { IfOk result (λ v. v.items ≡ scope (scope_of (take end entries.now))) }
{
    let mut numbers = Vec::new(alloc);
    let mut at = end;
    while at > 0 {
        at -= 1;
        match &entries[at] {
            Entry::Mark => return Ok(numbers),
            Entry::Var(_, number) => numbers.push(*number)?,
        }
    }
    Ok(numbers)
}

// A list at the end, where there is something in it.
fn add_list(lists: &mut Vec<Vec<u32>>, numbers: Vec<u32>) -> Result<(), NoMemory>
    ensures { OnOk result (lists_of lists.new.items
        ≡ lists_of lists.old.items ++ listed numbers.items []) }
{
    if !numbers.is_empty() {
        lists.push(numbers)?;
    }
    Ok(())
}

impl Scopes {
    /// No locals, outside of all scopes.
    pub fn new(alloc: Global) -> Scopes
        ensures { result ≡ [] }
    {
        Scopes {
            entries: Vec::new(alloc),
        }
    }

    /// A scope begins.
    pub fn enter(&mut self) -> Result<(), NoMemory>
        ensures { OnOk result (self.new ≡ Mark ∷ self.old) }
    {
        self.entries.push(Entry::Mark)?;
        Ok(())
    }

    /// A local is in force from now on.
    pub fn declare(&mut self, alloc: Global, name: &Name, number: u32) -> Result<(), NoMemory>
        ensures { OnOk result (self.new ≡ Var name.now number ∷ self.old) }
    {
        self.entries.push(Entry::Var(name.copy(alloc)?, number))?;
        Ok(())
    }

    /// The innermost scope ends.
    pub fn leave(&mut self)
        ensures { self.new ≡ outside self.old }
    {
        let at = outer(&self.entries, self.entries.len());
        self.entries.truncate(at);
    }

    /// The newest local of a name.
    pub fn find(&self, name: &[u8]) -> Option<u32>
        ensures { result ≡ find self.now name.now }
    {
        let mut at = self.entries.len();
        while at > 0 {
            at -= 1;
            if let Entry::Var(other, number) = &self.entries[at] {
                if name == other.bytes() {
                    return Some(*number);
                }
            }
        }
        None
    }

    /// The locals of the innermost scope, newest first.
    pub fn innermost(&self, alloc: Global) -> Result<Vec<u32>, NoMemory>
        ensures { IfOk result (λ v. v.items ≡ scope self.now) }
    {
        newest(alloc, &self.entries, self.entries.len())
    }

    /// The locals of so many scopes, the innermost ones, in the order of their declaration.
    pub fn inner(&self, alloc: Global, depth: usize) -> Result<Vec<u32>, NoMemory>
        ensures { IfOk result (λ v. v.items ≡ reverse (inner_locals depth self.now)) }
    {
        let mut numbers = Vec::new(alloc);
        let mut at = self.entries.len();
        for _left in 0..depth {
            let mut found = newest(alloc, &self.entries, at)?;
            numbers.append(&mut found)?;
            at = outer(&self.entries, at);
        }
        numbers.reverse();
        Ok(numbers)
    }

    /// The locals of each of so many scopes, the innermost ones, newest first. A scope without locals
    /// has no list.
    pub fn left(&self, alloc: Global, depth: usize) -> Result<Vec<Vec<u32>>, NoMemory>
        ensures { IfOk result (λ v. lists_of v.items ≡ left_lists depth self.now) }
    {
        let mut lists = Vec::new(alloc);
        let mut at = self.entries.len();
        for _left in 0..depth {
            add_list(&mut lists, newest(alloc, &self.entries, at)?)?;
            at = outer(&self.entries, at);
        }
        Ok(lists)
    }
}
