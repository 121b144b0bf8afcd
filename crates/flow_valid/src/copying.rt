// Equal copies of classes.

ghost use Rattle.std.specs.Prelude.{◌≡◌, IfOk, map};
ghost use Rattle.std.specs.Option.{option_map};
ghost use Rattle.flow_class.specs.View.{catcher_of, instr_of, last_of, block_of, callback_of, group_of, class_of, raw_of};

use flow_base::memory::NoMemory;
use flow_class::class::{Block, Callback, Catcher, Class, Group, Instr, Last, RawClasses};
use flow_tree::decl::{FunctionDecl, RecordDecl, Slot};
use flow_tree::expr::{copy_exprs, copy_maybe};
use flow_tree::ty::{Ty, copy_result};
use std::alloc::Global;

// What is copied in lists, and what an equal copy has in common with it.
trait Copied {
    ghost Seen: { Type 0 };

    ghost seen: { Self → Self.Seen };

    fn copied(&self, alloc: Global) -> Result<Self, NoMemory>
        ensures { IfOk result (λ c. Self.seen c ≡ Self.seen self.now) };
}

// Equal things in the same order.
fn copy_all<T: Copied + Drop>(alloc: Global, things: &[T]) -> Result<Vec<T>, NoMemory>
    ensures { IfOk result (λ v. map T.seen v.items ≡ map T.seen things.now) }
{
    let mut copies = Vec::new(alloc);
    for thing in things {
        copies.push(thing.copied(alloc)?)?;
    }
    Ok(copies)
}

fn copy_numbers(alloc: Global, numbers: &[u32]) -> Result<Vec<u32>, NoMemory>
    ensures { IfOk result (λ v. v.items ≡ numbers.now) }
{
    let mut copies = Vec::new(alloc);
    copies.extend_from_slice(numbers)?;
    Ok(copies)
}

fn copy_catcher(alloc: Global, catcher: &Option<Catcher>) -> Result<Option<Catcher>, NoMemory>
    ensures { IfOk result (λ c. option_map catcher_of c ≡ option_map catcher_of catcher.now) }
{
    match catcher {
        None => Ok(None),
        Some(catcher) => Ok(Some(Catcher {
            block: catcher.block,
            error: catcher.error,
            drops: copy_numbers(alloc, &catcher.drops)?,
        })),
    }
}

fn copy_last(alloc: Global, last: &Last) -> Result<Last, NoMemory>
    ensures { IfOk result (λ l. last_of l ≡ last_of last.now) }
{
    match last {
        Last::Goto(block) => Ok(Last::Goto(*block)),
        Last::Pass(block) => Ok(Last::Pass(*block)),
        Last::Test(condition, yes, no) => Ok(Last::Test(condition.copy(alloc)?, *yes, *no)),
        Last::Choose(group) => Ok(Last::Choose(*group)),
        Last::Return(value) => Ok(Last::Return(copy_maybe(alloc, value)?)),
        Last::Throw(error) => Ok(Last::Throw(error.copy(alloc)?)),
    }
}

impl Copied for Instr {
    ghost use Rattle.flow_class.specs.Classes.{InstrTree};
    ghost use Rattle.flow_class.specs.View.{instr_of};

    ghost Seen = { InstrTree };

    ghost seen = { instr_of };

    fn copied(&self, alloc: Global) -> Result<Instr, NoMemory> {
        match self {
            Instr::Set(path, value) => Ok(Instr::Set(path.copy(alloc)?, value.copy(alloc)?)),
            Instr::Effect(path, value) => Ok(Instr::Effect(path.copy(alloc)?, value.copy(alloc)?)),
            Instr::New(place) => Ok(Instr::New(*place)),
            Instr::Act(path, args) => Ok(Instr::Act(path.copy(alloc)?, copy_exprs(alloc, args)?)),
            Instr::Drop(locals) => Ok(Instr::Drop(copy_numbers(alloc, locals)?)),
        }
    }
}

impl Copied for Block {
    ghost use Rattle.flow_class.specs.Classes.{BlockTree};
    ghost use Rattle.flow_class.specs.View.{block_of};

    ghost Seen = { BlockTree };

    ghost seen = { block_of };

    fn copied(&self, alloc: Global) -> Result<Block, NoMemory> {
        Ok(Block {
            catcher: copy_catcher(alloc, &self.catcher)?,
            body: copy_all(alloc, &self.body)?,
            last: copy_last(alloc, &self.last)?,
        })
    }
}

impl Copied for Callback {
    ghost use Rattle.flow_class.specs.Classes.{CallbackTree};
    ghost use Rattle.flow_class.specs.View.{callback_of};

    ghost Seen = { CallbackTree };

    ghost seen = { callback_of };

    fn copied(&self, alloc: Global) -> Result<Callback, NoMemory> {
        Ok(Callback {
            next: self.next,
            operand: self.operand.copy(alloc)?,
            into: self.into,
            block: self.block,
        })
    }
}

impl Copied for Group {
    ghost use Rattle.std.specs.Prelude.{List};
    ghost use Rattle.flow_class.specs.Classes.{CallbackTree};
    ghost use Rattle.flow_class.specs.View.{group_of};

    ghost Seen = { List CallbackTree };

    ghost seen = { group_of };

    fn copied(&self, alloc: Global) -> Result<Group, NoMemory> {
        Ok(Group {
            callbacks: copy_all(alloc, &self.callbacks)?,
        })
    }
}

impl Copied for Slot {
    ghost use Rattle.flow_tree.specs.Decls.{SlotTree};
    ghost use Rattle.flow_tree.specs.DeclView.{slot_of};

    ghost Seen = { SlotTree };

    ghost seen = { slot_of };

    fn copied(&self, alloc: Global) -> Result<Slot, NoMemory> {
        self.copy(alloc)
    }
}

impl Copied for Ty {
    ghost use Rattle.flow_tree.specs.Tree.{TypeTree};
    ghost use Rattle.flow_tree.specs.View.{type_of};

    ghost Seen = { TypeTree };

    ghost seen = { type_of };

    fn copied(&self, alloc: Global) -> Result<Ty, NoMemory> {
        self.copy(alloc)
    }
}

impl Copied for RecordDecl {
    ghost use Rattle.flow_tree.specs.Decls.{RecordTree};
    ghost use Rattle.flow_tree.specs.DeclView.{record_of};

    ghost Seen = { RecordTree };

    ghost seen = { record_of };

    fn copied(&self, alloc: Global) -> Result<RecordDecl, NoMemory> {
        self.copy(alloc)
    }
}

impl Copied for FunctionDecl {
    ghost use Rattle.flow_tree.specs.Decls.{RoutineTree};
    ghost use Rattle.flow_tree.specs.DeclView.{function_of};

    ghost Seen = { RoutineTree };

    ghost seen = { function_of };

    fn copied(&self, alloc: Global) -> Result<FunctionDecl, NoMemory> {
        self.copy(alloc)
    }
}

impl Copied for Class {
    ghost use Rattle.flow_class.specs.Classes.{ClassTree};
    ghost use Rattle.flow_class.specs.View.{class_of};

    ghost Seen = { ClassTree };

    ghost seen = { class_of };

    fn copied(&self, alloc: Global) -> Result<Class, NoMemory> {
        Ok(Class {
            name: self.name.copy(alloc)?,
            returns: copy_result(alloc, &self.returns)?,
            params: self.params,
            slots: copy_all(alloc, &self.slots)?,
            locals: copy_all(alloc, &self.locals)?,
            blocks: copy_all(alloc, &self.blocks)?,
            groups: copy_all(alloc, &self.groups)?,
        })
    }
}

/// Equal records, functions and classes.
pub(crate) fn copy_raw(alloc: Global, raw: &RawClasses) -> Result<RawClasses, NoMemory>
    ensures { IfOk result (λ r. raw_of r ≡ raw_of raw.now) }
{
    Ok(RawClasses {
        records: copy_all(alloc, &raw.records)?,
        functions: copy_all(alloc, &raw.functions)?,
        classes: copy_all(alloc, &raw.classes)?,
    })
}
