// Blocks, one after another.

ghost use Rattle.std.specs.Prelude.{◌≡◌, suc, ◌+◌, true, false, [], ◌∷◌, ◌++◌, map, length, IfOk, OnOk};
ghost use Rattle.flow_tree.specs.StmtView.{into_of};
ghost use Rattle.flow_class.specs.Classes.{GotoLast, DropInstr};
ghost use Rattle.flow_class.specs.View.{instr_of, last_of, catcher_of};
ghost use Rattle.flow_class.specs.Scopes.{scope};
ghost use Rattle.flow_catch.specs.Inner.{inner_locals, left_lists};
ghost use Rattle.std.specs.Option.{option_map};
ghost use Rattle.std.specs.declared.option.Option.TheVariants.{Some};
ghost use Rattle.flow_split.specs.Contexts.{names_in, slots_in, jump_of, around_of};
ghost use Rattle.flow_split.specs.Lowered.{catch_part, drop_of, cancelled, text_end, place_in, taken_in};
ghost use Rattle.flow_split.specs.Emitting.{emitted, in_scope, out_of_scope, in_catch, opened, put, acted, closed, closed_end, ended_by, left_loop, shut_by, declaring, taking};

use crate::around::{Around, Exit, Handler, Jump};
use crate::context::Context;
use crate::counts::sum;
use flow_base::memory::NoMemory;
use flow_base::name::Name;
use flow_base::place::Place;
use flow_catch::catcher::catcher;
use flow_catch::scopes::Scopes;
use flow_class::class::{Block, Catcher, Group, Instr, Last, Slotted};
use flow_tree::expr::Expr;
use flow_tree::stmt::Into;
use flow_tree::ty::Ident;
use std::alloc::Global;

/// The locals in force and the number of the next one; the blocks and groups so far; whether a block
/// is open, whether a statement stands in it, and its instructions.
#[derive(Drop)]
pub struct Emitter {
    pub alloc: Global,
    pub scopes: Scopes,
    pub next: u32,
    pub blocks: Vec<Block>,
    pub groups: Vec<Group>,
    pub is_open: bool,
    pub acts: bool,
    pub body: Vec<Instr>,
}

impl Jump {
    /// The last instruction of a block.
    pub fn last(self) -> Last
        ensures { last_of result ≡ jump_of self }
    {
        match self {
            Jump::Goto(block) => Last::Goto(block),
            Jump::Pass(block) => Last::Pass(block),
        }
    }
}

// The end of a text, which nothing reaches.
fn cancelled(alloc: Global, close: Place) -> Result<Last, NoMemory>
    ensures { IfOk result (λ l. last_of l ≡ cancelled close) }
{
    Ok(Last::Throw(Expr::Call(
        Ident {
            name: Name::new(alloc, b"operation_cancelled")?,
            at: close,
        },
        Vec::new(alloc),
    )))
}

// The end of a text: of one that ends at a brace, or of that of a void actor.
fn text_end(alloc: Global, close: Option<Place>) -> Result<Last, NoMemory>
    ensures { IfOk result (λ l. last_of l ≡ text_end close) }
{
    match close {
        Some(close) => cancelled(alloc, close),
        None => Ok(Last::Return(None)),
    }
}

// The number of a thing behind so many. No memory holds so many that there is none.
fn number(things: usize) -> Result<u32, NoMemory>
    ensures { IfOk result (λ n. n ≡ suc things) }
{
    match u32::try_from(things) {
        Ok(things) => sum(things, 1),
        Err(_) => Err(NoMemory),
    }
}

impl Emitter {
    /// No blocks yet, and the first one is open.
    pub fn new(alloc: Global) -> Emitter
        ensures { emitted result ≡ record {
          scopes = [];
          next = 0;
          blocks = [];
          groups = [];
          is_open = true;
          acts = false;
          body =
              [];
        } }
    {
        Emitter {
            alloc,
            scopes: Scopes::new(alloc),
            next: 0,
            blocks: Vec::new(alloc),
            groups: Vec::new(alloc),
            is_open: true,
            acts: false,
            body: Vec::new(alloc),
        }
    }

    /// The number of the block behind the one at hand.
    pub fn block(&self) -> Result<u32, NoMemory>
        ensures { IfOk result (λ n. n ≡ suc (length (emitted self.now).blocks)) }
    {
        number(self.blocks.len())
    }

    /// The number of the next group.
    pub fn group(&self) -> Result<u32, NoMemory>
        ensures { IfOk result (λ n. n ≡ suc (length (emitted self.now).groups)) }
    {
        number(self.groups.len())
    }

    /// A scope begins.
    pub fn enter(&mut self) -> Result<(), NoMemory>
        ensures { OnOk result (emitted self.new ≡ in_scope (emitted self.old)) }
    {
        self.scopes.enter()
    }

    /// The innermost scope ends.
    pub fn leave(&mut self)
        ensures { emitted self.new ≡ out_of_scope (emitted self.old) }
    {
        self.scopes.leave();
    }

    /// The scope of a catch begins, with the local that takes the error.
    pub fn enter_catch(&mut self, error: &Name) -> Result<(), NoMemory>
        ensures { OnOk result (emitted self.new ≡ in_catch error.now (emitted self.old)) }
    {
        self.scopes.enter()?;
        self.scopes.declare(self.alloc, error, self.next)?;
        self.next = sum(self.next, 1)?;
        Ok(())
    }

    /// A block begins.
    pub fn begin(&mut self)
        ensures { emitted self.new ≡ opened (emitted self.old) }
    {
        self.is_open = true;
    }

    /// An instruction of a statement.
    pub fn act(&mut self, instr: Instr) -> Result<(), NoMemory>
        ensures { OnOk result (emitted self.new ≡ acted (instr_of instr ∷ []) (emitted self.old)) }
    {
        self.body.push(instr)?;
        self.acts = true;
        Ok(())
    }

    // The catch part of the block at hand where there is a handler: the locals in force that its try
    // body declared are dropped.
    fn part(&self, handler: Handler, depth: usize) -> Result<Catcher, NoMemory>
        ensures { IfOk result (λ c. catcher_of c
            ≡ record {
              block = handler.block;
              error = Some handler.error;
              drops = inner_locals depth
                  self.now.scopes;
            }) }
    {
        let inner = self.scopes.inner(self.alloc, depth)?;
        catcher(self.alloc, &inner, handler.block, Some(handler.error))
    }

    // What the block at hand has as its catch part. A block in which no statement stands has none.
    fn caught(&self, around: &Around) -> Result<Option<Catcher>, NoMemory>
        ensures { IfOk result (λ c. option_map catcher_of c
            ≡ catch_part self.now.acts (around_of around.now).hand
            (inner_locals around.now.depth self.now.scopes)) }
    {
        match around.handler {
            Some(handler) => {
                if self.acts {
                    Ok(Some(self.part(handler, around.depth)?))
                } else {
                    Ok(None)
                }
            }
            None => Ok(None),
        }
    }

    // The block at hand ends so, with this catch part.
    fn push_block(&mut self, catcher: Option<Catcher>, last: Last) -> Result<(), NoMemory>
        ensures { OnOk result (emitted self.new ≡ record (emitted self.old) {
          blocks = (emitted self.old).blocks ++ record {
            catcher = option_map catcher_of catcher;
            body = (emitted self.old).body;
            last = last_of last;
          } ∷ [];
          is_open = false;
          acts = false;
          body = [];
        }) }
    {
        let body = std::mem::replace(&mut self.body, Vec::new(self.alloc));
        self.blocks.push(Block {
            catcher,
            body,
            last,
        })?;
        self.is_open = false;
        self.acts = false;
        Ok(())
    }

    /// The block at hand ends so.
    pub fn close(&mut self, around: &Around, last: Last) -> Result<(), NoMemory>
        ensures { OnOk result (emitted self.new
            ≡ closed (around_of around.now) (last_of last) (emitted self.old)) }
    {
        match self.caught(around) {
            Ok(catcher) => self.push_block(catcher, last),
            Err(error) => {
                // By a call: else the drop is written out here, form by form.
                drop(last);
                Err(error)
            }
        }
    }

    /// The block at hand ends with a statement.
    pub fn close_with(&mut self, around: &Around, last: Last) -> Result<(), NoMemory>
        ensures { OnOk result (emitted self.new
            ≡ closed (around_of around.now) (last_of last) (acted [] (emitted self.old))) }
    {
        self.acts = true;
        self.close(around, last)
    }

    // Locals are dropped, where there are any.
    fn put_drop(&mut self, numbers: Vec<u32>) -> Result<(), NoMemory>
        ensures { OnOk result (emitted self.new ≡ put (drop_of numbers.items) (emitted self.old)) }
    {
        if !numbers.is_empty() {
            self.put_numbers(numbers)?;
        }
        Ok(())
    }

    /// The locals of the innermost scope are dropped, where it has any.
    pub fn drop_scope(&mut self) -> Result<(), NoMemory>
        ensures { OnOk result (emitted self.new
            ≡ put (drop_of (scope self.old.scopes)) (emitted self.old)) }
    {
        let numbers = self.scopes.innermost(self.alloc)?;
        self.put_drop(numbers)
    }

    /// The end of a body.
    pub fn finish(&mut self, around: &Around) -> Result<(), NoMemory>
        ensures { OnOk result (emitted self.new
            ≡ closed_end (around_of around.now) (emitted self.old)) }
    {
        match around.exit {
            Exit::Text(close) => {
                let last = text_end(self.alloc, close)?;
                self.close(around, last)
            }
            Exit::Scope(jump) => {
                self.drop_scope()?;
                self.close(around, jump.last())
            }
            Exit::Part(jump) => self.close(around, jump.last()),
        }
    }

    /// The end of a body, where a block is still open.
    pub fn finish_open(&mut self, around: &Around) -> Result<(), NoMemory>
        ensures { OnOk result (emitted self.new
            ≡ ended_by (around_of around.now) (emitted self.old)) }
    {
        if self.is_open {
            self.finish(around)
        } else {
            Ok(())
        }
    }

    // These locals are dropped.
    fn put_numbers(&mut self, numbers: Vec<u32>) -> Result<(), NoMemory>
        ensures { OnOk result (emitted self.new
            ≡ put (DropInstr numbers.items ∷ []) (emitted self.old)) }
    {
        self.body.push(Instr::Drop(numbers))?;
        Ok(())
    }

    // The scopes up to the loop are left, each with its drop.
    #[tactic(auto, using(crate::proofs::Drops::drops_next, crate::proofs::Drops::drops_end))]
    fn drop_scopes(&mut self, depth: usize) -> Result<(), NoMemory>
        ensures { OnOk result (emitted self.new
            ≡ put (map DropInstr (left_lists depth self.old.scopes)) (emitted self.old)) }
    {
        for numbers in self.scopes.left(self.alloc, depth)? {
            self.put_numbers(numbers)?;
        }
        Ok(())
    }

    // The drops of a `break` or a `continue`, and its jump.
    fn leave_scopes(&mut self, around: &Around, jump: Jump) -> Result<(), NoMemory>
        ensures { OnOk result (emitted self.new
            ≡ left_loop (around_of around.now) (jump_of jump) (emitted self.old)) }
    {
        self.drop_scopes(around.looped.depth)?;
        self.close(around, jump.last())
    }

    /// A `break` or a `continue` with this jump: out of a try body it goes to a block outside first.
    pub fn exit_loop(&mut self, around: &Around, jump: Jump) -> Result<(), NoMemory>
        ensures { OnOk result (emitted self.new
            ≡ shut_by (around_of around.now) (jump_of jump) (emitted self.old)) }
    {
        if around.looped.tried {
            let outside = self.block()?;
            self.close(around, Last::Goto(outside))?;
            self.begin();
            self.leave_scopes(around, jump)
        } else {
            self.leave_scopes(around, jump)
        }
    }

    /// The place that a variable gets by its declaration: its slot, or the next local.
    pub fn place(&self, context: &Context, into: &Into, next: u32) -> Option<Slotted>
        ensures { result ≡ place_in (names_in context.now) (slots_in context.now) (into_of into.now)
            next self.now.scopes }
    {
        if into.state {
            context.place_of(&self.scopes, into.name.name.bytes())
        } else {
            Some(Slotted::Local(next))
        }
    }

    /// The place that the variable of a wait gets, where it has one.
    pub fn place_maybe(&self, context: &Context, into: &Option<Into>, next: u32) -> Option<Slotted>
        ensures { result ≡ taken_in (names_in context.now) (slots_in context.now)
            (option_map into_of into.now) next self.now.scopes }
    {
        match into {
            None => None,
            Some(into) => self.place(context, into, next),
        }
    }

    /// A declared variable is in force from now on.
    pub fn declare(&mut self, into: &Into) -> Result<(), NoMemory>
        ensures { OnOk result (emitted self.new ≡ declaring (into_of into.now) (emitted self.old)) }
    {
        if !into.state {
            self.scopes.declare(self.alloc, &into.name.name, self.next)?;
            self.next = sum(self.next, 1)?;
        }
        Ok(())
    }

    /// The variable of a wait is in force from now on.
    pub fn declare_maybe(&mut self, into: &Option<Into>) -> Result<(), NoMemory>
        ensures { OnOk result (emitted self.new
            ≡ taking (option_map into_of into.now) (emitted self.old)) }
    {
        match into {
            None => Ok(()),
            Some(into) => self.declare(into),
        }
    }
}
