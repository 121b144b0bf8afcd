// The rule V8: no place is read while it is empty.
//
// A class may have many blocks and many places. So 64 places are followed at a time: for each block it is kept which of them may be
// empty where it begins, and each block is passed again as long as there are more.

ghost use Rattle.std.specs.Prelude.{◌≡◌, ◌<◌, ℕ, [], ◌∷◌, ◌++◌, map, length, IfOk, IfSome, Some, true, ◌^◌};
ghost use Rattle.std.specs.Option.{option_map};
ghost use Rattle.flow_class.specs.View.{class_of, catcher_of, last_of, callback_of};
ghost use Rattle.flow_valid.specs.Named.{names_exist};
ghost use Rattle.flow_validate.specs.Sizes.{HasFewPlaces};
ghost use Rattle.flow_valid.specs.Named.{listed};
ghost use Rattle.flow_valid.specs.Filling.{among, is_error, ReadsFilled};
ghost use Rattle.flow_class.specs.Classes.{ClassTree};
ghost use Rattle.flow_class.specs.Classes as last;
ghost use Rattle.flow_validate.specs.Following.{AreBits, place_in};
ghost use Rattle.flow_validate.specs.WalkStates.{standing, widened, AnyBit, plain_way, handler_ways, branch_way, last_ways, Entered, HoldsTouches, PassesOr, AreWalks, IsFilled, FilledOr, nothing_entered, AreFilledBelow};

use crate::touch::{Touches, group_of};
use crate::window::{Passage, Window};
use flow_base::memory::NoMemory;
use flow_class::class::{Block, Callback, Catcher, Class, Last, Slotted};
use std::alloc::Global;

// Where walks lead while 64 places are followed: which of them may be empty where a block begins, for those blocks to which a walk
// leads, and the blocks that are still to be passed.
#[derive(Drop)]
pub struct Walks {
    pub entries: Vec<Option<u64>>,
    pub todo: Vec<u32>,
}

// What an entry becomes if these places may be empty too; nothing, if it says so.
fn joined(before: u64, empty: u64) -> Option<u64>
    ensures becomes { result ≡ widened (Some before) empty }
    ensures small { IfSome result (λ n. n < 2 ^ 64) }
{
    let all = before | empty;
    if all == before { None } else { Some(all) }
}

fn widened(entry: Option<u64>, empty: u64) -> Option<u64>
    ensures becomes { result ≡ widened entry empty }
    ensures small { IfSome result (λ n. n < 2 ^ 64) }
{
    match entry {
        Some(before) => joined(before, empty),
        None => Some(empty),
    }
}

// Whether one of 64 bits is set.
fn is_any(bits: u64) -> bool
    ensures { AnyBit bits result }
{
    if bits == 0 {
        return false;
    }
    true
}

impl Walks {
    // A walk leads to a block with these places empty.
    fn enter(&mut self, block: u32, empty: u64) -> Result<(), NoMemory>
        ensures { IfOk result (λ _. Entered (standing self.old) (standing self.new)
            (plain_way empty block ∷ [])) }
    {
        let number = block as usize;
        if number >= self.entries.len() {
            return Ok(());
        }
        if let Some(all) = widened(self.entries[number], empty) {
            self.entries[number] = Some(all);
            self.todo.push(block)?;
        }
        Ok(())
    }

    // An error leads to its handler.
    fn enter_handler(
        &mut self,
        window: Window,
        class: &Class,
        catcher: &Option<Catcher>,
        thrown: u64,
    ) -> Result<(), NoMemory>
        ensures { IfOk result (λ _. Entered (standing self.old) (standing self.new)
            (handler_ways (class_of class.now) window (option_map catcher_of catcher.now) thrown)) }
    {
        let Some(catcher) = catcher else {
            return Ok(());
        };
        let empty = thrown | window.locals_among(&catcher.drops);
        self.enter(catcher.block, empty & !error_bit(window, catcher.error))
    }

    // A branch is taken.
    fn enter_branch(
        &mut self,
        window: Window,
        callback: &Callback,
        empty: u64,
    ) -> Result<(), NoMemory>
        ensures { IfOk result (λ _. Entered (standing self.old) (standing self.new)
            (branch_way window empty (callback_of callback.now) ∷ [])) }
    {
        self.enter(callback.block, empty & !into_bit(window, callback.into))
    }

    fn enter_branches(
        &mut self,
        window: Window,
        callbacks: &[Callback],
        empty: u64,
    ) -> Result<(), NoMemory>
        ensures { IfOk result (λ _. Entered (standing self.old) (standing self.new)
            (map (branch_way window empty) (map callback_of callbacks.now))) }
    {
        for callback in callbacks {
            self.enter_branch(window, callback, empty)?;
        }
        Ok(())
    }

    // A condition leads to one block or the other.
    fn enter_both(&mut self, holds: u32, fails: u32, empty: u64) -> Result<(), NoMemory>
        ensures { IfOk result (λ _. Entered (standing self.old) (standing self.new)
            (plain_way empty holds ∷ plain_way empty fails ∷ [])) }
    {
        self.enter(holds, empty)?;
        self.enter(fails, empty)
    }

    fn enter_group(
        &mut self,
        window: Window,
        class: &Class,
        group: u32,
        empty: u64,
    ) -> Result<(), NoMemory>
        ensures { IfOk result (λ _. Entered (standing self.old) (standing self.new)
            (last_ways (class_of class.now) window (last.ChooseLast group) empty)) }
    {
        match group_of(class, group) {
            Some(group) => self.enter_branches(window, &group.callbacks, empty),
            None => Ok(()),
        }
    }

    // Where the end of a block leads.
    fn leave(
        &mut self,
        window: Window,
        class: &Class,
        last: &Last,
        empty: u64,
    ) -> Result<(), NoMemory>
        ensures { IfOk result (λ _. Entered (standing self.old) (standing self.new)
            (last_ways (class_of class.now) window (last_of last.now) empty)) }
    {
        match last {
            Last::Goto(block) | Last::Pass(block) => self.enter(*block, empty),
            Last::Test(_, holds, fails) => self.enter_both(*holds, *fails, empty),
            Last::Choose(group) => self.enter_group(window, class, *group, empty),
            Last::Return(_) | Last::Throw(_) => Ok(()),
        }
    }

    // Where a block leads, by its catch part and by its end.
    fn lead(
        &mut self,
        window: Window,
        class: &Class,
        block: &Block,
        passage: Passage,
    ) -> Result<(), NoMemory>
        ensures { IfOk result (λ _. Entered (standing self.old) (standing self.new)
            (handler_ways (class_of class.now) window (option_map catcher_of block.now.catcher)
            passage.thrown ++ last_ways (class_of class.now) window (last_of block.now.last)
            passage.empty)) }
    {
        self.enter_handler(window, class, &block.catcher, passage.thrown)?;
        self.leave(window, class, &block.last, passage.empty)
    }

    // A block is passed; or a place is read in it while it is empty.
    fn pass(
        &mut self,
        window: Window,
        class: &Class,
        touches: &Touches,
        block: u32,
    ) -> Result<bool, NoMemory>
        requires same_length { length self.old.entries.items ≡ length (class_of class.now).blocks }
        requires touches { HoldsTouches (class_of class.now) touches.now }
        ensures { IfOk result (λ filled. PassesOr (class_of class.now) window (standing self.old)
            (standing self.new) block filled) }
    {
        let number = block as usize;
        if number >= self.entries.len() {
            return Ok(true);
        }
        let Some(empty) = self.entries[number] else {
            return Ok(true);
        };
        let passage = Passage::entering(empty).through(window, touches.of_block(number));
        if is_any(passage.misread) {
            return Ok(false);
        }
        self.lead(window, class, &class.blocks[number], passage)?;
        Ok(true)
    }

    // All blocks to which a walk leads are passed; or a place is read while it is empty.
    fn pass_all(
        &mut self,
        window: Window,
        class: &Class,
        touches: &Touches,
    ) -> Result<bool, NoMemory>
        requires touches { HoldsTouches (class_of class.now) touches.now }
        requires walks { AreWalks (class_of class.now) window (standing self.old) }
        ensures { IfOk result (FilledOr (class_of class.now)
            ((j : ℕ) → j < 64 → IsFilled (class_of class.now) (place_in window j))) }
    {
        while let Some(block) = self.todo.pop() {
            if !self.pass(window, class, touches, block)? {
                return Ok(false);
            }
        }
        Ok(true)
    }
}

// The bit of the local that takes an error.
fn error_bit(window: Window, error: Option<u32>) -> u64
    ensures { (c : ClassTree) → AreBits window result (λ p. is_error c p error p) }
{
    match error {
        Some(number) => window.bit(Slotted::Local(number)),
        None => 0,
    }
}

// The bit of the place of a branch.
fn into_bit(window: Window, into: Option<Slotted>) -> u64
    ensures { AreBits window result (among (listed into)) }
{
    match into {
        Some(place) => window.bit(place),
        None => 0,
    }
}

// What the blocks of a class do to places.
fn all_touches(alloc: Global, class: &Class) -> Result<Touches, NoMemory>
    requires few { HasFewPlaces (class_of class.now) }
    requires named { names_exist (class_of class.now) ≡ true }
    ensures { IfOk result (HoldsTouches (class_of class.now)) }
{
    Touches::of(alloc, class, &class.blocks)
}

// No walk leads anywhere yet.
fn no_entries(alloc: Global, blocks: &[Block]) -> Result<Vec<Option<u64>>, NoMemory>
    ensures { IfOk result (λ v. v.items ≡ nothing_entered blocks.now) }
{
    let mut entries = Vec::with_capacity(alloc, blocks.len())?;
    for _ in blocks {
        entries.push(None)?;
    }
    Ok(entries)
}

// Walks that only begin.
fn first_walks(alloc: Global, window: Window, class: &Class) -> Result<Walks, NoMemory>
    ensures { IfOk result (λ s. AreWalks (class_of class.now) window (standing s)) }
{
    let mut walks = Walks {
        entries: no_entries(alloc, &class.blocks)?,
        todo: Vec::new(alloc),
    };
    walks.enter(0, window.without(class.params))?;
    Ok(walks)
}

// Whether none of the places of a window is read while it is empty.
fn window_filled(
    alloc: Global,
    window: Window,
    class: &Class,
    touches: &Touches,
) -> Result<bool, NoMemory>
    requires touches { HoldsTouches (class_of class.now) touches.now }
    ensures { IfOk result (FilledOr (class_of class.now)
        ((j : ℕ) → j < 64 → IsFilled (class_of class.now) (place_in window j))) }
{
    let mut walks = first_walks(alloc, window, class)?;
    walks.pass_all(window, class, touches)
}

// Whether none of so many slots, or locals, is read while it is empty.
fn kind_filled(
    alloc: Global,
    locals: bool,
    count: usize,
    class: &Class,
    touches: &Touches,
) -> Result<bool, NoMemory>
    requires touches { HoldsTouches (class_of class.now) touches.now }
    ensures { IfOk result (FilledOr (class_of class.now)
        (AreFilledBelow (class_of class.now) locals count)) }
{
    for number in 0..count.div_ceil(64) {
        let window = Window {
            locals,
            first: 64 * number as u64,
        };
        if !window_filled(alloc, window, class, touches)? {
            return Ok(false);
        }
    }
    Ok(true)
}

/// Whether no place of a class is read while it is empty.
pub fn reads_filled(alloc: Global, class: &Class) -> Result<bool, NoMemory>
    requires few { HasFewPlaces (class_of class.now) }
    requires named { names_exist (class_of class.now) ≡ true }
    ensures { IfOk result (FilledOr (class_of class.now) (ReadsFilled (class_of class.now))) }
{
    let touches = all_touches(alloc, class)?;
    if !kind_filled(alloc, false, class.slots.len(), class, &touches)? {
        return Ok(false);
    }
    kind_filled(alloc, true, class.locals.len(), class, &touches)
}
