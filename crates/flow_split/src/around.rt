// What is around a body.

ghost use Rattle.std.specs.Prelude.{◌≡◌, ◌+◌, IfOk};
ghost use Rattle.flow_split.specs.Around.{whole, deeper, inner, pass, guarded, handling};
ghost use Rattle.flow_split.specs.Contexts.{jump_of, exit_of, hand_of, looped_of, around_of};

use flow_base::memory::NoMemory;
use flow_base::name::Name;
use flow_base::place::Place;

/// A jump to a block, or the pass of a loop that begins there.
#[derive(Clone, Copy, PartialEq, Eq)]
pub enum Jump {
    Goto(u32),
    Pass(u32),
}

/// How a body goes on at its end: it is the whole text, which ends at a brace that nothing reaches, or
/// else returns, as that of a void actor; or its locals are dropped and a jump follows; or it is a part
/// of a `for`, whose locals stay.
#[derive(Clone, Copy)]
pub enum Exit {
    Text(Option<Place>),
    Scope(Jump),
    Part(Jump),
}

/// The handler of a try body: its block, and the local that takes the error.
#[derive(Clone, Copy)]
pub struct Handler {
    pub block: u32,
    pub error: u32,
}

/// The loop around a body: how many scopes a `break` or a `continue` leaves, whether it leaves a try
/// body, and where each of the two goes on.
#[derive(Clone, Copy)]
pub struct Looped {
    pub depth: usize,
    pub tried: bool,
    pub out: u32,
    pub again: Jump,
}

/// What is around a body: its exit; the handler of its errors and the number of scopes within that
/// try body; its loop; and the variable of the catch around.
#[derive(Drop)]
pub struct Around<'a> {
    pub exit: Exit,
    pub handler: Option<Handler>,
    pub depth: usize,
    pub looped: Looped,
    pub caught: Option<&'a Name>,
}

// So many scopes further in. No tree that memory holds has so many that there is no number for them.
fn further(depth: usize, scopes: usize) -> Result<usize, NoMemory>
    ensures { IfOk result (λ n. n ≡ depth + scopes) }
{
    match depth.checked_add(scopes) {
        Some(depth) => Ok(depth),
        None => Err(NoMemory),
    }
}

impl Looped {
    // One scope further in, within a try body or not.
    fn deeper(&self, tried: bool) -> Result<Looped, NoMemory>
        ensures { IfOk result (λ l. looped_of l
            ≡ record (deeper (looped_of self.now)) { tried = tried }) }
    {
        Ok(Looped {
            depth: further(self.depth, 1)?,
            tried,
            out: self.out,
            again: self.again,
        })
    }
}

impl<'a> Around<'a> {
    /// What is around the text of an actor, which ends at this brace, or returns there.
    pub fn text(close: Option<Place>) -> Around<'a>
        ensures { around_of result ≡ whole close }
    {
        Around {
            exit: Exit::Text(close),
            handler: None,
            depth: 0,
            looped: Looped {
                depth: 0,
                tried: false,
                out: 0,
                again: Jump::Goto(0),
            },
            caught: None,
        }
    }

    /// One scope further in, which goes on with this exit.
    pub fn scope(&self, exit: Exit) -> Result<Around<'a>, NoMemory>
        ensures { IfOk result (λ w. around_of w ≡ inner (around_of self.now) (exit_of exit)) }
    {
        Ok(Around {
            exit,
            handler: self.handler,
            depth: further(self.depth, 1)?,
            looped: self.looped.deeper(self.looped.tried)?,
            caught: self.caught,
        })
    }

    /// The body of a loop, so many scopes further in.
    pub fn pass(&self, scopes: usize, again: Jump, out: u32) -> Result<Around<'a>, NoMemory>
        ensures { IfOk result (λ w. around_of w
            ≡ pass (around_of self.now) scopes (jump_of again) out) }
    {
        Ok(Around {
            exit: Exit::Scope(again),
            handler: self.handler,
            depth: further(self.depth, scopes)?,
            looped: Looped {
                depth: 1,
                tried: false,
                out,
                again,
            },
            caught: self.caught,
        })
    }

    /// A try body.
    pub fn try_body(&self, exit: Exit, handler: Handler) -> Result<Around<'a>, NoMemory>
        ensures { IfOk result (λ w. around_of w
            ≡ guarded (around_of self.now) (exit_of exit) (hand_of handler)) }
    {
        Ok(Around {
            exit,
            handler: Some(handler),
            depth: 1,
            looped: self.looped.deeper(true)?,
            caught: self.caught,
        })
    }

    /// The handler of a catch with this variable.
    pub fn catch_body(&self, exit: Exit, name: &'a Name) -> Result<Around<'a>, NoMemory>
        ensures { IfOk result (λ w. around_of w
            ≡ handling (around_of self.now) (exit_of exit) name.now) }
    {
        Ok(Around {
            exit,
            handler: self.handler,
            depth: further(self.depth, 1)?,
            looped: self.looped.deeper(self.looped.tried)?,
            caught: Some(name),
        })
    }
}
