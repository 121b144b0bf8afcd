// What the rules ask, in a sentence each.

use flow_base::memory::NoMemory;
use flow_classread::fault::ClassFault;
use flow_tree::fault::{Rule, SourceFault};
use flow_worldfile::WorldFault;
use std::alloc::Global;

/// What is said where a rule of the spelling or the form of a text fails.
fn spelling(number: u8) -> Option<&'static str> {
    let words = match number {
        1 => "S1: no token begins with this byte, or a quoted text may not hold it",
        2 => "S2: this quoted text isn't closed on its line",
        3 => "S3: this comment isn't closed",
        4 => "S4: this number is too large, or this name or text too long",
        5 => "S5: no program goes on so here",
        _ => return None,
    };
    Some(words)
}

/// What is said where a limit is passed.
fn limit(number: u8) -> Option<&'static str> {
    let words = match number {
        1 => "L1: a program has at most 1,048,576 bytes",
        2 => "L2: a program has at most 200,000 tokens",
        3 => "L3: a program has at most 4,096 declarations",
        4 => "L4: a function or an actor has at most 10,000 statements",
        5 => "L5: nothing stands more than 64 deep",
        6 => "L6: a declaration has at most 1,000 parameters and state variables, or fields",
        7 => "L7: a choose has at most 64 branches",
        8 => "L8: a record is at most 16 deep in others, with at most 1,024 plain fields in all",
        9 => "L9: this actor weighs more than 60,000; split it",
        _ => return None,
    };
    Some(words)
}

/// What is said where a rule of the meaning of a program fails.
fn meaning(number: u8) -> Option<&'static str> {
    let words = match number {
        1 => "K1: nothing of this name is declared here",
        2 => "K2: this name is declared already, or predefined",
        3 => "K3: a value of another type is needed",
        4 => "K4: this call has too few or too many arguments",
        5 =>
            "K5: an effect may only be a whole right side, a whole operand of a wait, or a statement",
        6 =>
            "K6: a function may hold no state or reference, have no effect, and not read the clock",
        7 => "K7: a variable of this type needs a value",
        8 => "K8: the end of this body can be reached without a return",
        9 => "K9: `break` and `continue` need a loop around them, and `throw;` a catch",
        10 => "K10: only an actor can wait",
        11 => "K11: a program needs an actor `ACTOR Future<Void> main(int p)`",
        12 => "K12: what this call gives would be lost; wait for it or keep it",
        _ => return None,
    };
    Some(words)
}

/// What is said where a rule on a program fails. `None` where there is no rule of this number.
pub fn rule_words(rule: Rule) -> Option<&'static str> {
    match rule {
        Rule::S(number) => spelling(number),
        Rule::L(number) => limit(number),
        Rule::K(number) => meaning(number),
    }
}

/// What is said where a local is used behind a wait.
pub const ACROSS_WAIT: &str =
    "U1: a wait since its declaration loses what this local holds; declare it with `state`";

/// What is said where a rule on classes fails.
fn validity(number: u8) -> Option<&'static str> {
    let words = match number {
        1 => "V1: a record or a function breaks one of the rules K1 to K10, K12 and L8",
        2 =>
            "V2: a class has a name that is taken, an unknown type or too few slots, or there is no right `main`",
        3 => "V3: a slot, local, group or block that is named isn't there",
        4 => "V4: a `goto` or `test` has to lead to blocks of greater number",
        5 => "V5: each group has to be chosen by exactly one `choose`",
        6 => "V6: a catch part has to name a later block, a local for errors, and distinct locals",
        7 =>
            "V7: an expression or what takes its value doesn't fit its type, or an effect its place",
        8 => "V8: a slot or local may be read while it is empty",
        _ => return None,
    };
    Some(words)
}

// What is said where no class text begins so, and where one has too many bytes.
const CLASS_FORM: &str = "C1: no class text goes on so here";

const CLASS_BYTES: &str = "L11: a class text has at most 16,777,216 bytes";

/// What is said where a rule on a class text fails. `None` where there is no rule of this number.
pub fn class_words(fault: &ClassFault) -> Option<&'static str> {
    match fault {
        ClassFault::Form(_) => Some(CLASS_FORM),
        ClassFault::Invalid { rule, .. } => validity(*rule),
        ClassFault::TooLarge => Some(CLASS_BYTES),
        ClassFault::OutOfMemory => None,
    }
}

/// What is said where a rule on a world file fails.
pub fn world_words(fault: WorldFault) -> &'static str {
    match fault {
        WorldFault::Form(_) => "W1: no line of a world file looks so",
        WorldFault::Range(_) =>
            "W2: a number is out of its range, or there are too many such lines",
        WorldFault::Twice(_) => "W3: an earlier line says this already",
        WorldFault::NoProcess(_) => "W4: there is no process of this number",
        WorldFault::TooLarge => "L10: a world file has at most 1,048,576 bytes",
        WorldFault::OutOfMemory => "",
    }
}

/// What is said where a script has too many lines to be made smaller.
pub const SCRIPT_WORDS: &str = "L13: a script that is cut down has at most 200 lines";

/// How each rule is mended.
const MENDS: &str = "\
S1|write other bytes in a text as `\\x41`
S2|close the text on its line; `\\n` is a line feed
S3|close it with `*/`
S4|use a smaller number, a name of 255 bytes at most, a text of 65,535
S5|write what is expected there; what is missing may stand before the mark
K1|declare it before, or mend its name; a method needs a value of its type
K2|choose another name
K3|give a value of the type that is needed
K4|give as many arguments as are declared
K5|keep it in a variable first
K6|make it an actor
K7|give it a value
K8|end with `return Void();`
K9|move it into the loop or the handler
K10|make the function an actor
K11|add `ACTOR Future<Void> main(int p) { .. }`
K12|wait for it, or keep it in a variable
U1|declare it so, or after the wait
L1|split the program
L2|split the program
L3|split the program
L4|move a part into another actor or function
L5|name a part by a variable
L6|put some into a record of their own
L7|wait for some of them in an actor of their own
L8|flatten the records
L9|move a part into another actor
L10|shorten the script
L11|compile a smaller program
L13|take half of the lines out by hand, and keep the half that still stops
C1|see the grammar of class text in docs/FORMATS.md
V1|mend it as in a program
V2|rename the class, or mend its head
V3|name one that is
V4|go back by `pass`
V5|give each its group
V6|name a block further on, and drop each local once
V7|give a value of the type that is needed
V8|fill it on each way
W1|see the lines of a world file in docs/FORMATS.md
W2|keep to the range of its word
W3|keep one of them
W4|raise `processes`, or name another
";

/// How the rule of this name is mended.
pub fn mend_words(key: &str) -> Option<&'static str> {
    for line in MENDS.lines() {
        if let Some((rule, words)) = line.split_once('|') {
            if rule == key {
                return Some(words);
            }
        }
    }
    None
}

/// The name of the rule that a program breaks.
pub fn program_key(alloc: Global, fault: &SourceFault) -> Result<String, NoMemory> {
    match fault {
        SourceFault::Refused { rule, .. } => match rule {
            Rule::S(number) => Ok(format!(in alloc; "S{number}")?),
            Rule::L(number) => Ok(format!(in alloc; "L{number}")?),
            Rule::K(number) => Ok(format!(in alloc; "K{number}")?),
        },
        SourceFault::AcrossWait { .. } => Ok("U1".to_string(alloc)?),
        SourceFault::OutOfMemory => Ok(String::new(alloc)),
    }
}

/// The name of the rule that a class text breaks.
pub fn class_key(alloc: Global, fault: &ClassFault) -> Result<String, NoMemory> {
    match fault {
        ClassFault::Form(_) => Ok("C1".to_string(alloc)?),
        ClassFault::Invalid { rule, .. } => Ok(format!(in alloc; "V{rule}")?),
        ClassFault::TooLarge => Ok("L11".to_string(alloc)?),
        ClassFault::OutOfMemory => Ok(String::new(alloc)),
    }
}

/// The name of the rule that a world file breaks.
pub fn world_key(fault: WorldFault) -> &'static str {
    match fault {
        WorldFault::Form(_) => "W1",
        WorldFault::Range(_) => "W2",
        WorldFault::Twice(_) => "W3",
        WorldFault::NoProcess(_) => "W4",
        WorldFault::TooLarge => "L10",
        WorldFault::OutOfMemory => "",
    }
}

/// How the commands are called.
pub const USAGE: &str = "\
flow check PROGRAM                   judges a program: `ok`, or the first rule that it breaks
flow compile PROGRAM                 writes the classes that a program is compiled to
flow format PROGRAM                  writes a program in its canonical form
flow run PROGRAM WORLD [OPTIONS]     runs a program in a world and writes the trace
flow exec CLASSES WORLD [OPTIONS]    runs classes that `compile` wrote
flow bench CLIENTS SEED              runs a generated program and writes how much it did
flow shrink PROGRAM WORLD [OPTIONS]  cuts a world's script down to what stops `--monitor NAME=LIMIT`
flow debug PROGRAM WORLD K           writes where the actors are after K events, and their variables
flow upgrade CLASSES                 writes a class text anew, in the newest version
Options: `--frames` writes the frames and callbacks after each event; `--monitor NAME=LIMIT,..`
stops at a monitor's limit: `live`, how many actors live; `errors`, how many errors are thrown;
`until`, the number of an event. Behind `--` a name may begin with `-`.
";
