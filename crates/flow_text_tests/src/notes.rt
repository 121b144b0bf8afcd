// Tests of flow_refusal: notes on answers that the program doesn't give, and on those that need none.

use flow_base::memory::NoMemory;
use flow_refusal::note;
use std::alloc::Global;

const FAULTY: &[u8] = b"int f(int n) {\n\tint x = true;\n}\n";

const UNNOTED: [&str; 3] = ["refused K3 at 02:2\n", "ok\n", ""];

// Whether there is no note on an answer about the program `p` with the text above.
fn has_none(alloc: Global, answer: &str) -> Result<bool, NoMemory> {
    let told = note(alloc, answer.as_bytes(), "p", FAULTY, "w", b"")?;
    Ok(told.is_empty())
}

fn first_noted(alloc: Global) -> Result<Option<&'static str>, NoMemory> {
    for answer in &UNNOTED {
        if !has_none(alloc, *answer)? {
            return Ok(Some(*answer));
        }
    }
    Ok(None)
}

#[test]
fn other_answers_have_no_note(rt: HostRuntime) -> Result<(), NoMemory> {
    assert_eq!(rt; first_noted(rt.alloc())?, None);
    Ok(())
}

const OLD: &[u8] =
    b"classes 1\nclass main returns Void params 1 { slot 0 int p; block 0 { return Void(); } }\nclass beat returns void params 0 { block 0 { return; } }\n";

const NEWER: &[u8] =
    b"p:3: C1: no class text goes on so here\nclass beat returns void params 0 { block 0 { return; } }\nhelp: this form stands in a text that begins with `classes 2`\n";

const WRONG: &[u8] = b"classes 1\nclass { }\n";

const GRAMMAR: &[u8] =
    b"p:2: C1: no class text goes on so here\nclass { }\nhelp: see the grammar of class text in docs/FORMATS.md\n";

// Whether this is the note on such an answer about the class text `p`.
fn is_told(alloc: Global, answer: &str, text: &[u8], wanted: &[u8]) -> Result<bool, NoMemory> {
    let told = note(alloc, answer.as_bytes(), "p", text, "w", b"")?;
    Ok(told.as_slice() == wanted)
}

#[test]
fn a_form_tells_its_version(rt: HostRuntime) -> Result<(), NoMemory> {
    assert!(rt; is_told(rt.alloc(), "refused C1 at line 3\n", OLD, NEWER)?);
    assert!(rt; is_told(rt.alloc(), "refused C1 at line 2\n", WRONG, GRAMMAR)?);
    Ok(())
}
