// Reading a text in quotes.

ghost use Rattle.std.specs.Prelude.{◌≡◌, ℕ, List, IfOk, Err};
ghost use Rattle.flow_base.specs.Quote.{quoted};
ghost use Rattle.flow_trace.specs.Quote.{IsText, OneSpellingOfTexts};
ghost use Rattle.flow_trace.specs.Reading.{text_in};
ghost use Rattle.flow_trace.specs.declared.fault.LineFault.TheVariants.{Form};

use crate::fault::LineFault;
use crate::quote::quote;
use crate::reading::text_at;
use crate::scan::split_words;
use flow_base::memory::NoMemory;
use flow_base::text::Text;
use std::alloc::Global;

// The text that the bytes would be in quotes, if they are one.
fn guess(alloc: Global, bytes: &[u8]) -> Result<Option<Text>, NoMemory>
    ensures { IfOk result (λ text. text ≡ text_in bytes.now) }
{
    let words = split_words(alloc, bytes)?;
    text_at(alloc, &words, 0)
}

/// Reads a text in quotes. It accepts exactly the bytes that `quote` gives of a text: `Form` comes where
/// no text has these bytes.
pub fn unquote(alloc: Global, bytes: &[u8]) -> Result<Text, LineFault>
    ensures spelled { IfOk result (λ text. bytes.now ≡ quoted text) }
    ensures every { (text : List ℕ) → IsText text → bytes.now ≡ quoted text
        → IfOk result (λ found. found ≡ text) }
    ensures form { result ≡ Err Form
        → (text : List ℕ) → IsText text → bytes.now ≡ quoted text → ⊥ }
{
    let Some(text) = guess(alloc, bytes)? else {
        return Err(LineFault::Form);
    };
    let printed = quote(alloc, text.bytes())?;
    if bytes != printed.as_slice() {
        return Err(LineFault::Form);
    }
    Ok(text)
}

/// Two different texts are spelled differently in quotes.
pub fn one_spelling_of_texts()
    ensures { OneSpellingOfTexts }
{}
