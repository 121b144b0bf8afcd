// The line that words would be, if they are a printed line's.

ghost use Rattle.std.specs.Prelude.{◌≡◌, ◌%◌, ◌^◌, ℕ, ℤ, List, IfOk};
ghost use Rattle.flow_trace.specs.Reading.{bytes_at, quoted_at, number_in, at_least_zero, below_zero, integer_in, number_at, small_at, size_at, process_at, cell_at, actor_at, error_at, name_at, text_at, is_word, answer_from, event_from, edge_from, frame_from, kept_from, send_from, packet_from, print_from, start_from, actor_from, line_from};

use crate::line::Line;
use crate::scan::Word;
use flow_base::ids::{ActorId, CellId, ErrorCode, ProcId};
use flow_base::memory::NoMemory;
use flow_base::name::{Name, is_name};
use flow_base::text::Text;
use std::alloc::Global;

// The bytes of the word at a place, or none.
fn bytes_at(words: &[Word], k: usize) -> &[u8]
    ensures { result.now ≡ bytes_at words.now k }
{
    match words.get(k) {
        Some(word) => word.bytes(),
        None => &[],
    }
}

fn is_quoted(words: &[Word], k: usize) -> bool
    ensures { result ≡ quoted_at words.now k }
{
    match words.get(k) {
        Some(word) => word.is_quoted(),
        None => false,
    }
}

fn is_word(words: &[Word], k: usize, word: &[u8]) -> bool
    ensures { result ≡ is_word words.now k word.now }
{
    bytes_at(words, k) == word
}

// The number that digits spell. Bytes that are none give some number.
fn number_in(word: &[u8]) -> u64
    ensures { result ≡ number_in word.now }
{
    let mut number = 0u64;
    for byte in word {
        number = number
            .wrapping_mul(10)
            .wrapping_add(u64::from(byte.wrapping_sub(b'0')));
    }
    number
}

fn at_least_zero(number: u64) -> i64
    ensures { result ≡ at_least_zero number }
{
    if number < 1 << 63 { number as i64 } else { 0 }
}

fn below_zero(number: u64) -> i64
    ensures { result ≡ below_zero number }
{
    if 0 < number && number <= 1 << 63 {
        !((number - 1) as i64)
    } else {
        0
    }
}

// The number that digits spell, with a sign before them or not.
fn integer_in(word: &[u8]) -> i64
    ensures { result ≡ integer_in word.now }
{
    match word {
        [] => 0,
        [b'-', digits @ ..] => below_zero(number_in(digits)),
        _ => at_least_zero(number_in(word)),
    }
}

fn number_at(words: &[Word], k: usize) -> u64
    ensures { result ≡ number_at words.now k }
{
    number_in(bytes_at(words, k))
}

fn small_at(words: &[Word], k: usize) -> u32
    ensures { result ≡ small_at words.now k }
{
    (number_at(words, k) % (1 << 32)) as u32
}

fn port_at(words: &[Word], k: usize) -> u16
    ensures { result ≡ number_at words.now k % 2 ^ 16 }
{
    (number_at(words, k) % (1 << 16)) as u16
}

fn process_at(words: &[Word], k: usize) -> ProcId
    ensures { result ≡ process_at words.now k }
{
    ProcId((number_at(words, k) % (1 << 8)) as u8)
}

fn cell_at(words: &[Word], k: usize) -> CellId
    ensures { result ≡ cell_at words.now k }
{
    CellId(number_at(words, k))
}

fn actor_at(words: &[Word], k: usize) -> ActorId
    ensures { result ≡ actor_at words.now k }
{
    ActorId(number_at(words, k))
}

fn error_at(words: &[Word], k: usize) -> ErrorCode
    ensures { result ≡ error_at words.now k }
{
    ErrorCode(port_at(words, k))
}

fn name_at(alloc: Global, words: &[Word], k: usize) -> Result<Option<Name>, NoMemory>
    ensures { IfOk result (λ name. name ≡ name_at words.now k) }
{
    let bytes = bytes_at(words, k);
    if is_name(bytes) {
        Ok(Some(Name::new(alloc, bytes)?))
    } else {
        Ok(None)
    }
}

/// The text of the word at a place, if it is short enough for one.
pub(crate) fn text_at(alloc: Global, words: &[Word], k: usize) -> Result<Option<Text>, NoMemory>
    ensures { IfOk result (λ text. text ≡ text_at words.now k) }
{
    let bytes = bytes_at(words, k);
    if bytes.len() <= Text::LIMIT {
        Ok(Some(Text::new(alloc, bytes)?))
    } else {
        Ok(None)
    }
}

// A file's size, or none where the question failed.
fn size_at(words: &[Word], k: usize) -> Option<u32>
    ensures { result ≡ size_at words.now k }
{
    if is_word(words, k, b"fail") {
        None
    } else {
        Some(small_at(words, k))
    }
}

// An answer of the disk.
fn answer_from(alloc: Global, words: &[Word]) -> Result<Option<Line>, NoMemory>
    ensures { IfOk result (λ line. line ≡ answer_from words.now) }
{
    let number = number_at(words, 1);
    let time = number_at(words, 2);
    let process = process_at(words, 4);
    let cell = cell_at(words, 5);
    if is_word(words, 3, b"write") {
        return Ok(Some(Line::Write(number, time, process, cell, is_word(words, 6, b"ok"))));
    }
    if is_word(words, 3, b"sync") {
        return Ok(Some(Line::Sync(number, time, process, cell, is_word(words, 6, b"ok"))));
    }
    if is_word(words, 3, b"size") {
        let size = size_at(words, 6);
        return Ok(Some(Line::Size(number, time, process, cell, size)));
    }
    if !is_word(words, 3, b"read") {
        return Ok(None);
    }
    if !is_quoted(words, 6) {
        return Ok(Some(Line::Read(number, time, process, cell, None)));
    }
    match text_at(alloc, words, 6)? {
        Some(text) => Ok(Some(Line::Read(number, time, process, cell, Some(text)))),
        None => Ok(None),
    }
}

// An event of one process.
fn event_from(alloc: Global, words: &[Word]) -> Result<Option<Line>, NoMemory>
    ensures { IfOk result (λ line. line ≡ event_from words.now) }
{
    let number = number_at(words, 1);
    let time = number_at(words, 2);
    let process = process_at(words, 4);
    if is_word(words, 3, b"boot") {
        return Ok(Some(Line::Boot(number, time, process)));
    }
    if is_word(words, 3, b"kill") {
        return Ok(Some(Line::Kill(number, time, process)));
    }
    if is_word(words, 3, b"stop") {
        return Ok(Some(Line::Stop(number, time, process)));
    }
    if is_word(words, 3, b"cut") {
        return Ok(Some(Line::Cut(number, time, process, process_at(words, 5))));
    }
    if is_word(words, 3, b"heal") {
        return Ok(Some(Line::Heal(number, time, process, process_at(words, 5))));
    }
    if is_word(words, 3, b"diskfail") {
        return Ok(Some(Line::DiskFail(number, time, process, small_at(words, 5))));
    }
    if is_word(words, 3, b"timer") {
        return Ok(Some(Line::Timer(number, time, process, cell_at(words, 5))));
    }
    if is_word(words, 3, b"packet") {
        return Ok(Some(Line::Arrival(number, time, process, number_at(words, 5))));
    }
    answer_from(alloc, words)
}

// The first line of a trace, or the last.
fn edge_from(alloc: Global, words: &[Word]) -> Result<Option<Line>, NoMemory>
    ensures { IfOk result (λ line. line ≡ edge_from words.now) }
{
    if is_word(words, 0, b"trace") {
        return Ok(Some(Line::Head));
    }
    if is_word(words, 1, b"idle") {
        return Ok(Some(Line::EndIdle));
    }
    if is_word(words, 1, b"bound") {
        return Ok(Some(Line::EndBound));
    }
    if is_word(words, 1, b"spent") {
        return Ok(Some(Line::EndSpent));
    }
    match name_at(alloc, words, 2)? {
        Some(monitor) => Ok(Some(Line::EndStop(monitor))),
        None => Ok(None),
    }
}

// What is told of a frame.
fn frame_from(alloc: Global, words: &[Word]) -> Result<Option<Line>, NoMemory>
    ensures { IfOk result (λ line. line ≡ frame_from words.now) }
{
    let process = process_at(words, 1);
    let actor = actor_at(words, 2);
    if is_word(words, 0, b"callback") {
        return Ok(Some(Line::Callback(process, actor, small_at(words, 3), cell_at(words, 4))));
    }
    if !is_word(words, 0, b"frame") {
        return edge_from(alloc, words);
    }
    match name_at(alloc, words, 3)? {
        Some(class) => Ok(Some(Line::Frame(process, actor, class, small_at(words, 4)))),
        None => Ok(None),
    }
}

// What the disk kept of a write.
fn kept_from(alloc: Global, words: &[Word]) -> Result<Option<Line>, NoMemory>
    ensures { IfOk result (λ line. line ≡ kept_from words.now) }
{
    match text_at(alloc, words, 1)? {
        Some(file) => Ok(Some(Line::Kept(
            file,
            small_at(words, 2),
            small_at(words, 3),
            small_at(words, 4),
        ))),
        None => Ok(None),
    }
}

// A packet that is sent.
fn send_from(alloc: Global, words: &[Word]) -> Result<Option<Line>, NoMemory>
    ensures { IfOk result (λ line. line ≡ send_from words.now) }
{
    match text_at(alloc, words, 4)? {
        Some(text) => Ok(Some(Line::Send(
            number_at(words, 1),
            process_at(words, 2),
            port_at(words, 3),
            text,
        ))),
        None => Ok(None),
    }
}

// What happens to a packet or a write.
fn packet_from(alloc: Global, words: &[Word]) -> Result<Option<Line>, NoMemory>
    ensures { IfOk result (λ line. line ≡ packet_from words.now) }
{
    if is_word(words, 0, b"send") {
        return send_from(alloc, words);
    }
    if is_word(words, 0, b"lost") {
        let packet = number_at(words, 1);
        if is_word(words, 2, b"cut") {
            return Ok(Some(Line::LostCut(packet)));
        }
        return Ok(Some(Line::LostDraw(packet)));
    }
    if is_word(words, 0, b"discard") {
        return Ok(Some(Line::Discard(number_at(words, 1))));
    }
    if is_word(words, 0, b"kept") {
        return kept_from(alloc, words);
    }
    frame_from(alloc, words)
}

// What an actor prints.
fn print_from(alloc: Global, words: &[Word]) -> Result<Option<Line>, NoMemory>
    ensures { IfOk result (λ line. line ≡ print_from words.now) }
{
    let actor = actor_at(words, 1);
    if !is_quoted(words, 2) {
        if is_word(words, 2, b"true") {
            return Ok(Some(Line::PrintBool(actor, true)));
        }
        if is_word(words, 2, b"false") {
            return Ok(Some(Line::PrintBool(actor, false)));
        }
        return Ok(Some(Line::PrintInt(actor, integer_in(bytes_at(words, 2)))));
    }
    match text_at(alloc, words, 2)? {
        Some(text) => Ok(Some(Line::PrintText(actor, text))),
        None => Ok(None),
    }
}

// An actor that starts.
fn start_from(alloc: Global, words: &[Word]) -> Result<Option<Line>, NoMemory>
    ensures { IfOk result (λ line. line ≡ start_from words.now) }
{
    match name_at(alloc, words, 2)? {
        Some(class) => Ok(Some(Line::Start(actor_at(words, 1), class))),
        None => Ok(None),
    }
}

// What an actor does.
fn actor_from(alloc: Global, words: &[Word]) -> Result<Option<Line>, NoMemory>
    ensures { IfOk result (λ line. line ≡ actor_from words.now) }
{
    let actor = actor_at(words, 1);
    if is_word(words, 0, b"start") {
        return start_from(alloc, words);
    }
    if is_word(words, 0, b"wait") {
        return Ok(Some(Line::Wait(actor, small_at(words, 2))));
    }
    if is_word(words, 0, b"take") {
        return Ok(Some(Line::Take(actor, small_at(words, 2), small_at(words, 3))));
    }
    if is_word(words, 0, b"throw") {
        return Ok(Some(Line::Throw(actor, error_at(words, 2))));
    }
    if is_word(words, 0, b"catch") {
        return Ok(Some(Line::Catch(actor, error_at(words, 2))));
    }
    if is_word(words, 0, b"fail") {
        return Ok(Some(Line::Fail(actor, error_at(words, 2))));
    }
    if is_word(words, 0, b"done") {
        return Ok(Some(Line::Finish(actor)));
    }
    if is_word(words, 0, b"cancel") {
        return Ok(Some(Line::Cancel(actor)));
    }
    if is_word(words, 0, b"broken") {
        return Ok(Some(Line::Broken(cell_at(words, 1))));
    }
    packet_from(alloc, words)
}

/// The line that these words would be, if they are a printed line's.
pub(crate) fn line_from(alloc: Global, words: &[Word]) -> Result<Option<Line>, NoMemory>
    ensures { IfOk result (λ line. line ≡ line_from words.now) }
{
    if is_word(words, 0, b"event") {
        return event_from(alloc, words);
    }
    if is_word(words, 0, b"print") {
        return print_from(alloc, words);
    }
    actor_from(alloc, words)
}
