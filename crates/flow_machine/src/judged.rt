// Arguments of effects and messages that are in their ranges.

ghost use Rattle.std.specs.Prelude.{◌≡◌, ◌<◌, ◌+◌, ◌^◌, pos, ◌-ℤ◌, IfSome, int_le, nat_le, nat_lt, ◌&&◌, if◌then◌else◌};
ghost use Rattle.std.specs.declared.option.Option.TheVariants.{None, Some};
ghost use Rattle.std.specs.Option.{option_map};
ghost use Rattle.flow_eval.specs.Predefined.{natural};
ghost use Rattle.flow_simdisk.specs.Asks.{ReadCall, WriteCall, SyncCall, SizeCall};
ghost use Rattle.flow_meaning.specs.Effects.{between, is_file, is_port, judged};
ghost use Rattle.flow_saved.specs.Requests.{IsAllowed};
ghost use Rattle.flow_machine.specs.Requests.{IsRange, call_of, asked_of};

use flow_base::ids::ProcId;
use flow_base::text::Text;
use flow_simdisk::{DiskAsk, FILE_BYTES};
use flow_steps::call::DiskCall;

/// The latest time of a timer, in ticks.
const LATEST: u64 = 1 << 62;

/// Where a file ends at the latest, in bytes.
const FURTHEST: u32 = FILE_BYTES as u32;

/// The greatest number of bytes of a file's name.
const NAME_LIMIT: usize = 255;

/// The greatest number of bytes that are read at once.
const READ_LIMIT: u32 = 65535;

/// The greatest width of a range of drawn numbers.
const WIDEST: i64 = 1 << 32;

/// How many numbers a range has, its last one left out, where there are 1 to 2^32.
pub(crate) fn width(lo: i64, hi: i64) -> Option<u64>
    ensures range { IfSome result (λ n. IsRange lo n) }
    ensures exact { result ≡ (if between (hi -ℤ lo) 1 (2 ^ 32)
        then Some (natural (hi -ℤ lo)) else None) }
{
    let width = hi.checked_sub(lo)?;
    if width < 1 || width > WIDEST {
        return None;
    }
    Some(width as u64)
}

/// The time after so many ticks, a negative count being none, where it isn't after 2^62.
pub(crate) fn time_after(now: u64, ticks: i64) -> Option<u64>
    ensures { let time = now + natural ticks in
        result ≡ (if nat_le time (2 ^ 62) then Some time else None) }
{
    let time = now.saturating_add(u64::try_from(ticks).unwrap_or(0));
    if time > LATEST {
        return None;
    }
    Some(time)
}

/// The process of a number, of so many.
pub(crate) fn process(processes: u8, number: i64) -> Option<ProcId>
    ensures below { IfSome result (λ p. p.0 < processes) }
    ensures exact { option_map (λ p. p.0) result
        ≡ (if int_le (pos 0) number && nat_lt (natural number) processes
        then Some (natural number) else None) }
{
    let number = u8::try_from(number).ok()?;
    if number >= processes {
        return None;
    }
    Some(ProcId(number))
}

/// The port of a number.
pub(crate) fn port_of(number: i64) -> Option<u16>
    ensures { result ≡ (if is_port number then Some (natural number) else None) }
{
    u16::try_from(number).ok()
}

// Whether a file may have a name.
fn is_file(name: &Text) -> bool
    ensures { result ≡ is_file name.now }
{
    let length = name.bytes().len();
    1 <= length && length <= NAME_LIMIT
}

// A number from 0 to a last one.
fn within(number: i64, last: u32) -> Option<u32>
    ensures { result ≡ (if between number 0 last then Some (natural number) else None) }
{
    let number = u32::try_from(number).ok()?;
    if number > last {
        return None;
    }
    Some(number)
}

// A read whose arguments are in their ranges.
fn read(file: Text, offset: i64, count: i64) -> Option<DiskAsk>
    ensures allowed { IfSome result (λ a. IsAllowed a) }
    ensures exact { option_map call_of result ≡ judged (ReadCall file offset count) }
{
    if !is_file(&file) {
        return None;
    }
    let offset = within(offset, FURTHEST)?;
    let count = within(count, READ_LIMIT)?;
    Some(DiskAsk::Read(file, offset, count))
}

// A write whose arguments are in their ranges.
fn write(file: Text, offset: i64, text: Text) -> Option<DiskAsk>
    ensures allowed { IfSome result (λ a. IsAllowed a) }
    ensures exact { option_map call_of result ≡ judged (WriteCall file offset text) }
{
    if !is_file(&file) {
        return None;
    }
    let offset = within(offset, FURTHEST)?;
    if offset as usize + text.bytes().len() > FURTHEST as usize {
        return None;
    }
    Some(DiskAsk::Write(file, offset, text))
}

/// A request to a disk whose arguments are in their ranges.
pub(crate) fn judged(call: DiskCall) -> Option<DiskAsk>
    ensures allowed { IfSome result (λ a. IsAllowed a) }
    ensures exact { option_map call_of result ≡ judged (asked_of call) }
{
    match call {
        DiskCall::Read(file, offset, count) => read(file, offset, count),
        DiskCall::Write(file, offset, text) => write(file, offset, text),
        DiskCall::Sync(file) => {
            if !is_file(&file) {
                return None;
            }
            Some(DiskAsk::Sync(file))
        }
        DiskCall::Size(file) => {
            if !is_file(&file) {
                return None;
            }
            Some(DiskAsk::Size(file))
        }
    }
}
