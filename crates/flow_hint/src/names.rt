// Advice by a name that isn't declared, and by a byte that begins no token: what C++ and Flow have and this language hasn't.

use flow_base::name::is_name_byte;

/// Names with what is written instead.
const NAMES: &str = "\
auto|write the type: `int x = ..;`
long|whole numbers are `int`, of 64 bits
short|whole numbers are `int`, of 64 bits
unsigned|whole numbers are `int`, of 64 bits
char|a text is a `string`, a whole number an `int`
size_t|whole numbers are `int`, of 64 bits
int32_t|whole numbers are `int`, of 64 bits
int64_t|whole numbers are `int`, of 64 bits
uint32_t|whole numbers are `int`, of 64 bits
uint64_t|whole numbers are `int`, of 64 bits
Version|whole numbers are `int`, of 64 bits
double|numbers are whole: `int`; time is counted in ticks
float|numbers are whole: `int`; time is counted in ticks
String|a text is a `string`
StringRef|a text is a `string`
Key|a text is a `string`
Value|a text is a `string`
Standalone|a text is a `string`
vector|there is no `std`: write `vector<int>`
std|there is no `std`: a text is a `string`
map|there are no maps: declare a record, or an actor that keeps it
Optional|there is no `Optional`: declare a record with a `bool` in it
Reference|there are no pointers: values are copied
AsyncVar|there is no `AsyncVar`: send through a `PromiseStream`
FlowLock|there is no `FlowLock`: let one actor serve a `PromiseStream` of promises
ActorCollection|keep the futures in a `state vector<Future<Void>>`, or start actors by `ACTOR void`, which nobody holds
RequestStream|between processes: `sendTo(process, port, text);` and `listen(port)`
nullptr|there are no pointers: a future that never comes is `Never()`
NULL|there are no pointers: a future that never comes is `Never()`
this|there are no classes: an actor has its parameters and `state` variables
printf|print one value: `trace(x);`
cout|print one value: `trace(x);`
TraceEvent|print one value: `trace(x);`
ASSERT|`if (!(..)) { throw error(4100); }`
assert|`if (!(..)) { throw error(4100); }`
timeoutError|race it with a `delay`: `choose { when (wait(f)) { } when (wait(delay(5))) { throw timed_out(); } }`
timeout|race it with a `delay`: `choose { when (wait(f)) { } when (wait(delay(5))) { } }`
getAll|wait for one after the other: all go on meanwhile
waitForAll|wait for one after the other: all go on meanwhile
quorum|count the answers: let each actor send to one `PromiseStream`, and `waitNext` so often
success|`try { wait(f); } catch (Error& e) { }`
ready|`try { wait(f); } catch (Error& e) { }`
yield|`wait(delay(0));`
format|put texts together: `\"n = \" + to_string(n)`
stoi|`to_int(s)`
atoi|`to_int(s)`
deterministicRandom|`int n = randomInt(0, 10);`
g_random|`int n = randomInt(0, 10);`
random01|`int n = randomInt(0, 10);`
nondeterministicRandom|`int n = randomInt(0, 10);`
tr|an error is made by its number: `error(1004)`, or by its name: `timed_out()`
internal_error|an error is made by its number: `error(4100)`
io_error|an error is made by its number: `error(1510)`
";

/// Bytes with what is written instead.
const BYTES: &str = "\
#|there are no includes and no macros: leave the line out
?|there is no `? :`: declare the variable, and set it in an `if`
:|there is no `:`: a `case` and `? :` are written with `if`; records have neither constructors nor bases
'|a text stands in double quotes
||the signs are `||` for or, `&&` for and; there are none on bits
^|there are no signs on bits
~|there are no signs on bits
@|leave it out
$|leave it out
`|a text stands in double quotes
";

// What stands behind a key in a table of lines.
fn found(table: &'static str, key: &[u8]) -> Option<&'static str> {
    for line in table.lines() {
        if let Some(rest) = behind(line, key) {
            return Some(rest);
        }
    }
    None
}

// What stands in a line behind this key and a bar.
fn behind(line: &'static str, key: &[u8]) -> Option<&'static str> {
    let (begin, _) = line.split_at_checked(key.len())?;
    if begin.as_bytes() != key {
        return None;
    }
    let (_, rest) = line.split_at_checked(key.len())?;
    rest.strip_prefix('|')
}

/// Advice where nothing has this name.
pub fn name_advice(name: &[u8]) -> Option<&'static str> {
    found(NAMES, name)
}

/// The name with which a text begins.
pub fn name_at(text: &[u8]) -> &[u8] {
    match text.iter().position(|byte| !is_name_byte(*byte)) {
        Some(len) => text.get(..len).unwrap_or(text),
        None => text,
    }
}

// Advice on the `::` in front of a text.
fn scope_advice(behind: &[u8]) -> &'static str {
    match name_advice(name_at(behind)) {
        Some(advice) => advice,
        None => "there is no `::`: of `std::string` write `string`, of `a::b` write `b`",
    }
}

/// Advice where no token begins with the first byte of a text.
pub fn byte_advice(text: &[u8]) -> Option<&'static str> {
    match text {
        [b':', b':', behind @ ..] => Some(scope_advice(behind)),
        [byte, ..] => {
            if *byte > 126 {
                return Some(
                    "a name has ASCII letters, digits and `_`; other letters stand in texts alone",
                );
            }
            found(BYTES, &[*byte])
        }
        [] => None,
    }
}
