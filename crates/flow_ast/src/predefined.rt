// Names that are known without a declaration.

ghost use Rattle.std.specs.Prelude.{◌≡◌, map};
ghost use Rattle.flow_ast.specs.TypingNames.{named, call_names, method_names, constant_names};

use flow_base::errors::{BROKEN_PROMISE, END_OF_STREAM, OPERATION_CANCELLED, TIMED_OUT};

/// What is called by a predefined name without a base: a call, an effect, or a statement call.
#[derive(Clone, Copy, PartialEq, Eq)]
pub enum Predefined {
    ToString,
    ToInt,
    Now,
    EndOfStream,
    TimedOut,
    BrokenPromise,
    OperationCancelled,
    ActorCancelled,
    Error,
    RandomInt,
    Delay,
    Never,
    Listen,
    ReadFile,
    WriteFile,
    SyncFile,
    FileSize,
    Trace,
    SendTo,
}

/// What is called by a name behind a dot.
#[derive(Clone, Copy, PartialEq, Eq)]
pub enum Method {
    Code,
    Size,
    Substr,
    IsReady,
    IsError,
    Get,
    GetFuture,
    IsSet,
    Send,
    SendError,
    Cancel,
    PushBack,
    Clear,
    /// An index, which has no name.
    At,
}

// The calls, effects and statement calls that stand without a base.
const CALLS: [(&[u8], Predefined); 19] = [
    (b"to_string", Predefined::ToString),
    (b"to_int", Predefined::ToInt),
    (b"now", Predefined::Now),
    (b"end_of_stream", Predefined::EndOfStream),
    (b"timed_out", Predefined::TimedOut),
    (b"broken_promise", Predefined::BrokenPromise),
    (b"operation_cancelled", Predefined::OperationCancelled),
    (b"actor_cancelled", Predefined::ActorCancelled),
    (b"error", Predefined::Error),
    (b"randomInt", Predefined::RandomInt),
    (b"delay", Predefined::Delay),
    (b"Never", Predefined::Never),
    (b"listen", Predefined::Listen),
    (b"readFile", Predefined::ReadFile),
    (b"writeFile", Predefined::WriteFile),
    (b"syncFile", Predefined::SyncFile),
    (b"fileSize", Predefined::FileSize),
    (b"trace", Predefined::Trace),
    (b"sendTo", Predefined::SendTo),
];

// What stands behind a dot before arguments.
const METHODS: [(&[u8], Method); 13] = [
    (b"code", Method::Code),
    (b"size", Method::Size),
    (b"substr", Method::Substr),
    (b"isReady", Method::IsReady),
    (b"isError", Method::IsError),
    (b"get", Method::Get),
    (b"getFuture", Method::GetFuture),
    (b"isSet", Method::IsSet),
    (b"send", Method::Send),
    (b"sendError", Method::SendError),
    (b"cancel", Method::Cancel),
    (b"push_back", Method::PushBack),
    (b"clear", Method::Clear),
];

// What a table has at a name: the first row of that name.
fn named<T: Copy>(mut rows: &[(&[u8], T)], name: &[u8]) -> Option<T>
    ensures { result ≡ named (map (λ row. (row.0.now, row.1)) rows.entry.now) name.now }
{
    while let [row, rest @ ..] = rows {
        if name == row.0 {
            return Some(row.1);
        }
        rows = rest;
    }
    None
}

/// What a predefined name calls, where it is one.
pub fn predefined_call(name: &[u8]) -> Option<Predefined>
    ensures { result ≡ named call_names name.now }
{
    named(&CALLS, name)
}

/// What a name behind a dot calls, where it calls something.
pub fn predefined_method(name: &[u8]) -> Option<Method>
    ensures { result ≡ named method_names name.now }
{
    named(&METHODS, name)
}

/// The whole number that a predefined constant stands for, where the name is one.
pub fn predefined_constant(name: &[u8]) -> Option<u16>
    ensures { result ≡ named constant_names name.now }
{
    if name == b"error_code_end_of_stream".as_slice() {
        return Some(END_OF_STREAM.0);
    }
    if name == b"error_code_timed_out".as_slice() {
        return Some(TIMED_OUT.0);
    }
    if name == b"error_code_broken_promise".as_slice() {
        return Some(BROKEN_PROMISE.0);
    }
    if name == b"error_code_operation_cancelled".as_slice() {
        return Some(OPERATION_CANCELLED.0);
    }
    if name == b"error_code_actor_cancelled".as_slice() {
        return Some(OPERATION_CANCELLED.0);
    }
    None
}
