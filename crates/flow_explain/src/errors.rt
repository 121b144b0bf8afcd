// The names of errors.

ghost use Rattle.std.specs.Prelude.{◌≡◌, map};
ghost use Rattle.flow_trace.specs.Bytes.{spaced, spelled};
ghost use Rattle.flow_explain.specs.Phrases.{error_name};

use flow_base::errors;
use flow_base::ids::ErrorCode;

/// The name of an error behind a space, or nothing where it has none.
pub(crate) fn error_name(error: ErrorCode) -> &'static [u8]
    ensures { result.now ≡ spaced (map spelled (error_name error.0)) }
{
    match error {
        errors::END_OF_STREAM => b" end_of_stream",
        errors::TIMED_OUT => b" timed_out",
        errors::BROKEN_PROMISE => b" broken_promise",
        errors::OPERATION_CANCELLED => b" operation_cancelled",
        errors::OUT_OF_RANGE => b" out of range",
        errors::TOO_LONG => b" text too long",
        errors::SECOND_WAITER => b" second waiter",
        errors::ALREADY_SET => b" already set",
        errors::PORT_IN_USE => b" port in use",
        errors::NOT_READY => b" not ready",
        errors::BAD_ARGUMENT => b" bad argument",
        errors::DISK_FAILED => b" disk failed",
        _ => b"",
    }
}
