// The errors that the language throws by itself, and those that have a name of their own.

use crate::ids::ErrorCode;

/// A stream has ended.
pub const END_OF_STREAM: ErrorCode = ErrorCode(1);

/// Something took too long. Programs alone throw it.
pub const TIMED_OUT: ErrorCode = ErrorCode(1004);

/// The last promise of a cell was dropped before anything was sent.
pub const BROKEN_PROMISE: ErrorCode = ErrorCode(1100);

/// The actor was cancelled.
pub const OPERATION_CANCELLED: ErrorCode = ErrorCode(1101);

/// An int that is out of range, a zero divisor, a time above 2^62, or a call of a plain function that
/// is nested too deep.
pub const OUT_OF_RANGE: ErrorCode = ErrorCode(9001);

/// A text longer than the longest.
pub const TOO_LONG: ErrorCode = ErrorCode(9002);

/// A second waiter at one stream.
pub const SECOND_WAITER: ErrorCode = ErrorCode(9003);

/// A send to a set result, or to a stream with an end.
pub const ALREADY_SET: ErrorCode = ErrorCode(9004);

/// A port that is listened to.
pub const PORT_IN_USE: ErrorCode = ErrorCode(9005);

/// The value of a future that isn't ready.
pub const NOT_READY: ErrorCode = ErrorCode(9006);

/// An argument out of its range.
pub const BAD_ARGUMENT: ErrorCode = ErrorCode(9007);

/// A disk request that the script makes fail.
pub const DISK_FAILED: ErrorCode = ErrorCode(9008);
