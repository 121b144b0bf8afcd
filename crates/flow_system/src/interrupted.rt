// Calls that a signal interrupted.

use std::io;

// Whether a signal interrupted the call, which may be tried again.
pub(crate) fn is_interrupted(error: &io::Error) -> bool {
    error.kind() == io::ErrorKind::Interrupted
}
