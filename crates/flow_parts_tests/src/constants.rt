// Error numbers and limits, each against its number: definitions and code cite these constants alone, so that nothing else would
// notice a wrong one.

use flow_base::errors;
use flow_base::ids::ErrorCode;
use flow_base::name::Name;
use flow_base::text::Text;
use flow_simdisk::FILE_BYTES;
use flow_tree::limits;
use flow_worldfile::WORLD_BYTES;

const ERRORS: [(ErrorCode, u16); 12] = [
    (errors::END_OF_STREAM, 1),
    (errors::TIMED_OUT, 1004),
    (errors::BROKEN_PROMISE, 1100),
    (errors::OPERATION_CANCELLED, 1101),
    (errors::OUT_OF_RANGE, 9001),
    (errors::TOO_LONG, 9002),
    (errors::SECOND_WAITER, 9003),
    (errors::ALREADY_SET, 9004),
    (errors::PORT_IN_USE, 9005),
    (errors::NOT_READY, 9006),
    (errors::BAD_ARGUMENT, 9007),
    (errors::DISK_FAILED, 9008),
];

fn first_wrong_error() -> Option<u16> {
    for (error, number) in &ERRORS {
        if error.0 != *number {
            return Some(*number);
        }
    }
    None
}

#[test]
fn error_numbers(rt: HostRuntime) {
    assert_eq!(rt; first_wrong_error(), None);
}

const COUNTS: [(u32, u32); 10] = [
    (limits::DECLARATIONS, 4096),
    (limits::STATEMENTS, 10_000),
    (limits::DEPTH, 64),
    (limits::VARIABLES, 1000),
    (limits::BRANCHES, 64),
    (limits::NESTING, 16),
    (limits::LEAF_FIELDS, 1024),
    (limits::WEIGHT, 60_000),
    (limits::CALL_DEPTH, 64),
    (limits::OF_PROGRAMS.statements, 10_000),
];

fn first_wrong_count() -> Option<u32> {
    for (count, number) in &COUNTS {
        if *count != *number {
            return Some(*number);
        }
    }
    None
}

const SIZES: [(usize, usize); 6] = [
    (limits::PROGRAM_BYTES, 1_048_576),
    (limits::TOKENS, 200_000),
    (WORLD_BYTES, 1_048_576),
    (FILE_BYTES, 1_048_576),
    (Name::LIMIT, 255),
    (Text::LIMIT, 65_535),
];

fn first_wrong_size() -> Option<usize> {
    for (size, number) in &SIZES {
        if *size != *number {
            return Some(*number);
        }
    }
    None
}

#[test]
fn limits_of_texts(rt: HostRuntime) {
    assert_eq!(rt; first_wrong_count(), None);
    assert_eq!(rt; first_wrong_size(), None);
}
