// Calls of what is predefined, methods of values, and the fields of a packet.

use super::first_wrong;
use flow_base::memory::NoMemory;

// The last four are no expressions here: effects, statement calls, and what is no name of a call.
const CALLS: &str = "\
to_string(0) => \"0\"
to_string(least) => \"-9223372036854775808\"
to_string(9223372036854775807) => \"9223372036854775807\"
to_string(true) => no meaning
to_int(\"0\") => 0
to_int(\"-0\") => 0
to_int(\"007\") => 7
to_int(\"9223372036854775807\") => 9223372036854775807
to_int(\"9223372036854775808\") => throws 9007
to_int(\"-9223372036854775808\") => -9223372036854775808
to_int(\"-9223372036854775809\") => throws 9007
to_int(\"99999999999999999999999999\") => throws 9007
to_int(\"\") => throws 9007
to_int(\"-\") => throws 9007
to_int(\"+1\") => throws 9007
to_int(\" 1\") => throws 9007
to_int(\"1 \") => throws 9007
to_int(\"--1\") => throws 9007
to_int(1) => no meaning
now() => 17
end_of_stream() => error 1
timed_out() => error 1004
broken_promise() => error 1100
operation_cancelled() => error 1101
actor_cancelled() => error 1101
error(0) => error 0
error(65535) => error 65535
error(65536) => throws 9007
error(-1) => throws 9007
error(Void()) => no meaning
to_int(\"x\", error(-1)) => throws 9007
randomInt(0, 1) => no meaning
delay(1) => no meaning
trace(1) => no meaning
absent() => no meaning
";

#[test]
fn predefined_calls(rt: HostRuntime) -> Result<(), NoMemory> {
    assert_eq!(rt; first_wrong(rt.alloc(), CALLS)?, None);
    Ok(())
}

const MEMBERS: &str = "\
timed_out().code() => 1004
error(65535).code() => 65535
error(65536).code() => throws 9007
\"\".size() => 0
\"abc\".size() => 3
\"abc\".substr(0, 2) => \"ab\"
\"abc\".substr(1, 1) => \"b\"
\"abc\".substr(1, 5) => \"bc\"
\"abc\".substr(0, 9223372036854775807) => \"abc\"
\"abc\".substr(3, 1) => \"\"
\"abc\".substr(4, 0) => throws 9007
\"abc\".substr(-1, 1) => throws 9007
\"abc\".substr(0, -1) => throws 9007
\"abc\".substr(0, \"\") => no meaning
\"abc\".code() => no meaning
1.size() => no meaning
\"abc\".absent() => no meaning
absent().size() => no meaning
Packet(1, 2, \"x\").from => 1
Packet(1, 2, \"x\").port => 2
Packet(1, 2, \"x\").text => \"x\"
Packet(1, 2, \"x\").absent => no meaning
";

#[test]
fn members_of_values(rt: HostRuntime) -> Result<(), NoMemory> {
    assert_eq!(rt; first_wrong(rt.alloc(), MEMBERS)?, None);
    Ok(())
}
