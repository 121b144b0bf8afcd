// Operators at their edges, and single operands.

use super::first_wrong;
use flow_base::memory::NoMemory;

// In the last six two second operands aren't evaluated, and the first error stops, whatever the second operand is.
const OPERATORS: &str = "\
9223372036854775807 + 0 => 9223372036854775807
9223372036854775807 + 1 => throws 9001
least + -1 => throws 9001
least - 1 => throws 9001
-1 - least => 9223372036854775807
0 - least => throws 9001
9223372036854775807 * -1 => -9223372036854775807
least * -1 => throws 9001
3037000500 * 3037000500 => throws 9001
7 / -2 => -3
-7 / 2 => -3
least / -1 => throws 9001
1 / 0 => throws 9001
7 % -2 => 1
-7 % 2 => -1
least % -1 => throws 9001
1 % 0 => throws 9001
3 == 3 => true
3 != 3 => false
least < 9223372036854775807 => true
3 < 3 => false
3 <= 3 => true
4 <= 3 => false
-3 > -4 => true
3 > 3 => false
3 >= 3 => true
-4 >= -3 => false
\"ab\" + \"c\" => \"abc\"
\"\" + \"\" => \"\"
\"a\" == \"a\" => true
\"a\" != \"b\" => true
\"a\" < \"ab\" => true
\"Z\" < \"a\" => true
\"a\" <= \"a\" => true
\"b\" > \"ab\" => true
\"\" >= \"a\" => false
true == true => true
true != true => false
false || true => true
false || false => false
true && false => false
true && true => true
1 + \"a\" => no meaning
\"a\" - \"a\" => no meaning
true < true => no meaning
Void() == Void() => no meaning
error(1) == error(1) => no meaning
1 || true => no meaning
false || 1 => no meaning
true && 1 => no meaning
now() + 1 => 18
error_code_timed_out + 0 => 1004
error_code_end_of_stream + 0 => 1
error_code_broken_promise + 0 => 1100
error_code_operation_cancelled - error_code_actor_cancelled => 0
-least => throws 9001
-9223372036854775807 => -9223372036854775807
!true => false
(Void()) => Void()
true || error(65536) => true
false && error(65536) => false
false || error(65536) => throws 9007
true && error(65536) => throws 9007
error(-1) + absent => throws 9007
absent + error(-1) => no meaning
";

#[test]
fn operators_at_their_edges(rt: HostRuntime) -> Result<(), NoMemory> {
    assert_eq!(rt; first_wrong(rt.alloc(), OPERATORS)?, None);
    Ok(())
}
