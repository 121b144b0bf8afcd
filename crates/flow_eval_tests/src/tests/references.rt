// Methods of references, where their cell isn't set, and where it holds a value or an error.

use super::{first_wrong, first_wrong_where};
use flow_base::ids::ErrorCode;
use flow_base::memory::NoMemory;
use flow_value::value::{Outcome, Value};

const UNSET: &str = "\
future.isReady() => false
future.isError() => false
future.get() => throws 9006
future.isSet() => no meaning
promise.isSet() => false
promise.getFuture() => Future 3
promise.get() => no meaning
stream.getFuture() => FutureStream 3
stream.isSet() => no meaning
source.getFuture() => no meaning
";

const HOLDS_FIVE: &str = "\
future.isReady() => true
future.isError() => false
future.get() => 5
future.isSet() => no meaning
promise.isSet() => true
promise.getFuture() => Future 3
promise.get() => no meaning
stream.getFuture() => FutureStream 3
stream.isSet() => no meaning
source.getFuture() => no meaning
";

const HOLDS_AN_ERROR: &str = "\
future.isReady() => true
future.isError() => true
future.get() => throws 1004
future.isSet() => no meaning
promise.isSet() => true
promise.getFuture() => Future 3
promise.get() => no meaning
stream.getFuture() => FutureStream 3
stream.isSet() => no meaning
source.getFuture() => no meaning
";

#[test]
fn methods_of_references(rt: HostRuntime) -> Result<(), NoMemory> {
    let alloc = rt.alloc();
    assert_eq!(rt; first_wrong(alloc, UNSET)?, None);
    assert_eq!(rt;
        first_wrong_where(alloc, Some(Outcome::Value(Value::Int(5))), HOLDS_FIVE)?,
        None
    );
    assert_eq!(rt;
        first_wrong_where(alloc, Some(Outcome::Error(ErrorCode(1004))), HOLDS_AN_ERROR)?,
        None
    );
    Ok(())
}
