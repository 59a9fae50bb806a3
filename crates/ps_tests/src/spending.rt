//! Runs that reach the limit of their steps.

use crate::rows::left;
use std::alloc::AllocError;

/// What a text leaves within so many steps.
#[test]
fn steps_at_their_limit_are_spent(rt: HostRuntime) -> Result<(), AllocError> {
    let alloc = rt.alloc();
    assert_eq!(rt; left(alloc, "1 2 add", 4)?.as_slice(), " spent".as_bytes());
    assert_eq!(rt; left(alloc, "1 2 add", 5)?.as_slice(), " 3".as_bytes());
    assert_eq!(rt; left(alloc, "1 0 idiv", 4)?.as_slice(), " spent".as_bytes());
    assert_eq!(rt;
        left(alloc, "1 0 idiv", 5)?.as_slice(),
        " error undefinedresult".as_bytes()
    );
    assert_eq!(rt; left(alloc, "fetch", 2)?.as_slice(), " spent".as_bytes());
    assert_eq!(rt;
        left(alloc, "fetch", 3)?.as_slice(),
        " error undefined".as_bytes()
    );
    Ok(())
}
