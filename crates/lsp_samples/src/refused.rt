//! Calls that run out of memory once, and are made again.

/// The result of a call. Out of memory, which is a fault of this pattern, is counted, and the call
/// made again.
#[macro_export]
macro_rules! again {
    ($refused:expr, $fault:pat, $call:expr) => {
        match $call {
            Err($fault) => {
                *$refused = $refused.saturating_add(1);
                $call
            }
            other => other,
        }
    };
}
