// Assertions as calls: a proof takes a third of the time of `assert!` for one.
ghost use Rattle.std.specs.Prelude.{IsTrue};

use std::process::Abort;

/// Ends the test unless the condition holds.
pub(crate) fn hold<R: Abort>(rt: &R, condition: bool)
    ensures { IsTrue condition }
{
    if !condition {
        rt.panic("assertion failed")
    }
}

/// Like `assert!`, but doesn't say which condition it was: `check!(rt; a == b)`. Where a test fails, write `assert!` in its place.
macro_rules! check {
    ($rt:expr; $condition:expr) => {
        $crate::asserts::hold(&$rt, $condition)
    };
}

pub(crate) use check;
