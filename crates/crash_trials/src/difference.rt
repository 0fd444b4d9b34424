// A cell of a row that differs from what is found.
ghost use Rattle.std.specs.Prelude.{◌≡◌, IsTrue, OnOk};

use crate::trouble::Trouble;
use std::alloc::Global;

/// A column of a row, what its cell says, and what is found.
#[derive(Drop)]
pub(crate) struct Difference {
    pub(crate) column: &'static str,
    pub(crate) expected: String,
    pub(crate) found: String,
}

/// Returns an error unless what is found equals the expected text.
pub(crate) fn agree(
    alloc: Global,
    column: &'static str,
    expected: &str,
    found: &str,
) -> Result<(), Trouble>
    ensures { OnOk result (expected.now ≡ found.now) }
{
    if expected == found {
        return Ok(());
    }
    Err(Trouble::Differs(Difference {
        column,
        expected: String::from_str(alloc, expected)?,
        found: String::from_str(alloc, found)?,
    }))
}

/// Returns an error unless the condition that the column names holds.
pub(crate) fn holds(alloc: Global, column: &'static str, is: bool) -> Result<(), Trouble>
    ensures { OnOk result (IsTrue is) }
{
    if is {
        return Ok(());
    }
    agree(alloc, column, "yes", "no")?;
    // Not reached: `yes` isn't `no`.
    Err(Trouble::Form)
}
