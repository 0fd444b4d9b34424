// Bytes that a call writes to its caller's buffer.
ghost use Rattle.raid_c.specs.Lists.{PutsOut};

use crate::status::Status;

// Copies bytes to the start of a buffer and counts them. Room if they don't fit: then the buffer is unchanged.
pub(crate) fn put_out(bytes: &[u8], out: &mut [u8], count: &mut usize) -> Status
    ensures { PutsOut result bytes.now out.old out.new count.new }
{
    // Before the test, so that with Room a caller learns how many bytes it needs.
    *count = bytes.len();
    if bytes.len() > out.len() {
        return Status::Room;
    }
    out[..bytes.len()].copy_from_slice(bytes);
    Status::Done
}
