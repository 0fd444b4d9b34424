// The exclusive or of byte slices.
ghost use Rattle.raid_c.specs.Status.{Returns};
ghost use Rattle.raid_c.specs.Units.{Adds};

use crate::status::Status;

/// Puts the exclusive or of both into the first, byte by byte. Length if their lengths differ: then the first is unchanged.
#[unsafe(no_mangle)]
pub extern "C" fn behkuna_xor_into(into: &mut [u8], from: &[u8]) -> u32
    ensures { Returns result (λ status. Adds status from.now into.old into.new) }
{
    if into.len() != from.len() {
        return Status::Length.number();
    }
    parity_store::xor_into(into, from);
    Status::Done.number()
}
