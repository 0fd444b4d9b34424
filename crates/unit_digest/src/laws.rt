//! Laws of digests, proved of all units, as contracts of functions that do nothing.
ghost use Rattle.std.specs.Prelude.{◌≡◌, ◌≢◌, ◌<◌, ◌^◌, ℕ, List, replicate};
ghost use Rattle.unit_digest.specs.Digests.{digest};

/// The same bytes have another digest at each place.
pub fn place_law()
    ensures { (drive address other there : ℕ) (unit : List ℕ) → drive < 2 ^ 8 → address < 2 ^ 32 → other < 2 ^ 8 → there < 2 ^ 32
        → digest drive address unit ≡ digest other there unit → (drive ≡ other) × (address ≡ there) }
{
    // The law is the contract: there is nothing to do.
}

/// Zeros aren't the digest of a unit of zeros, at any place: a file that was never written has no unit that is as its digest says.
pub fn zeros_law()
    ensures { (drive address bytes : ℕ) → drive < 2 ^ 8 → address < 2 ^ 32 → digest drive address (replicate bytes 0) ≢ replicate 32 0 }
{
    // The law is the contract: there is nothing to do.
}
