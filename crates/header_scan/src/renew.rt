// An array rebuilt from its parts.
ghost use Rattle.std.specs.Prelude.{◌≡◌, None, IfOk, IfErr};
ghost use Rattle.unit_store.specs.Fit.{IsFit};
ghost use Rattle.unit_store.specs.Losses.{LosesOnly};
ghost use Rattle.step_core.specs.Claims.{AreShared};
ghost use Rattle.header_scan.specs.Stops.{IsLeftAgain, IsResumed, IsWhyLeft};
ghost use Rattle.header_scan.specs.Restarts.{AreAllSound, IsRestartFault, IsResumeFault, FromFinished, RepresentsOne, WasMade, fault_of};

use crate::{ScanFault, scan};
use extents::Drive;
use std::alloc::Global;
use step_core::{Array, Hold, NotAdopted};
use unit_store::Parts;

/// Rebuilds an array from its parts, by the map that their headers hold. Each block's newest place is held, by the claim of it
/// among those given; the other claims are returned. The map's list is the log, and nothing is pending.
///
/// A note is finished first and cleared: its slot then has the note's unit, however much of the write was made before the stop.
/// A bad note is fault 7, before any other, and all is as it was. On another fault the parts come back as the scan left them,
/// the note finished, and the claims unchanged. The fault is the scan's, or the lowest newest place of which there is no claim;
/// out of memory may come before. Another call with these parts makes the array that the first would have made.
///
/// After a stop among the single writes of a step, the fault is out of memory, a slot of which the drives that are lost leave no
/// unit, or a missing claim.
pub fn restart<D: Drive, C: Hold>(
    alloc: Global,
    parts: Parts<D>,
    claims: Vec<C>,
) -> Result<(Array<D, C>, Vec<C>), (ScanFault, Parts<D>, Vec<C>)>
    requires { IsFit D.units parts }

    // Without a note.
    ensures ok { parts.note ≡ None → IfOk result (λ r. WasMade D.units D.lost D.failures parts r.0) }
    ensures matches { parts.note ≡ None → AreAllSound D.units D.lost parts → IfOk result (λ r. RepresentsOne D.units D.lost D.failures parts r.0) }
    ensures fault { parts.note ≡ None → AreAllSound D.units D.lost parts
        → IfErr result (λ e. IsRestartFault D.units D.lost parts e.1 C.names claims.items e.0) }
    ensures back { parts.note ≡ None → IfErr result (λ e. LosesOnly D.units D.lost D.failures parts e.1) }

    // With a note or without.
    ensures finished { IfOk result (λ r. FromFinished D.units D.lost D.failures parts (λ mid. WasMade D.units D.lost D.failures mid r.0
        × (AreAllSound D.units D.lost mid → RepresentsOne D.units D.lost D.failures mid r.0))) }
    ensures stopped { IfOk result (λ r. IsResumed D.units D.lost D.failures parts r.0) }
    ensures again { IfErr result (λ e. IsLeftAgain D.units D.lost parts e.1) }
    ensures fails { IfErr result (λ e. IsWhyLeft D.units D.lost D.failures parts e.1 C.names claims.items e.0) }
    ensures refused { IfErr result (λ e. IsResumeFault D.units D.lost D.failures parts e.1 C.names claims.items e.0) }
    ensures claims { IfOk result (λ r. AreShared C.names claims.items r.0 r.1.items) }
    ensures fit { IfErr result (λ e. IsFit D.units e.1) }
    ensures kept { IfErr result (λ e. e.2 ≡ claims) }
{
    // Before any write, so that a bad note leaves all as it was.
    if let Some(slot) = parts.bad_note() {
        return Err((ScanFault::BadNote(slot), parts, claims));
    }
    let mut parts = parts;
    // Before the scan, because a write that was half made may leave any bytes in the slot.
    parts.finish();
    renew(alloc, parts, claims)
}

// Rebuilds an array from parts without a note.
fn renew<D: Drive, C: Hold>(
    alloc: Global,
    parts: Parts<D>,
    claims: Vec<C>,
) -> Result<(Array<D, C>, Vec<C>), (ScanFault, Parts<D>, Vec<C>)>
    requires fit { IsFit D.units parts }
    requires note { parts.note ≡ None }
    ensures ok { IfOk result (λ r. WasMade D.units D.lost D.failures parts r.0) }
    ensures claims { IfOk result (λ r. AreShared C.names claims.items r.0 r.1.items) }
    ensures matches { AreAllSound D.units D.lost parts → IfOk result (λ r. RepresentsOne D.units D.lost D.failures parts r.0) }
    ensures fault { AreAllSound D.units D.lost parts → IfErr result (λ e. IsRestartFault D.units D.lost parts e.1 C.names claims.items e.0) }
    ensures fit { IfErr result (λ e. IsFit D.units e.1) }
    ensures back { IfErr result (λ e. LosesOnly D.units D.lost D.failures parts e.1 × (e.2 ≡ claims)) }
{
    let mut parts = parts;
    let map = match scan(alloc, &mut parts) {
        Ok(map) => map,
        Err(fault) => return Err((fault, parts, claims)),
    };
    match Array::adopt_among(alloc, parts, map, claims) {
        Ok(made) => Ok(made),
        Err((why, parts, _map, claims)) => Err((reported(why), parts, claims)),
    }
}

// The fault that says why no array was put together.
fn reported(why: NotAdopted) -> ScanFault
    ensures { result ≡ fault_of why }
{
    match why {
        NotAdopted::Memory => ScanFault::Memory,
        NotAdopted::NoClaim(slot) => ScanFault::NoClaim(slot),
    }
}
