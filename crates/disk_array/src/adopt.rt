// An array taken apart into its parts and claims, and put together from parts, a map and claims.
ghost use Rattle.std.specs.Prelude.{◌≡◌, ℕ, ◌+◌, ◌<◌, List, false, IfOk, IfErr, None};
ghost use Rattle.map_join.specs.Maps.{at};
ghost use Rattle.extents.specs.declared.shape.TheConstants.{HEADER_BYTES};
ghost use Rattle.unit_store.specs.Fit.{IsFit};
ghost use Rattle.unit_store.specs.Views.{view_of};
ghost use Rattle.flat_machine.specs.Flat.{Flat, Shut};
ghost use Rattle.flat_machine.specs.Restarted.{HasDistinctSlots, ReportMap, restarted};
ghost use Rattle.slot_tables.specs.Represents.{ShowsArray};
ghost use Rattle.slot_tables.specs.Views.{key_at};
ghost use Rattle.slot_tables.specs.Adopted.{IsAdopted, HasParts};
ghost use Rattle.slot_tables.specs.Claims.{AreClaimsOf, AreShared, AreOfPlaces, IsNotAdopted, IsNotRestarted};
ghost use Rattle.disk_array.specs.Inside.{AreBuffers, WasTakenApart};

use crate::array::Array;
use crate::buffers::Buffers;
use crate::live::counted;
use extents::Drive;
use flat_machine::Refusal;
use map_join::BlockMap;
use slot_tables::{Hold, NotAdopted, Ready, Room, prepare, seat_all, unseat_all};
use std::alloc::Global;
use unit_store::Parts;

impl<D: Drive, C: Hold> Array<D, C> {
    /// Takes the array apart: into its parts, and the claims of all slots that it kept, those of tickets too, from the last
    /// slot to the first. If out of memory it returns the array unchanged.
    pub fn into_parts(self, alloc: Global) -> Result<(Parts<D>, Vec<C>), Array<D, C>>
        ensures parts { IfOk result (λ r. view_of D.units D.lost D.failures r.0 ≡ self.parts) }
        ensures fit { IfOk result (λ r. IsFit D.units r.0) }
        ensures note { IfOk result (λ r. r.0.note ≡ None) }
        ensures claims { IfOk result (λ r. AreClaimsOf C.names self r.1.items) }
        ensures rests { IfOk result (λ r. (F : Flat) → ShowsArray self F → ((s : ℕ) → F.tickets s ≡ None) → ((s g : ℕ) → F.held s (Shut g) ≡ false)
            → AreOfPlaces C.names (key_at self) r.1.items) }
        ensures err { IfErr result (λ array. array ≡ self) }
    {
        match self.taken_apart(alloc) {
            Ok((parts, claims, _buffers)) => Ok((parts, claims)),
            Err(array) => Err(array),
        }
    }

    // Takes the array apart, its two buffers too.
    fn taken_apart(self, alloc: Global) -> Result<(Parts<D>, Vec<C>, Buffers), Array<D, C>>
        ensures parts { IfOk result (λ r. WasTakenApart D.units D.lost D.failures C.names self r.0 r.1.items r.2) }
        ensures err { IfErr result (λ array. array ≡ self) }
    {
        // First the allocation, so that on a refusal each claim is in its place.
        let Ok(mut claims) = Vec::with_capacity(alloc, self.places.len()) else {
            return Err(self);
        };
        unseat_all(self.places, &mut claims);
        let mut parts = self.parts;
        // No call of an array sets a note: none is lost here.
        parts.note = None;
        let buffers = Buffers {
            unit: self.unit,
            scratch: self.scratch,
        };
        Ok((parts, claims, buffers))
    }

    /// Puts an array together from its parts and the map that their headers hold, as `header_scan` does in a restart: it takes
    /// the claims of the newest places among those given, one of each, and returns the others. If out of memory or without one
    /// of these claims it returns all that was given, and no claim has moved. The parts have no note: a restart finishes one first.
    pub fn adopt_among(
        alloc: Global,
        parts: Parts<D>,
        map: BlockMap,
        claims: Vec<C>,
    ) -> Result<(Array<D, C>, Vec<C>), (NotAdopted, Parts<D>, BlockMap, Vec<C>)>
        requires fit { IsFit D.units parts }
        requires note { parts.note ≡ None }
        requires places { HasDistinctSlots parts.groups (at map) }
        ensures ok { IfOk result (λ r. IsAdopted (view_of D.units D.lost D.failures parts) (at map) r.0) }
        ensures claims { IfOk result (λ r. AreShared C.names claims.items r.0 r.1.items) }
        ensures flat { IfOk result (λ r. (F : Flat) → HasParts (view_of D.units D.lost D.failures parts) F → ReportMap F.groups F.units (at map)
            → ShowsArray r.0 (restarted F (at map) r.0.log)) }
        ensures err { IfErr result (λ e. IsNotAdopted C.names claims.items (at map) e.0 × (e.1 ≡ parts) × (e.2 ≡ map) × (e.3 ≡ claims)) }
    {
        match Buffers::new(alloc, &parts.shape) {
            Ok(buffers) => Array::adopt_with(alloc, buffers, parts, map, claims),
            Err(_) => Err((NotAdopted::Memory, parts, map, claims)),
        }
    }

    // `adopt_among` with existing buffers.
    fn adopt_with(
        alloc: Global,
        buffers: Buffers,
        parts: Parts<D>,
        map: BlockMap,
        claims: Vec<C>,
    ) -> Result<(Array<D, C>, Vec<C>), (NotAdopted, Parts<D>, BlockMap, Vec<C>)>
        requires buffers { AreBuffers (HEADER_BYTES + parts.shape.payload) buffers }
        requires fit { IsFit D.units parts }
        requires note { parts.note ≡ None }
        requires places { HasDistinctSlots parts.groups (at map) }
        ensures ok { IfOk result (λ r. IsAdopted (view_of D.units D.lost D.failures parts) (at map) r.0) }
        ensures claims { IfOk result (λ r. AreShared C.names claims.items r.0 r.1.items) }
        ensures flat { IfOk result (λ r. (F : Flat) → HasParts (view_of D.units D.lost D.failures parts) F → ReportMap F.groups F.units (at map)
            → ShowsArray r.0 (restarted F (at map) r.0.log)) }
        ensures err { IfErr result (λ e. IsNotAdopted C.names claims.items (at map) e.0 × (e.1 ≡ parts) × (e.2 ≡ map) × (e.3 ≡ claims)) }
    {
        // All that can be refused comes first, so that a refusal returns all that was given.
        match prepare(alloc, &parts, &map, &claims) {
            Err(why) => Err((why, parts, map, claims)),
            Ok(ready) => {
                let Ready {
                    log,
                    expected,
                    keys,
                    room,
                } = ready;
                let Room {
                    mut others,
                    mut places,
                } = room;
                seat_all(expected, claims, &mut places, &mut others);
                let live = counted(&places);
                let array = Array {
                    parts,
                    log,
                    keys,
                    places,
                    live,
                    unit: buffers.unit,
                    scratch: buffers.scratch,
                };
                Ok((array, others))
            }
        }
    }

    /// The inverse of `into_parts`: an array of these parts with the map that their headers hold, and the claims of its newest
    /// places, one of each. If out of memory it returns all that was given.
    pub fn adopt(
        alloc: Global,
        parts: Parts<D>,
        map: BlockMap,
        claims: Vec<C>,
    ) -> Result<Array<D, C>, (Refusal, Parts<D>, BlockMap, Vec<C>)>
        requires fit { IsFit D.units parts }
        requires note { parts.note ≡ None }
        requires places { HasDistinctSlots parts.groups (at map) }
        requires claims { AreOfPlaces C.names (at map) claims.items }
        ensures ok { IfOk result (IsAdopted (view_of D.units D.lost D.failures parts) (at map)) }
        ensures flat { IfOk result (λ a. (F : Flat) → HasParts (view_of D.units D.lost D.failures parts) F → ReportMap F.groups F.units (at map)
            → ShowsArray a (restarted F (at map) a.log)) }
        ensures err { IfErr result (λ e. (e.0 ≡ Refusal.Memory) × (e.1 ≡ parts) × (e.2 ≡ map) × (e.3 ≡ claims)) }
    {
        match Array::adopt_among(alloc, parts, map, claims) {
            Ok((array, others)) => {
                // The claims are exactly those of the newest places, so none is left.
                others.destroy_empty();
                Ok(array)
            }
            Err((NotAdopted::Memory, parts, map, claims)) => {
                Err((Refusal::Memory, parts, map, claims))
            }
            Err((NotAdopted::NoClaim(_), _parts, _map, _claims)) => unreachable!(),
        }
    }
}

impl<D: Drive + Drop, C: Hold + Drop> Array<D, C> {
    /// The array restarted with the map that its headers hold: taken apart and put together again, with the claims that it kept
    /// and in the memory of its buffers. It returns the claims that it doesn't keep. If an allocation fails, or a newest place of
    /// the map has no claim, the array is dropped.
    pub fn restarted(
        self,
        alloc: Global,
        map: BlockMap,
    ) -> Result<(Array<D, C>, Vec<C>), NotAdopted>
        requires { HasDistinctSlots self.parts.groups (at map) }
        ensures ok { IfOk result (λ r. IsAdopted self.parts (at map) r.0) }
        ensures claims { IfOk result (λ r. (claims : List C) × AreClaimsOf C.names self claims × AreShared C.names claims r.0 r.1.items) }
        ensures flat { IfOk result (λ r. (F : Flat) → HasParts self.parts F → ReportMap F.groups F.units (at map)
            → ShowsArray r.0 (restarted F (at map) r.0.log)) }
        ensures err { IfErr result (IsNotRestarted C.names self (at map)) }
    {
        let Ok((parts, claims, buffers)) = self.taken_apart(alloc) else {
            return Err(NotAdopted::Memory);
        };
        match Array::adopt_with(alloc, buffers, parts, map, claims) {
            Ok(made) => Ok(made),
            Err((why, _parts, _map, _claims)) => Err(why),
        }
    }
}
