// Who owns which extent.
ghost use Rattle.std.specs.Prelude.{◌≡◌, ◌↔◌, IsTrue, ℕ, ◌+◌, ◌<◌, ◌≤◌, List, [], length, IfOk, IfSome};
ghost use Rattle.std.specs.Prelude.{OnOk, OnErr, Option, None, Some, ◌∷◌, replicate, count_by, position, is_some, is_none, slice_set};

use crate::Shape;
use std::alloc::{AllocError, Global};
use std::marker::Model;

/// The greatest number of drives of an array.
pub const DRIVES: usize = 16;

/// The extents of one drive.
#[derive(Drop)]
struct Row {
    owners: Vec<Option<u16>>,
    /// How many have an owner. Kept, because plans ask for it of each pair of drives.
    load: u32,
    ghost counted: { load ≡ count_by is_some owners.items },
    ghost small: { length owners.items ≤ 65536 },
}

/// What an extent adds to its drive's load: 1 if it has an owner, else 0.
fn share(owner: Option<u16>) -> u32
    ensures { result ≡ count_by is_some (owner ∷ []) }
{
    owner.is_some() as u32
}

/// The place of the first extent that has no owner.
fn first_free(owners: &[Option<u16>]) -> Option<usize>
    ensures free { result ≡ position is_none owners.now }
    ensures within { IfSome result (λ at. at < length owners.now) }
{
    owners.iter().position(|owner| owner.is_none())
}

impl Row {
    fn new(alloc: Global, extents: u32) -> Result<Row, AllocError>
        requires { extents ≤ 65536 }
        ensures { IfOk result (λ r. r.owners.items ≡ replicate extents None) }
    {
        Ok(Row {
            owners: vec![in alloc; None; extents as usize]?,
            load: 0,
        })
    }

    fn set(&mut self, extent: u16, owner: Option<u16>)
        requires { extent < length self.old.owners.items }
        ensures { self.new.owners.items ≡ slice_set self.old.owners.items extent owner }
    {
        let at = extent as usize;
        // Before the owner changes, because the old owner is taken off the load.
        let load = self.load + share(owner) - share(self.owners[at]);
        self.owners[at] = owner;
        self.load = load;
    }
}

/// The group that owns each extent of each drive, if one does.
#[derive(Drop)]
pub struct ExtentTable {
    extents: u32,
    rows: Vec<Row>,
}

impl Model for ExtentTable {
    ghost use Rattle.std.specs.Prelude.{ℕ};
    ghost use Rattle.extents.specs.Owners.{Owners};

    ghost Value = { Owners };

    ghost use Rattle.extents.specs.Rows.{owners_in, AreRows};

    ghost view = { λ t. owners_in t.extents t.rows.items };

    ghost invariant = { λ t. AreRows t.extents t.rows.items };
}

impl ExtentTable {
    ghost use Rattle.extents.specs.Owners.{IsExtent, owner_row, owner_of, load_of, lowest_free_of, with_owner, with_drive, all_free};

    /// The table of `drives` drives of this shape, all extents free; refused if out of memory.
    pub fn new(alloc: Global, drives: u8, shape: &Shape) -> Result<ExtentTable, AllocError>
        ensures { IfOk result (λ t. t ≡ all_free drives shape.now.extents) }
    {
        let mut table = ExtentTable {
            extents: shape.extents,
            rows: Vec::with_capacity(alloc, drives as usize)?,
        };
        for _drive in 0..drives {
            table.add_drive(alloc)?;
        }
        Ok(table)
    }

    /// Adds a drive whose extents are free; if out of memory, the table stays as it was.
    pub fn add_drive(&mut self, alloc: Global) -> Result<(), AllocError>
        ensures ok { OnOk result (self.new ≡ with_drive self.old) }
        ensures err { OnErr result (self.new ≡ self.old) }
    {
        let row = Row::new(alloc, self.extents)?;
        self.rows.push(row)?;
        Ok(())
    }

    /// How many drives the table has.
    pub fn drives(&self) -> usize
        ensures count { result ≡ length self.now.rows }
        ensures wide { (drive : ℕ) → drive < length self.now.rows → length (owner_row self.now drive) ≡ self.now.extents }
    {
        self.rows.len()
    }

    /// The owners of a drive's extents, in order.
    pub fn owners(&self, drive: usize) -> &[Option<u16>]
        requires { drive < length self.now.rows }
        ensures { result.now ≡ owner_row self.now drive }
    {
        &self.rows[drive].owners
    }

    /// Whether there is such a drive, and such an extent on it.
    pub fn has_extent(&self, drive: u8, extent: u16) -> bool
        ensures { IsTrue result ↔ IsExtent self.now drive extent }
    {
        (drive as usize) < self.rows.len() && (extent as u32) < self.extents
    }

    /// The group that owns an extent, none where it is free.
    pub fn owner(&self, drive: u8, extent: u16) -> Option<u16>
        requires { IsExtent self.now drive extent }
        ensures { result ≡ owner_of self.now drive extent }
    {
        self.rows[drive as usize].owners[extent as usize]
    }

    /// Gives an extent to a group, or frees it.
    pub fn set_owner(&mut self, drive: u8, extent: u16, owner: Option<u16>)
        requires { IsExtent self.old drive extent }
        ensures { self.new ≡ with_owner self.old drive extent owner }
    {
        self.rows[drive as usize].set(extent, owner);
    }

    /// How many extents of a drive are in groups.
    pub fn load(&self, drive: u8) -> u32
        requires { drive < length self.now.rows }
        ensures { result ≡ load_of self.now drive }
    {
        self.rows[drive as usize].load
    }

    /// The lowest extent of a drive that is in no group.
    pub fn lowest_free(&self, drive: u8) -> Option<u16>
        requires { drive < length self.now.rows }
        ensures { result ≡ lowest_free_of self.now drive }
    {
        first_free(&self.rows[drive as usize].owners).map(|extent| extent as u16)
    }
}
