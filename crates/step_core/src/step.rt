// Steps of a world, and their answers.
ghost use Rattle.std.specs.Prelude.{◌↔◌, IsTrue};
ghost use Rattle.step_core.specs.Reported.{SwapsNoDrive};

use disk_array::At;
use flat_machine::{Class, Member, Refusal};
use map_join::Record;

/// A step. Workers are numbered from 0 to 7.
#[derive(Debug, Drop)]
pub enum Step {
    Claim {
        worker: u8,
        slot: u16,
    },
    Release {
        worker: u8,
        slot: u16,
    },
    Fill {
        worker: u8,
        slot: u16,
        payload: Vec<u8>,
    },
    /// What waits at the slot then is a trim.
    Trim {
        worker: u8,
        slot: u16,
    },
    Copy {
        worker: u8,
        slot: u16,
        block: u32,
    },
    Commit {
        worker: u8,
        slot: u16,
        block: u32,
    },
    Discard {
        worker: u8,
        slot: u16,
    },
    Read {
        block: u32,
    },
    ReadAt {
        record: Record,
    },
    Make {
        class: Class,
        members: Vec<Member>,
    },
    /// The group whose slots the worker holds, all of them, is dissolved.
    Unmake {
        worker: u8,
        group: u16,
    },
    /// What lies on the group's member of this number goes onto another extent, which is the member then.
    MoveExtent {
        group: u16,
        member: u8,
        to: Member,
    },
    /// A new drive, all of whose units are zero.
    AddDrive,
    /// A drive is lost from outside.
    Lose {
        drive: u8,
    },
}

impl Step {
    /// Whether the step neither adds nor loses a drive.
    pub fn swaps_no_drive(&self) -> bool
        ensures { IsTrue result ↔ SwapsNoDrive self.now }
    {
        !matches!(self, Step::AddDrive | Step::Lose { drive: _ })
    }
}

/// What a step answers.
#[derive(Debug, Drop)]
pub enum Answer {
    Claimed(u16),
    /// Somebody holds the slot.
    Taken(u16),
    Released(u16),
    /// The worker has no claim of the slot.
    NotHeld(u16),
    Filled(u16),
    Copied(u16),
    Committed(Record),
    Discarded(u16),
    /// The version and the payload of the block's last write, none where it was never written or trimmed last.
    Read(Option<(u32, Vec<u8>)>),
    /// What lies at a record's place.
    Found(At),
    /// The number of the group that was made.
    Made(u16),
    /// The number of the group that was dissolved.
    Unmade(u16),
    /// The member is the other extent now.
    Shifted,
    /// The number of the drive that was added.
    Added(u8),
    /// The drive is lost, also where it was before.
    Lost(u8),
    /// Never the refusal Memory: a step that is out of memory stops a run.
    Refused(Refusal),
}
