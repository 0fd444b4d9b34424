//! Why the program ends early.
use crate::folder::{Folder, Name};
use crate::opened::trouble_of;
use disk_shape::ShapeFault;
use drive_rebuild::RebuildFault;
use extent_groups::SLOTS;
use file_vault::{JOURNAL, SECOND, TABLE_SECOND, Twin};
use nbd_serve::End;
use std::alloc::{AllocError, AllocFailed, Global};
use std::io;
use vault::{TABLE, VaultError};

/// Why a command isn't carried out, or not to its end.
#[derive(Debug, Drop)]
pub(crate) enum Trouble {
    Memory,
    /// The word for the size is none.
    Size,
    /// There is no disk of these sizes.
    Shape(ShapeFault),
    /// A file that `create` would make is there.
    Exists(Name),
    /// The folder has no table.
    NoDisk,
    /// The table isn't one of this program.
    NoTable,
    /// Another process has the disk.
    Busy,
    /// No drive that is there has what lies in this slot.
    Gone(u16),
    /// The units' headers contradict one another, or the groups don't fit.
    Unsound,
    Words(io::Error),
    Read(Name, io::Error),
    Write(Name, io::Error),
    /// The file of this number can't be read.
    Unread(u8),
    /// The file of this number can't be written.
    Unwritten(u8),
    /// The file of this number isn't one of this disk, or is another one of it.
    Foreign(u8),
    /// The table is of an earlier version.
    Earlier,
    /// Neither file of the state can be read and written, or the newer one can't.
    NoState,
    /// Neither file of the journal can be read and written, or the newer one can't.
    NoJournal,
    /// Both files of the journal are older than the state.
    OlderJournal,
    /// This file of the system's has no number.
    NoNumber(Name),
    /// A file failed while the journal was read.
    Vault(VaultError),
    /// Standard output can't be written.
    Output(io::Error),
    /// The client's stream broke, or isn't the protocol.
    Stream(End),
    /// Some drive couldn't be synced at the end.
    Sync,
    /// The disk has no drive of this number.
    NoDrive(u8),
    /// The drive that is to be replaced isn't lost.
    NotLost(u8),
    /// Another drive is lost than the one that is to be replaced.
    OtherLost(u8),
    /// More than one file is this drive's.
    Doubled(u8),
    /// This drive's file is at another place than its own.
    Elsewhere(u8),
    /// The place of the first drive has the file of the second.
    Occupied(u8, u8),
    /// What was at the place of this drive has a name that another file has.
    OldThere(u8),
    /// The new file of this drive can't be read or written.
    NewFails(u8),
    /// The text of places isn't one.
    NoPlaces,
    /// A path that was given can't be a place.
    Path,
    /// More places were given than drives.
    Places,
    /// At the path that was given there is something already.
    PathThere,
    /// Two files of the disk would have this path.
    Taken(String),
    /// What is at this path isn't what an earlier attempt has left.
    InTheWay(String),
    /// What is at this path can't be written.
    WriteAt(String, io::Error),
    /// This slot's units contradict one another: the new ones, too, so that the drive stays lost.
    Contradicts(u16),
    /// The unit of this drive at this address isn't as its digest says.
    Rotten(u8, u32),
    /// Units aren't as their digests say, and can't be computed, since this drive is lost.
    RottenAndLost(u8),
    /// Units of this slot aren't as their digests say, and can't be computed, since there are two.
    RottenTwice(u16),
    /// Units aren't as their digests say, and with those that were computed this slot's contradict one another.
    RottenAndUnsound(u16),
    /// A drive is to be added or removed, and this one is lost.
    LostBeside(u8),
    /// A drive is to be added, and there are 16.
    Full,
    /// The first drive is to be removed, and the second is the last one.
    NotLast(u8, u8),
    /// A drive is to be removed, and the others have no room for what it has, or are too few.
    Needed(u8),
}

impl Trouble {
    /// The trouble of words that can't be read.
    pub(crate) fn of_words(error: io::Error) -> Trouble {
        match error.kind() {
            io::ErrorKind::OutOfMemory => Trouble::Memory,
            _ => Trouble::Words(error),
        }
    }

    /// The trouble of a drive that can't be replaced, or of slots that can't be tested.
    pub(crate) fn of_rebuild(fault: RebuildFault) -> Trouble {
        match fault {
            RebuildFault::Memory => Trouble::Memory,
            RebuildFault::Vault(error) => Trouble::Vault(error),
            RebuildFault::Recovery(fault) => trouble_of(fault),
            RebuildFault::OtherLost(drive) => Trouble::OtherLost(drive),
            RebuildFault::Unsound(slot) => Trouble::Contradicts(slot),
            RebuildFault::NotLost | RebuildFault::Misfit => Trouble::Unsound,
        }
    }

    /// The exit status: 2 for the command line, 3 for a refusal, 4 for out of memory, 5 for input or output.
    pub(crate) fn status(&self) -> u8 {
        match self {
            Trouble::Memory | Trouble::Vault(VaultError::Memory) => 4,
            Trouble::Size | Trouble::Path | Trouble::Places => 2,
            Trouble::Words(_)
            | Trouble::Read(_, _)
            | Trouble::Write(_, _)
            | Trouble::WriteAt(_, _)
            | Trouble::Unread(_)
            | Trouble::Unwritten(_)
            | Trouble::NewFails(_)
            | Trouble::Vault(_)
            | Trouble::Output(_)
            | Trouble::Stream(_)
            | Trouble::Sync => 5,
            _ => 3,
        }
    }

    /// Says on standard error what is wrong, in one line.
    pub(crate) fn report(&self, rt: &HostRuntime, folder: Folder<'_>) -> io::Result<()> {
        let at = folder.name;
        match self {
            Trouble::Memory | Trouble::Vault(VaultError::Memory) => {
                eprintln!(rt; "raid_disk: out of memory")
            }
            Trouble::Size => eprintln!(rt;
                "raid_disk: SIZE is a number of bytes, or a number and K, M or G"
            ),
            Trouble::Shape(fault) => report_shape(rt, fault),
            Trouble::NoDisk => eprintln!(rt; "raid_disk: {at} has no disk: there is no {at}/table"),
            Trouble::NoTable => eprintln!(rt; "raid_disk: {at}/table isn't the table of a disk"),
            Trouble::Earlier => eprintln!(rt;
                "raid_disk: {at} is a disk of an earlier version: copy its bytes to a new disk with the program that made it"
            ),
            Trouble::NoState => report_pair(
                rt,
                folder,
                Name::State(Twin::First),
                Name::State(Twin::Second),
            ),
            Trouble::NoJournal => report_pair(
                rt,
                folder,
                Name::Journal(Twin::First),
                Name::Journal(Twin::Second),
            ),
            Trouble::OlderJournal => report_older(rt, folder),
            Trouble::Busy => eprintln!(rt; "raid_disk: {at}: another process has the disk"),
            Trouble::Words(error) => eprintln!(rt;
                "raid_disk: the command line can't be read: {error}"
            ),
            Trouble::Output(error) => eprintln!(rt;
                "raid_disk: standard output can't be written: {error}"
            ),
            Trouble::Stream(end) => eprintln!(rt;
                "raid_disk: {at}: the client's session ended: {end:?}"
            ),
            Trouble::Sync => eprintln!(rt;
                "raid_disk: {at}: the journal can't be written or synced, or two drives are lost: what came since the last flush may be lost"
            ),
            Trouble::Unsound => eprintln!(rt;
                "raid_disk: {at}: the drives' files don't fit one another"
            ),
            Trouble::Gone(slot) => {
                let group = slot / SLOTS;
                let index = slot % SLOTS;
                eprintln!(rt;
                    "raid_disk: {at}: too many drives are missing: slot {index} of group {group} can't be read"
                )
            }
            _ => self.report_file(rt, folder),
        }
    }

    // Says what is wrong with one file.
    fn report_file(&self, rt: &HostRuntime, folder: Folder<'_>) -> io::Result<()> {
        match self {
            Trouble::Exists(name) => {
                let path = folder.path(rt.alloc(), *name)?;
                eprintln!(rt;
                    "raid_disk: {path} is there already: nothing was made; remove what an earlier attempt has left, or name another folder"
                )
            }
            Trouble::Read(name, error) => {
                let path = folder.path(rt.alloc(), *name)?;
                eprintln!(rt; "raid_disk: {path} can't be opened or read: {error}")
            }
            Trouble::Write(name, error) => {
                let path = folder.path(rt.alloc(), *name)?;
                eprintln!(rt; "raid_disk: {path} can't be written: {error}")
            }
            Trouble::NoNumber(name) => {
                let path = folder.path(rt.alloc(), *name)?;
                eprintln!(rt; "raid_disk: {path} has no number")
            }
            Trouble::Unread(number) => {
                let path = folder.path(rt.alloc(), name_of(*number))?;
                eprintln!(rt; "raid_disk: {path} can't be read")
            }
            Trouble::Unwritten(number) => {
                let path = folder.path(rt.alloc(), name_of(*number))?;
                eprintln!(rt; "raid_disk: {path} can't be written")
            }
            Trouble::Foreign(number) => {
                let path = folder.path(rt.alloc(), name_of(*number))?;
                eprintln!(rt;
                    "raid_disk: {path} is of another disk, or another file of this one: take it away"
                )
            }
            Trouble::Vault(VaultError::Drive(drive)) => {
                let path = folder.path(rt.alloc(), Name::Drive(*drive))?;
                eprintln!(rt; "raid_disk: {path} can't be read")
            }
            Trouble::Vault(_) => {
                let path = folder.path(rt.alloc(), Name::Folder)?;
                eprintln!(rt; "raid_disk: {path}: the journal can't be read or written")
            }
            _ => self.report_replaced(rt, folder),
        }
    }

    // Says why a drive isn't replaced.
    fn report_replaced(&self, rt: &HostRuntime, folder: Folder<'_>) -> io::Result<()> {
        let at = folder.name;
        match self {
            Trouble::Contradicts(slot) => {
                let group = slot / SLOTS;
                let index = slot % SLOTS;
                eprintln!(rt;
                    "raid_disk: {at}: the units of slot {index} of group {group} contradict one another: the drive isn't replaced"
                )
            }
            Trouble::NoDrive(drive) => eprintln!(rt; "raid_disk: {at} has no drive {drive}"),
            Trouble::NotLost(drive) => {
                let path = folder.path(rt.alloc(), Name::Drive(*drive))?;
                eprintln!(rt;
                    "raid_disk: {path} isn't lost: a drive is replaced whose file is missing, or that failed before"
                )
            }
            Trouble::OtherLost(drive) => {
                let path = folder.path(rt.alloc(), Name::Drive(*drive))?;
                eprintln!(rt; "raid_disk: {path} is lost too: no other drive can be replaced")
            }
            _ => self.report_place(rt, folder),
        }
    }
}

impl Trouble {
    // Says what is wrong with the places of drives' files, or why a lost drive's can't have a new file.
    fn report_place(&self, rt: &HostRuntime, folder: Folder<'_>) -> io::Result<()> {
        let at = folder.name;
        match self {
            Trouble::Path => eprintln!(rt; "raid_disk: PATH isn't the path of a file"),
            Trouble::Places => eprintln!(rt; "raid_disk: more paths are given than drives"),
            Trouble::PathThere => eprintln!(rt;
                "raid_disk: what PATH names is there already: nothing was made or changed"
            ),
            Trouble::NoPlaces => eprintln!(rt;
                "raid_disk: {at}/places isn't a list of places: a line for a drive is drive NUMBER PATH, one at most for each"
            ),
            Trouble::Doubled(drive) => eprintln!(rt;
                "raid_disk: drive {drive} has more than one file: take away all but one, or all"
            ),
            Trouble::Elsewhere(drive) => {
                let path = folder.path(rt.alloc(), Name::Drive(*drive))?;
                eprintln!(rt;
                    "raid_disk: drive {drive} has a file at another place than {path}: move it there, or take it away"
                )
            }
            Trouble::Occupied(drive, other) => {
                let path = folder.path(rt.alloc(), Name::Drive(*drive))?;
                let own = folder.path(rt.alloc(), Name::Drive(*other))?;
                eprintln!(rt; "raid_disk: {path} is drive {other}'s file: move it to {own}")
            }
            _ => self.report_path(rt, folder),
        }
    }

    // Says why nothing can be written at a path.
    fn report_path(&self, rt: &HostRuntime, folder: Folder<'_>) -> io::Result<()> {
        match self {
            Trouble::Taken(path) => eprintln!(rt;
                "raid_disk: {path} would be two files of the disk, or what one of them is called while it is replaced: give another path"
            ),
            Trouble::InTheWay(path) => eprintln!(rt;
                "raid_disk: {path} is there already, and isn't what an earlier attempt has left: take it away"
            ),
            Trouble::WriteAt(path, error) => eprintln!(rt;
                "raid_disk: {path} can't be written: {error}"
            ),
            _ => self.report_new(rt, folder),
        }
    }

    // Says why a new file isn't put at a drive's place, or isn't the drive's, or why there is none.
    fn report_new(&self, rt: &HostRuntime, folder: Folder<'_>) -> io::Result<()> {
        let at = folder.name;
        match self {
            Trouble::NewFails(drive) => {
                let path = folder.path(rt.alloc(), Name::Drive(*drive))?;
                eprintln!(rt;
                    "raid_disk: {path} was made and can't be read or written: drive {drive} stays lost"
                )
            }
            Trouble::LostBeside(drive) => {
                let path = folder.path(rt.alloc(), Name::Drive(*drive))?;
                eprintln!(rt;
                    "raid_disk: {path} is lost: replace it before a drive is added or removed"
                )
            }
            Trouble::Full => eprintln!(rt; "raid_disk: a disk has 16 drives at most"),
            Trouble::NotLast(drive, last) => eprintln!(rt;
                "raid_disk: the last drive alone can be removed: remove drive {last}; then drive {drive}'s file may be moved to where that one's was, if {at}/places has a line drive {drive} PATH"
            ),
            Trouble::Needed(drive) => eprintln!(rt;
                "raid_disk: drive {drive} can't be removed: the others have no room for what it has, or there would be fewer than 3"
            ),
            Trouble::OldThere(drive) => {
                let path = folder.path(rt.alloc(), Name::Drive(*drive))?;
                let old = folder.path(rt.alloc(), Name::OldDrive(*drive))?;
                eprintln!(rt;
                    "raid_disk: {path} would be kept as {old}, which is there already: take one of them away"
                )
            }
            _ => self.report_rotten(rt, folder),
        }
    }

    // Says which units aren't as their digests say.
    fn report_rotten(&self, rt: &HostRuntime, folder: Folder<'_>) -> io::Result<()> {
        match self {
            Trouble::Rotten(drive, address) => {
                let path = folder.path(rt.alloc(), name_of(*drive))?;
                eprintln!(rt;
                    "raid_disk: {path}: unit {address} isn't as its digest says: scrub or serve write it again, if no drive is lost"
                )
            }
            Trouble::RottenAndLost(drive) => {
                let path = folder.path(rt.alloc(), Name::Drive(*drive))?;
                eprintln!(rt;
                    "raid_disk: {path} is lost, and units of other drives aren't as their digests say: scrub --accept takes them as they are"
                )
            }
            Trouble::RottenTwice(slot) => {
                let at = folder.name;
                let group = slot / SLOTS;
                let index = slot % SLOTS;
                eprintln!(rt;
                    "raid_disk: {at}: slot {index} of group {group} has more than one unit that isn't as its digest says: scrub --accept takes them as they are"
                )
            }
            Trouble::RottenAndUnsound(slot) => {
                let at = folder.name;
                let group = slot / SLOTS;
                let index = slot % SLOTS;
                eprintln!(rt;
                    "raid_disk: {at}: units that aren't as their digests say can't be computed: those of slot {index} of group {group} contradict one another"
                )
            }
            _ => Ok(()),
        }
    }

    /// The drive whose file failed while it was read.
    pub(crate) fn failed_drive(&self) -> Option<u8> {
        match self {
            Trouble::Vault(VaultError::Drive(drive)) | Trouble::Unread(drive) if *drive < TABLE => {
                Some(*drive)
            }
            _ => None,
        }
    }
}

// The file of a number.
fn name_of(number: u8) -> Name {
    match number {
        TABLE => Name::State(Twin::First),
        TABLE_SECOND => Name::State(Twin::Second),
        JOURNAL => Name::Journal(Twin::First),
        SECOND => Name::Journal(Twin::Second),
        drive => Name::Drive(drive),
    }
}

fn report_pair(rt: &HostRuntime, folder: Folder<'_>, first: Name, second: Name) -> io::Result<()> {
    let one = folder.path(rt.alloc(), first)?;
    let other = folder.path(rt.alloc(), second)?;
    eprintln!(rt;
        "raid_disk: neither {one} nor {other} can be read and written, or the newer one can't: without it nothing can be read"
    )
}

fn report_older(rt: &HostRuntime, folder: Folder<'_>) -> io::Result<()> {
    let one = folder.path(rt.alloc(), Name::Journal(Twin::First))?;
    let other = folder.path(rt.alloc(), Name::Journal(Twin::Second))?;
    eprintln!(rt;
        "raid_disk: {one} and {other} are older copies, and would be written over newer units: put the newer ones back"
    )
}

fn report_shape(rt: &HostRuntime, fault: &ShapeFault) -> io::Result<()> {
    match fault {
        ShapeFault::Drives => eprintln!(rt; "raid_disk: a disk has 3 to 16 drives"),
        ShapeFault::Block => eprintln!(rt;
            "raid_disk: a block has 8 to 65536 bytes, a multiple of 8"
        ),
        ShapeFault::Empty => eprintln!(rt; "raid_disk: a disk has at least one byte"),
        ShapeFault::TooLarge(most) => {
            eprintln!(rt; "raid_disk: the largest disk of these drives and blocks has {most} bytes")
        }
    }
}

/// The trouble of a file that can't be read.
pub(crate) fn unread(error: io::Error, name: Name) -> Trouble {
    match error.kind() {
        io::ErrorKind::OutOfMemory => Trouble::Memory,
        _ => Trouble::Read(name, error),
    }
}

/// The trouble of a path where no file can be written.
pub(crate) fn unwritten_at(alloc: Global, path: &str, error: io::Error) -> Trouble {
    match String::from_str(alloc, path) {
        Ok(path) if error.kind() != io::ErrorKind::OutOfMemory => Trouble::WriteAt(path, error),
        _ => Trouble::Memory,
    }
}

/// The trouble of a file that can't be written.
pub(crate) fn unwritten(error: io::Error, name: Name) -> Trouble {
    match error.kind() {
        io::ErrorKind::OutOfMemory => Trouble::Memory,
        _ => Trouble::Write(name, error),
    }
}

impl From<AllocError> for Trouble {
    fn from(_: AllocError) -> Trouble {
        Trouble::Memory
    }
}

impl<T: Drop> From<AllocFailed<T>> for Trouble {
    fn from(_: AllocFailed<T>) -> Trouble {
        Trouble::Memory
    }
}
