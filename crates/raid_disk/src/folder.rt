//! The files of a disk.
use file_vault::Twin;
use std::alloc::{AllocError, Global};
use std::fs::File;
use std::io;

/// A file of a disk's folder.
#[derive(Clone, Copy, Debug, PartialEq, Eq)]
pub(crate) enum Name {
    /// The folder itself.
    Folder,
    /// The table.
    Table,
    /// The table once more.
    TableCopy,
    /// The table until it is whole.
    Fresh,
    /// A file of the state: which drives are lost, the groups, and the number of drives.
    State(Twin),
    /// The state of a disk that has one file of it.
    OneState,
    /// The journal of a disk that has one file of it.
    OneJournal,
    /// A file of the journal.
    Journal(Twin),
    /// The file of a drive.
    Drive(u8),
    /// The file of a drive that is replaced, until it is whole.
    FreshDrive(u8),
    /// What was at the place of a drive that is replaced.
    OldDrive(u8),
    /// Where drives' files are that aren't in the folder.
    Places,
    /// What is under way.
    Progress,
    /// The same until it is whole.
    FreshProgress,
    /// Where units are compared next.
    Scrub,
    /// The system's file with another number at each read.
    Random,
}

impl Name {
    /// The path of the system's file.
    pub(crate) fn system_path(&self) -> &'static str {
        "/proc/sys/kernel/random/uuid"
    }
}

/// The folder of a disk, and where the files of its drives may be.
#[derive(Clone, Copy)]
pub(crate) struct Folder<'a> {
    pub(crate) name: &'a str,
    /// A drive's own place, by its number; empty, or none, where it is in the folder.
    pub(crate) places: &'a [String],
    /// Further paths where drives' files may be.
    pub(crate) others: &'a [String],
    /// A drive whose file failed while it was read, and is left out.
    pub(crate) without: Option<u8>,
}

impl<'a> Folder<'a> {
    /// The path of a file.
    pub(crate) fn path(&self, alloc: Global, name: Name) -> Result<String, AllocError> {
        let folder = self.name;
        match name {
            Name::Folder => format!(in alloc; "{folder}"),
            Name::Table => format!(in alloc; "{folder}/table"),
            Name::TableCopy => format!(in alloc; "{folder}/table.copy"),
            Name::Fresh => format!(in alloc; "{folder}/table.new"),
            Name::State(Twin::First) => format!(in alloc; "{folder}/state0"),
            Name::State(Twin::Second) => format!(in alloc; "{folder}/state1"),
            Name::OneState => format!(in alloc; "{folder}/state"),
            Name::OneJournal => format!(in alloc; "{folder}/journal"),
            Name::Journal(Twin::First) => format!(in alloc; "{folder}/journal0"),
            Name::Journal(Twin::Second) => format!(in alloc; "{folder}/journal1"),
            Name::Drive(drive) => self.drive_path(alloc, drive, ""),
            Name::FreshDrive(drive) => self.drive_path(alloc, drive, ".new"),
            Name::OldDrive(drive) => self.drive_path(alloc, drive, ".old"),
            Name::Places => format!(in alloc; "{folder}/places"),
            Name::Progress => format!(in alloc; "{folder}/progress"),
            Name::FreshProgress => format!(in alloc; "{folder}/progress.new"),
            Name::Scrub => format!(in alloc; "{folder}/scrub"),
            Name::Random => {
                let path = name.system_path();
                format!(in alloc; "{path}")
            }
        }
    }

    // The path of a drive's file, with an ending.
    fn drive_path(&self, alloc: Global, drive: u8, ending: &str) -> Result<String, AllocError> {
        let folder = self.name;
        let place: &str = match self.places.get(usize::from(drive)) {
            Some(place) => place,
            None => "",
        };
        if place.is_empty() {
            format!(in alloc; "{folder}/drive{drive}{ending}")
        } else if place.starts_with("/") {
            format!(in alloc; "{place}{ending}")
        } else {
            format!(in alloc; "{folder}/{place}{ending}")
        }
    }

    /// The folder itself, open. A lock on it is one on the disk.
    pub(crate) fn open(&self, rt: &HostRuntime) -> io::Result<File> {
        File::open(rt, self.name)
    }

    /// Makes the folder's entries durable.
    pub(crate) fn sync(&self, rt: &HostRuntime) -> io::Result<()> {
        self.open(rt)?.sync_all()
    }

    /// Makes the entries of the folder durable in which a file is.
    pub(crate) fn sync_above(&self, rt: &HostRuntime, name: Name) -> io::Result<()> {
        let Ok(path) = self.path(rt.alloc(), name) else {
            return Err(io::Error::from(io::ErrorKind::OutOfMemory));
        };
        let above: &str = match path.rsplit_once("/") {
            Some(("", _)) => "/",
            Some((above, _)) => above,
            None => ".",
        };
        File::open(rt, above)?.sync_all()
    }

    /// The disk's folder with a drive left out.
    pub(crate) fn without(&self, drive: Option<u8>) -> Folder<'a> {
        Folder {
            name: self.name,
            places: self.places,
            others: self.others,
            without: drive,
        }
    }
}
