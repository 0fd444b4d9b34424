// What was seen at a path.

/// What was seen at a path where a drive's file may be.
#[derive(Clone, Copy, Debug, PartialEq, Eq)]
pub enum Sight {
    /// There is nothing.
    Absent,
    /// It can't be opened or read; with the system's number for why, if it gave one.
    Unreadable(Option<i32>),
    /// It isn't a file, or not one of this disk.
    Foreign,
    /// It is a file of this disk, and no drive's.
    NoDrive,
    /// It is this drive's, and is cut or longer.
    Resized(u8),
    /// It is the file of an earlier path, under another name.
    Again,
    /// It is this drive's file, as long as it has to be.
    Drive(u8),
}
