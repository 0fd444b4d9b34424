//! A vault over files, and files in memory that a stop leaves in each way that real ones may be left.
#![tactic(auto)]

mod blank;
mod chain;
mod files;
mod header;
mod held;
mod joined;
mod journal;
mod laws;
mod layout;
mod mem_files;
mod over_files;
mod real_files;
mod record;
mod recovery;
mod renumbered;
mod sealed;
mod stamp;
mod stamped_files;
mod twin;
mod twin_files;
mod verdict;

pub use files::{FileFault, Files};
pub use header::{Header, read_header, write_header};
pub use held::Held;
pub use joined::Found;
pub use laws::rot_law;
pub use layout::{HEADER, JOURNAL, Layout, TABLE_UNITS};
pub use mem_files::MemFiles;
pub use over_files::FileVault;
pub use real_files::RealFiles;
pub use renumbered::{PairedFiles, Renumbered, TABLE_SECOND};
pub use stamp::{TABLE_FILE, is_current, lower_generation_law, read_generation};
pub use stamped_files::StampedFiles;
pub use twin::{SECOND, Twin, read_count};
pub use twin_files::TwinFiles;
pub use verdict::{Verdict, judge};
