// Where the write log goes on, and when a block has to be demoted.
ghost use Rattle.std.specs.Prelude.{◌≡◌, ◌↔◌, ◌<◌, ◌+◌, ◌/◌, ◌%◌, IsTrue};

use extent_groups::SLOTS;
use std::marker::Model;

/// The group to which the log last appended, if any, and the next index in it.
#[derive(Drop)]
pub struct LogEnd {
    group: Option<u16>,
    next: u16,
}

impl Model for LogEnd {
    ghost use Rattle.migrator.specs.Slots.{End};

    ghost Value = { End };

    ghost view = { λ end. record { group = end.group; next = end.next } };
}

impl LogEnd {
    ghost use Rattle.migrator.specs.Slots.{at_start, end_at};

    /// The end of an empty log.
    pub fn new() -> LogEnd
        ensures { result ≡ at_start }
    {
        LogEnd {
            group: None,
            next: 0,
        }
    }

    /// Notes that the log appended to a slot: it goes on after that.
    pub fn appended(&mut self, slot: u16)
        ensures { self.new ≡ end_at slot }
    {
        self.group = Some(slot / SLOTS);
        self.next = slot % SLOTS + 1;
    }

    /// The write group, none where nothing was appended yet.
    pub fn group(&self) -> Option<u16>
        ensures { result ≡ self.now.group }
    {
        self.group
    }

    pub(crate) fn next(&self) -> u16
        ensures { result ≡ self.now.next }
    {
        self.next
    }
}

/// Whether a block has to be demoted: fewer than `low` slots are free.
pub fn needs_demotion(free: u32, low: u32) -> bool
    ensures { IsTrue result ↔ (free < low) }
{
    free < low
}
