// Drives that are lost from outside.
ghost use Rattle.std.specs.Prelude.{◌≡◌, ◌<◌, length};
ghost use Rattle.slot_tables.specs.Views.{with_parts};
ghost use Rattle.disk_array.specs.Losing.{WasLost};

use crate::array::Array;
use extents::HotSwap;
use slot_tables::Hold;

impl<D: HotSwap, C: Hold> Array<D, C> {
    /// Loses a drive from outside: it answers no later call, and counts no failure of its own.
    pub fn lose(&mut self, drive: u8)
        requires { drive < length self.old.parts.drives }
        ensures lost { WasLost self.old.parts self.new.parts drive }
        ensures rest { self.new ≡ with_parts self.old self.new.parts }
    {
        self.parts.lose(drive);
    }
}
