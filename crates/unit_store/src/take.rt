// Dissolving a group.
ghost use Rattle.std.specs.Prelude.{IsSome};
ghost use Rattle.extent_groups.specs.Groups.{group_at};
ghost use Rattle.unit_store.specs.Fit.{IsFit};
ghost use Rattle.unit_store.specs.Views.{view_of, WasTaken};

use crate::Parts;
use extents::Drive;

impl<D: Drive> Parts<D> {
    /// Dissolves a group: its extents are free then, and no drive is used.
    pub fn take(&mut self, group: u16)
        requires fit { IsFit D.units self.old }
        requires made { IsSome (group_at self.old.groups group) }
        ensures taken { WasTaken (view_of D.units D.lost D.failures self.old) group (view_of D.units D.lost D.failures self.new) }
        ensures fit { IsFit D.units self.new }
    {
        // Not refused, because the group is made.
        let _taken = self.groups.take_group(&mut self.extents, group);
    }
}
