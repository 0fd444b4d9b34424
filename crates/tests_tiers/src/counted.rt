// Steps and a script's commands over a drive of one's own that a run can add and lose.
ghost use Rattle.std.specs.Prelude.{◌≡◌, true};
ghost use Rattle.extents.specs.Failures.{no_failures, settled};

use crate::asserts::check;
use crate::commands::{
    four_groups, is_shift, reads_all, small_shape, trim, use_balance, use_plans,
};
use crate::rig::{shape_of, world_with};
use crate::steps::{fill, make, push, run_all};
use extents::{Drive, DriveLost, HotSwap, MemDrive, Shape};
use std::alloc::{Alloc, AllocError, Global};
use std::process::Abort;
use step_core::{Answer, Class, Refusal, Step, World, run_steps};
use tiered_array::{Regrouped, Tiers};

// A drive, and how many reads and writes it was asked for.
#[derive(Drop)]
struct Counted<D> {
    drive: D,
    calls: u64,
}

impl<D: Drive> Counted<D> {
    fn count(&mut self)
        ensures { self.new.drive ≡ self.old.drive }
    {
        self.calls = self.calls.saturating_add(1);
    }
}

impl<D: Drive> Drive for Counted<D> {
    ghost units = { λ c. D.units c.drive };

    ghost lost = { λ c. D.lost c.drive };

    ghost failures = { λ c. D.failures c.drive };

    fn units(&self) -> u32 {
        self.drive.units()
    }

    fn unit_bytes(&self) -> usize {
        self.drive.unit_bytes()
    }

    fn is_lost(&self) -> bool {
        self.drive.is_lost()
    }

    fn read_unit(&mut self, at: u32, unit: &mut [u8]) -> Result<(), DriveLost> {
        self.count();
        self.drive.read_unit(at, unit)
    }

    fn write_unit(&mut self, at: u32, unit: &[u8]) -> Result<(), DriveLost> {
        self.count();
        self.drive.write_unit(at, unit)
    }

    fn sync(&mut self) -> Result<(), DriveLost> {
        self.drive.sync()
    }
}

impl<D: HotSwap> HotSwap for Counted<D> {
    fn fresh(alloc: Global, shape: &Shape) -> Result<Counted<D>, AllocError> {
        let drive = D::fresh(alloc, shape)?;
        Ok(Counted { drive, calls: 0 })
    }

    fn lose(&mut self) {
        self.drive.lose();
    }
}

fn counted_drives(rt: &impl Abort, alloc: Global, shape: &Shape) -> Vec<Counted<MemDrive>> {
    let mut drives = Vec::new(alloc);
    for _made in 0..4 {
        let Ok(drive) = Counted::fresh(alloc, shape) else {
            rt.panic("no drive")
        };
        let pushed = drives.push(drive).is_ok();
        check!(rt; pushed);
    }
    drives
}

fn counted_world(rt: &impl Abort, alloc: Global, shape: Shape) -> World<Counted<MemDrive>> {
    world_with(rt, alloc, shape, counted_drives(rt, alloc, &shape))
}

// A mirrored group; worker 2 writes block 3 into slot 4, worker 5 reads it.
fn opening(rt: &impl Abort, alloc: Global) -> Vec<Step> {
    let mut steps = Vec::new(alloc);
    make(rt, alloc, &mut steps, Class::Mirrored, [0, 1, 2], 0);
    fill(rt, alloc, &mut steps, 2, 4, [9, 1, 2, 3, 4, 5, 6, 7]);
    push(
        rt,
        &mut steps,
        Step::Commit {
            worker: 2,
            slot: 4,
            block: 3,
        },
    );
    push(rt, &mut steps, Step::Read { block: 3 });
    steps
}

// Whether block 3 is read as version 1 with the payload that was written.
fn is_read(answer: Option<&Answer>) -> bool {
    match answer {
        Some(Answer::Read(Some((1, payload)))) => payload[..] == [9, 1, 2, 3, 4, 5, 6, 7],
        _ => false,
    }
}

// A drive is lost, with one copy of block 3, and one is added: the block is read all the same.
#[test]
fn a_run_adds_and_loses_drives_of_ones_own(rt: HostRuntime) {
    let alloc = rt.alloc();
    let world = counted_world(&rt, alloc, shape_of(&rt));
    let mut steps = opening(&rt, alloc);
    push(&rt, &mut steps, Step::Lose { drive: 1 });
    push(&rt, &mut steps, Step::AddDrive);
    push(&rt, &mut steps, Step::Read { block: 3 });
    push(&rt, &mut steps, Step::Lose { drive: 9 });
    check!(rt; steps.iter().all(|step| world.fits(step)));
    let Ok(run) = run_steps(alloc, world, &steps) else {
        rt.panic("stopped")
    };
    let answers = &run.answers;
    check!(rt; answers.len() == 9);
    check!(rt; matches!(answers.first(), Some(Answer::Made(0))));
    check!(rt; matches!(answers.get(1), Some(Answer::Claimed(4))));
    check!(rt; matches!(answers.get(2), Some(Answer::Filled(4))));
    check!(rt; is_read(answers.get(4)));
    check!(rt; matches!(answers.get(5), Some(Answer::Lost(1))));
    check!(rt; matches!(answers.get(6), Some(Answer::Added(4))));
    check!(rt; is_read(answers.get(7)));
    check!(rt; matches!(answers.get(8), Some(Answer::Refused(Refusal::BadMember))));
}

// The steps without a loss run over drives of any kind.
#[test]
fn steps_that_swap_no_drive_run_over_any_kind(rt: HostRuntime) {
    let alloc = rt.alloc();
    run_all(&rt, alloc, counted_world(&rt, alloc, shape_of(&rt)));
    check!(&rt; !Step::AddDrive.swaps_no_drive());
    check!(&rt; !Step::Lose { drive: 0 }.swaps_no_drive());
}

// A script's commands over drives of one's own: plans, an added drive, a balance, a lost drive, and a rebuild.
#[test]
fn commands_of_a_script_work_over_counted_drives(rt: HostRuntime) {
    let alloc = rt.alloc();
    let world = counted_world(&rt, alloc, small_shape(&rt));
    let mut tiers = four_groups(&rt, alloc, world);
    use_plans(&rt, alloc, &mut tiers);
    check!(&rt; reads_all(&rt, &mut tiers));
    swap_drives(&rt, alloc, &mut tiers);
    check!(&rt; reads_all(&rt, &mut tiers));
    trim(&rt, alloc, &mut tiers, 2);
}

fn swap_drives(rt: &impl Abort, alloc: Global, tiers: &mut Tiers<Counted<MemDrive>>) {
    let none = matches!(tiers.balance(), Ok(Regrouped::Nothing));
    check!(rt; none);
    let added = matches!(tiers.add_drive(alloc), Ok(Answer::Added(4)));
    check!(rt; added);
    let balanced = is_shift(tiers.balance(), 0, 0, (4, 0));
    check!(rt; balanced);
    let lost = matches!(tiers.lose(1), Answer::Lost(1));
    check!(rt; lost);
    let rebuilt = is_shift(tiers.rebuild(1), 0, 1, (0, 0));
    check!(rt; rebuilt);
    let balanced = is_shift(tiers.balance(), 2, 0, (4, 1));
    check!(rt; balanced);
}

#[test]
fn groups_are_balanced_over_counted_drives(rt: HostRuntime) {
    let alloc = rt.alloc();
    use_balance(&rt, alloc, counted_world(&rt, alloc, small_shape(&rt)));
}
