// The line that is written of a storm, for each end, and a line that can't be written.
use crate::asserts::check;
use step_core::Refusal;
use storm::{Reported, Storm, StormFault, Tally, end_storm, report_storm};

// A storm of which nothing was carried out.
fn agreed() -> Result<Storm, StormFault> {
    Ok(Storm::Agreed(Tally {
        writes: 0,
        moves: 0,
        reads: 0,
        blanks: 0,
        lost: 0,
    }))
}

// Each line is appended to what was written before.
#[test]
fn each_end_of_a_storm_is_reported_in_its_line(rt: HostRuntime) {
    let mut lines = Vec::new(rt.alloc());
    check!(rt; report_storm(&mut lines, agreed()) == Reported::Agreed);
    check!(rt; report_storm(&mut lines, Ok(Storm::Differs(70))) == Reported::Differs);
    let none = Err(StormFault::Setup(Refusal::Memory));
    check!(rt; report_storm(&mut lines, none) == Reported::Nothing);
    check!(rt; lines.as_slice() == b"agreed\ndiffers 70\n".as_slice());
}

// What is written into a buffer of this size.
fn reported_in(room: &mut [u8], ended: Result<Storm, StormFault>) -> Reported {
    let mut left = room;
    report_storm(&mut left, ended)
}

// A line that doesn't fit into the buffer is reported as unwritten.
#[test]
fn a_line_without_room_for_its_end_is_unwritten(rt: HostRuntime) {
    let mut six = [0; 6];
    let mut seven = [0; 7];
    let mut ten = [0; 10];
    check!(rt; reported_in(&mut six, agreed()) == Reported::Unwritten);
    check!(rt; reported_in(&mut seven, agreed()) == Reported::Agreed);
    check!(rt; reported_in(&mut ten, Ok(Storm::Differs(10))) == Reported::Unwritten);
    check!(rt; reported_in(&mut ten, Ok(Storm::Differs(9))) == Reported::Differs);
    check!(rt; ten == *b"differs 9\n");
}

// No run of a storm ends with maps that differ, so the test makes up this end.
#[test]
fn maps_that_differ_end_with_their_own_status(rt: HostRuntime) {
    let mut line = Vec::new(rt.alloc());
    check!(rt; end_storm(&mut line, Ok(Storm::Differs(70))) == 3);
    check!(rt; line.as_slice() == b"differs 70\n".as_slice());
}
