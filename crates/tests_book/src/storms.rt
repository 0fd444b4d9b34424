// Storms of workers, all of which agree, and what the workers carried out.
use crate::asserts::check;
use step_core::Refusal;
use storm::{Fuse, Orders, Storm, StormFault, Tally, run_orders, run_storm};

// What was carried out, where the maps agree.
fn tally(reported: Result<Storm, StormFault>) -> Option<Tally> {
    match reported {
        Ok(Storm::Agreed(tally)) => Some(tally),
        _ => None,
    }
}

// From the fifth round on five blocks lie in mirrored groups after each write, and one of them is moved. No worker takes records of
// the controller at which worker 0 reads.
#[test]
fn a_worker_alone_writes_and_reads_each_round_and_moves_from_the_fifth_on(rt: HostRuntime) {
    let reported = tally(run_storm(&rt, rt.alloc(), 1, 50));
    let expected = Tally {
        writes: 50,
        moves: 46,
        reads: 0,
        blanks: 50,
        lost: 0,
    };
    check!(rt; reported == Some(expected));
}

// A write may find no slot while others hold them, but fewer than one in sixteen should.
#[test]
fn one_to_eight_workers_of_fifty_rounds_agree(rt: HostRuntime) {
    for workers in 1..9u8 {
        let Some(reported) = tally(run_storm(&rt, rt.alloc(), workers, 50)) else {
            panic!(rt; "{workers} workers")
        };
        let rounds = 50 * u64::from(workers);
        assert!(rt;
            reported.writes <= rounds && reported.writes > rounds - rounds / 16,
            "{workers} workers"
        );
        assert!(rt;
            reported.moves > 0 && reported.lost == 0,
            "{workers} workers"
        );
        assert!(rt; workers == 1 || reported.reads > 0, "{workers} workers");
    }
}

#[test]
fn two_hundred_storms_in_a_row_agree(rt: HostRuntime) {
    for run in 0..200u8 {
        let reported = tally(run_storm(&rt, rt.alloc(), 1 + run % 8, 4));
        assert!(rt; reported.is_some(), "run {run}");
    }
}

#[test]
fn storms_agree_whichever_drive_is_lost_at_whichever_call(rt: HostRuntime) {
    for drive in 0..4u8 {
        for calls in [1, 10, 100] {
            let orders = Orders {
                workers: 4,
                writes: 20,
                payload: 8,
                fuse: Some(Fuse { drive, calls }),
            };
            let Some(reported) = tally(run_orders(&rt, rt.alloc(), orders)) else {
                panic!(rt; "drive {drive} at call {calls}")
            };
            assert!(rt;
                calls > 1 || reported.lost == 1,
                "drive {drive} at call {calls}"
            );
        }
    }
}

#[test]
fn sixteen_workers_can_be_had_and_no_more(rt: HostRuntime) {
    check!(rt; tally(run_storm(&rt, rt.alloc(), 16, 4)).is_some());
    let full = StormFault::Setup(Refusal::Full);
    check!(rt; run_storm(&rt, rt.alloc(), 17, 4) == Err(full));
}

#[test]
fn storms_of_long_payloads_agree_and_of_odd_ones_there_are_none(rt: HostRuntime) {
    for payload in [4_096, 65_536] {
        let reported = tally(run_orders(&rt, rt.alloc(), of_payload(payload)));
        assert!(rt; reported.is_some(), "{payload} bytes");
    }
    let none = StormFault::Setup(Refusal::BadMember);
    for payload in [12, 0] {
        let reported = run_orders(&rt, rt.alloc(), of_payload(payload));
        assert!(rt; reported == Err(none), "{payload} bytes");
    }
}

// Three workers of twenty rounds, with payloads of this many bytes.
fn of_payload(payload: u32) -> Orders {
    Orders {
        workers: 3,
        writes: 20,
        payload,
        fuse: None,
    }
}
