// The numbers of the faults of a Book and of a storm, as they are listed.
use crate::asserts::check;
use array_book::{RunFault, SettleFault, WorkFault};
use step_core::Refusal;
use storm::StormFault;

#[test]
fn each_fault_has_its_number(rt: HostRuntime) {
    let gone = WorkFault::Core(Refusal::Gone(7));
    for (fault, number) in [(WorkFault::NoRoom, 1), (gone, 2), (WorkFault::Memory, 3)] {
        check!(rt; fault.number() == number);
    }
    let (differs, part) = (SettleFault::Differs(9), SettleFault::NotWhole(5));
    for (fault, number) in [(differs, 1), (SettleFault::Memory, 2), (part, 3)] {
        check!(rt; fault.number() == number);
    }
    for (fault, number) in [(RunFault::Memory, 1), (RunFault::Job(6, gone), 2)] {
        check!(rt; fault.number() == number);
    }
    let run = StormFault::Run(RunFault::Memory);
    let setup = StormFault::Setup(Refusal::Full);
    let settle = StormFault::Settle(part);
    let missing = StormFault::Missing(5);
    for (fault, number) in [(setup, 1), (run, 2), (settle, 3), (missing, 4)] {
        check!(rt; fault.number() == number);
    }
}
