use crate::disks::Call::{self, Read, Size, Sync, Write};
use crate::disks::{Any, holds, make};
use disk_model::Disk;
use plan_disk::{PlanDisk, Step, crash_in_step, same_base};
use std::process::Abort;

const FILE: [u8; 3] = [1, 2, 3];

// Is a run of a plan's disk over 1, 2, 3, whose file may have 8 bytes.
struct Run {
    calls: &'static [Call],
    answers: &'static [bool],
    // Has of each step its place, its size and whether it is a sync.
    steps: &'static [(u64, u64, bool)],
    written: &'static [u8],
    // Is the file after the plan, and then bytes 5 of the room that it is copied to.
    room: [u8; 8],
}

const RUNS: [Run; 3] = [
    // Tells the steps in their order, and fills a gap with 0.
    Run {
        calls: &[Write(1, &[9, 8]), Sync, Write(5, &[7])],
        answers: &[true, true, true],
        steps: &[(1, 2, false), (0, 0, true), (5, 1, false)],
        written: &[9, 8, 7],
        room: [1, 9, 8, 0, 0, 7, 5, 5],
    },
    // Refuses a write past the greatest size.
    Run {
        calls: &[Write(7, &[9, 9]), Size, Write(7, &[4]), Read],
        answers: &[false, true, true, true],
        steps: &[(7, 1, false)],
        written: &[4],
        room: [1, 2, 3, 0, 0, 0, 0, 4],
    },
    // Reads the newest write.
    Run {
        calls: &[Write(0, &[6, 6]), Write(1, &[9])],
        answers: &[true, true],
        steps: &[(0, 2, false), (1, 1, false)],
        written: &[6, 6, 9],
        room: [6, 9, 3, 5, 5, 5, 5, 5],
    },
];

// Compares the steps of a plan.
fn check_steps(rt: &impl Abort, steps: &[Step], wanted: &[(u64, u64, bool)]) {
    holds(rt, steps.len() == wanted.len());
    for (step, (at, size, is_sync)) in steps.iter().zip(wanted) {
        holds(
            rt,
            step.at == *at && step.size == *size && step.is_sync == *is_sync,
        );
    }
}

// Checks a run.
fn check(rt: &(impl AllocGlobal + Abort), run: &Run) {
    let mut disk = PlanDisk::new(rt.alloc(), &FILE, 8);
    for (call, want) in run.calls.iter().zip(run.answers) {
        holds(rt, make(rt, &mut disk, call) == *want);
    }
    holds(rt, disk.base() == FILE.as_slice());
    check_steps(rt, disk.steps(), run.steps);
    holds(rt, disk.written() == run.written);
    let mut room = [5; 8];
    assert!(rt; disk.size_now() <= 8);
    disk.copy_to(&mut room);
    holds(rt, room == run.room);
}

#[test]
fn a_plan_tells_the_writes_and_syncs(rt: HostRuntime) {
    for run in &RUNS {
        check(&rt, run);
    }
}

// Reads eight bytes around the place where the second page begins.
fn around_the_second_page<D: Disk>(rt: &impl Abort, disk: &mut D) -> [u8; 8] {
    let mut buf = [9; 8];
    holds(rt, disk.read_at(4092, &mut buf) == Ok(()));
    buf
}

#[test]
fn a_write_goes_over_the_end_of_a_page(rt: HostRuntime) {
    let file = vec![in rt.alloc(); 7; 4098].expect(&rt, "memory");
    let mut disk = PlanDisk::new(rt.alloc(), &file, 9000);
    let found = around_the_second_page(&rt, &mut disk);
    holds(&rt, found == [7, 7, 7, 7, 7, 7, 0, 0]);
    holds(&rt, make(&rt, &mut disk, &Write(4095, &[1, 2, 3, 4])));
    let found = around_the_second_page(&rt, &mut disk);
    holds(&rt, found == [7, 7, 7, 1, 2, 3, 4, 0]);
    holds(&rt, disk.size() == Ok(4099));
    holds(&rt, disk.faults() == 0);
    same_base::<Any>(&disk, &disk);
    crash_in_step(&disk);
}
