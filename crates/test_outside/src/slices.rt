ghost use Rattle.std.specs.Prelude.{◌≤◌, ◌^◌};

use crate::disks::holds;
use disk_model::{Disk, Failed};
use slice_disk::SliceDisk;
use std::process::Abort;

const FILE: [u8; 4] = [1, 2, 3, 4];

// Checks what a read of three bytes from `at` on gives.
fn check_read<D: Disk>(rt: &impl Abort, disk: &mut D, at: u64, wanted: [u8; 3])
    requires { at ≤ 2 ^ 36 }
{
    let mut found = [9u8; 3];
    holds(rt, disk.read_at(at, found.as_mut_slice()) == Ok(()));
    holds(rt, found == wanted);
}

#[test]
fn reads_give_the_bytes_and_zeros_behind_them(rt: HostRuntime) {
    let mut disk = SliceDisk::new(&FILE);
    check_read(&rt, &mut disk, 0, [1, 2, 3]);
    check_read(&rt, &mut disk, 1, [2, 3, 4]);
    check_read(&rt, &mut disk, 2, [3, 4, 0]);
    check_read(&rt, &mut disk, 3, [4, 0, 0]);
    check_read(&rt, &mut disk, 4, [0, 0, 0]);
    check_read(&rt, &mut disk, 1 << 36, [0, 0, 0]);
    holds(&rt, disk.size() == Ok(4));
}

// Checks that a disk of four bytes is not written.
fn check_unwritten<D: Disk>(rt: &impl Abort, disk: &mut D) {
    holds(rt, disk.write_at(0, &[7]) == Err(Failed));
    holds(rt, disk.sync() == Err(Failed));
    let mut found = [9u8; 4];
    holds(rt, disk.read_at(0, found.as_mut_slice()) == Ok(()));
    holds(rt, found == FILE);
}

#[test]
fn nothing_is_written(rt: HostRuntime) {
    check_unwritten(&rt, &mut SliceDisk::new(&FILE));
}
