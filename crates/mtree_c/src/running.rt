// Runs a script on a file, or does with it what is asked. The file stays as it is.
ghost use Rattle.std.specs.Prelude.{◌≡◌, IfSome};
ghost use Rattle.plan_disk.specs.Plan.{file_of};
ghost use Rattle.mtree_c.specs.Sessions.{IsAsked, IsSession};

use bulk_load::Alone;
use caller_ends::{Gathered, SliceSource};
use plan_disk::PlanDisk;
use session_run::{Requests, run_requests, run_session};
use std::alloc::Global;

/// The greatest number of bytes of a disk.
pub const MOST: u64 = 1 << 37;

/// What a session came to.
#[derive(Drop)]
pub struct Ran<'a> {
    /// The status of the job.
    pub status: u8,
    /// The plan of what the session does to the file.
    pub disk: PlanDisk<'a>,
    /// The replies.
    pub text: Gathered,
    /// The frames of the logs.
    pub log: Gathered,
}

/// Runs `script` on the bytes of an index file, as the program's `session` does. Returns none where memory ran out.
pub fn run<'a>(alloc: Global, file: &'a [u8], show_tags: bool, script: &[u8]) -> Option<Ran<'a>>
    ensures { IfSome result (λ ran. IsSession show_tags script.now file.now
        (record { plan = ran.disk; text = ran.text.bytes.items; log = ran.log.bytes.items }) ran.status) }
{
    let mut disk = PlanDisk::new(alloc, file, MOST);
    let mut source = SliceSource::new(script);
    let mut text = Gathered::new(alloc);
    let mut log = Gathered::new(alloc);
    let status = run_session(
        &Alone,
        alloc,
        &mut disk,
        1,
        show_tags,
        &mut source,
        &mut text,
        &mut log,
    );
    // The disk and the outputs fail only where memory runs out.
    if status.0 == 8 || disk.faults() > 0 || text.faults > 0 || log.faults > 0 {
        return None;
    }
    // It is the same file still, but no contract of what is done to a disk says so.
    if disk.base() != file {
        return None;
    }
    Some(Ran {
        status: status.0,
        disk,
        text,
        log,
    })
}

/// Does what is asked on the bytes of an index file. Returns none where memory ran out.
pub fn run_asked<'a, S: Requests>(alloc: Global, file: &'a [u8], requests: S) -> Option<Ran<'a>>
    ensures { IfSome result (λ ran. IsAsked (S.commands requests) file.now
        (record { plan = ran.disk; text = ran.text.bytes.items; log = ran.log.bytes.items }) ran.status) }
{
    let mut disk = PlanDisk::new(alloc, file, MOST);
    let mut text = Gathered::new(alloc);
    let mut log = Gathered::new(alloc);
    let status = run_requests(
        &Alone, alloc, &mut disk, 1, false, requests, &mut text, &mut log,
    );
    // The disk and the outputs fail only where memory runs out.
    if status.0 == 8 || disk.faults() > 0 || text.faults > 0 || log.faults > 0 {
        return None;
    }
    // It is the same file still, but no contract of what is done to a disk says so.
    if disk.base() != file {
        return None;
    }
    Some(Ran {
        status: status.0,
        disk,
        text,
        log,
    })
}

/// Returns the file after a plan, or none where memory ran out.
pub fn file_after(alloc: Global, disk: &PlanDisk<'_>) -> Option<Vec<u8>>
    ensures { IfSome result (λ file. file.items ≡ file_of disk.now) }
{
    let Ok(mut file) = vec![in alloc; 0; disk.size_now() as usize] else {
        return None;
    };
    disk.copy_to(&mut file);
    Some(file)
}
