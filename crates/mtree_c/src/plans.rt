// Hands over what a script, or what else is asked, would do to a file.
ghost use Rattle.std.specs.Prelude.{◌≡◌, ◌≢◌, ◌⊎◌};
ghost use Rattle.caller_ends.specs.Rooms.{StandAtFront};
ghost use Rattle.mtree_c.specs.Handed.{HandsPlan, HasNoRoomForPlan, plan_sizes};
ghost use Rattle.mtree_c.specs.Sessions.{IsAsked, IsSession};

use crate::running::{Ran, run, run_asked};
use crate::{MEMORY, SHORT};
use caller_ends::put_front;
use plan_disk::Step;
use session_run::Requests;
use std::alloc::Global;

/// The sizes of a plan.
#[repr(C)]
#[derive(Clone, Copy, PartialEq, Eq)]
pub struct PlanSizes {
    /// The number of writes and syncs.
    pub steps: usize,
    /// The bytes of the writes.
    pub written: usize,
    /// The bytes of the replies.
    pub text: usize,
    /// The bytes of the frames of the logs.
    pub log: usize,
}

/// The sizes where nothing is handed over.
pub const NO_PLAN: PlanSizes = PlanSizes {
    steps: 0,
    written: 0,
    text: 0,
    log: 0,
};

// Hands over what a session came to. Returns 4 where a buffer has no room for its part.
fn hand_plan(
    ran: &Ran<'_>,
    steps: &mut [Step],
    written: &mut [u8],
    text: &mut [u8],
    log: &mut [u8],
    sizes: &mut PlanSizes,
) -> u8
    ensures sizes { sizes.new ≡ plan_sizes
        (record { plan = ran.now.disk; text = ran.now.text.bytes.items; log = ran.now.log.bytes.items }) }
    ensures done { result ≢ 4 → (result ≡ ran.now.status) × StandAtFront ran.now.disk.steps steps.old steps.new
        × StandAtFront ran.now.disk.written written.old written.new × StandAtFront ran.now.text.bytes.items text.old text.new
        × StandAtFront ran.now.log.bytes.items log.old log.new }
    ensures short { result ≡ 4 → ran.now.status ≢ 4 → HasNoRoomForPlan
        (record { plan = ran.now.disk; text = ran.now.text.bytes.items; log = ran.now.log.bytes.items })
        steps.old written.old text.old log.old }
    ensures same { result ≡ 4 → ran.now.status ≢ 4 →
        (steps.new ≡ steps.old) × (written.new ≡ written.old) × (text.new ≡ text.old) × (log.new ≡ log.old) }
{
    let planned = ran.disk.steps();
    let bytes = ran.disk.written();
    *sizes = PlanSizes {
        steps: planned.len(),
        written: bytes.len(),
        text: ran.text.bytes.len(),
        log: ran.log.bytes.len(),
    };
    if planned.len() > steps.len() || bytes.len() > written.len() {
        return SHORT;
    }
    if ran.text.bytes.len() > text.len() || ran.log.bytes.len() > log.len() {
        return SHORT;
    }
    put_front(planned, steps);
    put_front(bytes, written);
    put_front(&ran.text.bytes, text);
    put_front(&ran.log.bytes, log);
    ran.status
}

/// Runs `script` on the bytes of an index file, which stay as they are. Hands over what the program's `session` does to the file: its
/// writes and syncs in their order at the front of `steps`, and the bytes of the writes, one after another, at the front of `written`. The
/// replies stand at the front of `text`, and the frames of the queries' logs at the front of `log`. The status is that of `session`: 0
/// done; 6 the bytes are no index of version 2; 7 there are more than 2^26 bytes of script; 9 a damaged page; and 4 a buffer has no room
/// for what `sizes` tells; 8 out of memory. With status 4 and 8 the buffers are left as they are.
/// Arguments: `script` and `show_tags` say what is asked of `file`, and `steps`, `written`, `text`, `log` and `sizes` are the caller's own
/// buffers.
pub fn session_plan(
    alloc: Global,
    file: &[u8],
    show_tags: bool,
    script: &[u8],
    steps: &mut [Step],
    written: &mut [u8],
    text: &mut [u8],
    log: &mut [u8],
    sizes: &mut PlanSizes,
) -> u8
    ensures { HandsPlan (IsSession show_tags script.now file.now) steps.old steps.new written.old written.new text.old text.new
        log.old log.new sizes.new result }
{
    *sizes = NO_PLAN;
    match run(alloc, file, show_tags, script) {
        Some(ran) => hand_plan(&ran, steps, written, text, log, sizes),
        None => MEMORY,
    }
}

/// Hands over what a session would do to a file that is asked `requests`.
/// Arguments: `requests` says what is asked of `file`, and `steps`, `written`, `text`, `log` and `sizes` are the caller's own buffers.
pub fn asked_plan<S: Requests>(
    alloc: Global,
    file: &[u8],
    requests: S,
    steps: &mut [Step],
    written: &mut [u8],
    text: &mut [u8],
    log: &mut [u8],
    sizes: &mut PlanSizes,
) -> u8
    ensures { HandsPlan (IsAsked (S.commands requests) file.now) steps.old steps.new written.old written.new text.old text.new log.old
        log.new sizes.new result }
{
    *sizes = NO_PLAN;
    match run_asked(alloc, file, requests) {
        Some(ran) => hand_plan(&ran, steps, written, text, log, sizes),
        None => MEMORY,
    }
}
