// Does a script to a file in the caller's buffer.
ghost use Rattle.std.specs.Prelude.{◌≡◌, ◌≢◌, ◌⊎◌, ◌<◌, IfSome, length, take};
ghost use Rattle.caller_ends.specs.Rooms.{StandAtFront};
ghost use Rattle.plan_disk.specs.Plan.{Plan, file_of};
ghost use Rattle.mtree_c.specs.Handed.{HandsSession};
ghost use Rattle.mtree_c.specs.Sessions.{IsSession};

use crate::running::{file_after, run};
use crate::{MEMORY, NO_FILE, SHORT};
use caller_ends::{Gathered, put_front};
use std::alloc::Global;

/// The sizes of what a session leaves.
#[repr(C)]
#[derive(Clone, Copy, PartialEq, Eq)]
pub struct SessionSizes {
    /// The bytes of the file.
    pub file: usize,
    /// The bytes of the replies.
    pub text: usize,
    /// The bytes of the frames of the logs.
    pub log: usize,
}

/// The sizes where nothing is handed over.
const NO_SESSION: SessionSizes = SessionSizes {
    file: 0,
    text: 0,
    log: 0,
};

// What a session came to, apart from the buffer of the file before it.
#[derive(Drop)]
struct Left {
    status: u8,
    file: Vec<u8>,
    text: Gathered,
    log: Gathered,
}

// Runs a script on a file, and makes the file after it. Returns none where memory ran out.
fn left_of(alloc: Global, file: &[u8], show_tags: bool, script: &[u8]) -> Option<Left>
    ensures { IfSome result (λ left. (plan : Plan) × (left.file.items ≡ file_of plan) × IsSession show_tags script.now file.now
        (record { plan = plan; text = left.text.bytes.items; log = left.log.bytes.items }) left.status) }
{
    let Some(ran) = run(alloc, file, show_tags, script) else {
        return None;
    };
    let file = file_after(alloc, &ran.disk)?;
    Some(Left {
        status: ran.status,
        file,
        text: ran.text,
        log: ran.log,
    })
}

// Hands over what a session left. Returns 4 where a buffer has no room for its part.
fn hand_left(
    left: &Left,
    room: &mut [u8],
    text: &mut [u8],
    log: &mut [u8],
    sizes: &mut SessionSizes,
) -> u8
    ensures sizes { sizes.new ≡
        record { file = length left.now.file.items; text = length left.now.text.bytes.items; log = length left.now.log.bytes.items } }
    ensures done { result ≢ 4 → (result ≡ left.now.status) × StandAtFront left.now.file.items room.old room.new
        × StandAtFront left.now.text.bytes.items text.old text.new × StandAtFront left.now.log.bytes.items log.old log.new }
    ensures short { result ≡ 4 → left.now.status ≢ 4 → (length room.old < length left.now.file.items)
        ⊎ ((length text.old < length left.now.text.bytes.items) ⊎ (length log.old < length left.now.log.bytes.items)) }
    ensures same { result ≡ 4 → left.now.status ≢ 4 → (room.new ≡ room.old) × (text.new ≡ text.old) × (log.new ≡ log.old) }
{
    let (said, logged) = (&left.text.bytes, &left.log.bytes);
    *sizes = SessionSizes {
        file: left.file.len(),
        text: said.len(),
        log: logged.len(),
    };
    if left.file.len() > room.len() || said.len() > text.len() || logged.len() > log.len() {
        return SHORT;
    }
    put_front(&left.file, room);
    put_front(said, text);
    put_front(logged, log);
    left.status
}

/// Runs `script` on the index file at the front of `room`, of `size` bytes, as the program's `session` does: all of it, or nothing. The
/// file after it stands at the front of `room`, the replies at the front of `text`, and the frames of the queries' logs at the front of
/// `log`. The status is that of `session`: 0 done; 6 the bytes are no index of version 2; 7 there are more than 2^26 bytes of script; 9 a
/// damaged page; and 2 `size` is more than `room` has; 4 a buffer has no room for what `sizes` tells; 8 out of memory. With status 2, 4 and
/// 8 the buffers are left as they are.
/// Arguments: `room` and `size` are the file, `script` and `show_tags` say what is asked, and `text`, `log` and `sizes` are the caller's
/// own buffers.
pub fn session_in(
    alloc: Global,
    room: &mut [u8],
    size: usize,
    show_tags: bool,
    script: &[u8],
    text: &mut [u8],
    log: &mut [u8],
    sizes: &mut SessionSizes,
) -> u8
    ensures { HandsSession (IsSession show_tags script.now (take size room.old)) size
        room.old room.new text.old text.new log.old log.new sizes.new result }
{
    *sizes = NO_SESSION;
    if size > room.len() {
        return NO_FILE;
    }
    match left_of(alloc, &room[..size], show_tags, script) {
        Some(left) => hand_left(&left, room, text, log, sizes),
        None => MEMORY,
    }
}
