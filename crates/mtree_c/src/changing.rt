// Makes indexes, and runs scripts that change them.
ghost use Rattle.std.specs.Prelude.{take};
ghost use Rattle.mtree_c.specs.Handed.{HandsPlan, HandsSession};
ghost use Rattle.mtree_c.specs.Making.{HandsIndex};
ghost use Rattle.mtree_c.specs.Sessions.{IsSession};

use crate::making::{Shape, create_in};
use crate::plans::{PlanSizes, session_plan};
use crate::sessions::{SessionSizes, session_in};
use plan_disk::Step;
use std::alloc::Global;

/// Makes an empty index of `shape` at the front of `room`, of `size` bytes. Status 0: done; 2: no index has this shape; 4: `room` has no
/// room for `size` bytes; 8: out of memory. With status 2, 4 and 8 the buffer is left as it is.
#[unsafe(no_mangle)]
pub extern "C" fn mtree_create_in(
    alloc: Global,
    room: &mut [u8],
    shape: &Shape,
    size: &mut usize,
) -> u8
    ensures { HandsIndex shape.now room.old room.new size.new result }
{
    create_in(alloc, room, shape, size)
}

/// Runs a script on the index file at the front of `room`, of `size` bytes, all of it or nothing. The file after it stands at the front of
/// `room`, the replies at the front of `text`, and the frames of the queries' logs at the front of `log`. They are those of the program's
/// `session`, and so is the status: 0 done; 6 the bytes are no index of version 2; 7 there are more than 2^26 bytes of script; 9 a damaged
/// page; and 2 `size` is more than `room` has; 4 a buffer has no room for what `sizes` tells; 8 out of memory. With status 2, 4 and 8 the
/// buffers are left as they are.
/// Arguments: `room` and `size` are the file, `script` and `show_tags` say what is asked, and `text`, `log` and `sizes` are the caller's
/// own buffers.
#[unsafe(no_mangle)]
pub extern "C" fn mtree_session_in(
    alloc: Global,
    room: &mut [u8],
    size: usize,
    show_tags: bool,
    script: &[u8],
    text: &mut [u8],
    log: &mut [u8],
    sizes: &mut SessionSizes,
) -> u8
    ensures { HandsSession (IsSession show_tags script.now (take size room.old)) size
        room.old room.new text.old text.new log.old log.new sizes.new result }
{
    session_in(alloc, room, size, show_tags, script, text, log, sizes)
}

/// Runs a script on the bytes of an index file, which stay as they are. The writes and syncs that the program's `session` does to the file
/// stand at the front of `steps`, in their order, and the bytes of the writes at the front of `written`, one write's after another's. The
/// replies stand at the front of `text`, and the frames of the queries' logs at the front of `log`. The status is that of `session`: 0
/// done; 6 the bytes are no index of version 2; 7 there are more than 2^26 bytes of script; 9 a damaged page; and 4 a buffer has no room
/// for what `sizes` tells; 8 out of memory. With status 4 and 8 the buffers are left as they are.
/// Arguments: `script` and `show_tags` say what is asked of `file`, and `steps`, `written`, `text`, `log` and `sizes` are the caller's own
/// buffers.
#[unsafe(no_mangle)]
pub extern "C" fn mtree_session_plan(
    alloc: Global,
    file: &[u8],
    show_tags: bool,
    script: &[u8],
    steps: &mut [Step],
    written: &mut [u8],
    text: &mut [u8],
    log: &mut [u8],
    sizes: &mut PlanSizes,
) -> u8
    ensures { HandsPlan (IsSession show_tags script.now file.now) steps.old steps.new written.old written.new text.old text.new
        log.old log.new sizes.new result }
{
    session_plan(
        alloc, file, show_tags, script, steps, written, text, log, sizes,
    )
}
