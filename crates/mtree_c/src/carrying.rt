// Turns logs into carried logs.
ghost use Rattle.std.specs.Prelude.{◌≡◌, ◌≢◌, ◌⊎◌, ◌<◌, length};
ghost use Rattle.seal_log.specs.Laws.{CarriedLogsAreAccepted};
ghost use Rattle.caller_ends.specs.Rooms.{StandAtFront};
ghost use Rattle.mtree_c.specs.Carrying.{HandsCarried, IsCarriedText, carried_sizes};

use crate::{MEMORY, SHORT};
use caller_ends::{Gathered, SliceSource, put_front};
use job_seal::carry_logs;
use outside_io::Status;
use slice_disk::SliceDisk;
use std::alloc::Global;

/// The sizes of carried logs and of the lines on them.
#[repr(C)]
#[derive(Clone, Copy, PartialEq, Eq)]
pub struct CarriedSizes {
    /// The bytes of the frames.
    pub carried: usize,
    /// The bytes of the lines.
    pub text: usize,
}

/// The sizes where nothing is handed over.
const NONE_CARRIED: CarriedSizes = CarriedSizes {
    carried: 0,
    text: 0,
};

// Hands over the frames and the lines of a job that ended with `status`. Returns 4 where one of them has no room, and 8 when memory ran
// out.
fn hand_carried(
    status: Status,
    frames: &Gathered,
    lines: &Gathered,
    carried: &mut [u8],
    text: &mut [u8],
    sizes: &mut CarriedSizes,
) -> u8
    ensures done { result ≢ 4 → result ≢ 8 → (result ≡ status.0) × (frames.now.faults ≡ 0) × (lines.now.faults ≡ 0)
        × StandAtFront frames.now.bytes.items carried.old carried.new × StandAtFront lines.now.bytes.items text.old text.new
        × (sizes.new ≡ carried_sizes frames.now.bytes.items lines.now.bytes.items) }
    ensures short { result ≡ 4 → (status.0 ≢ 4) × (status.0 ≢ 8) × (frames.now.faults ≡ 0) × (lines.now.faults ≡ 0)
        × (sizes.new ≡ carried_sizes frames.now.bytes.items lines.now.bytes.items)
        × ((length carried.old < length frames.now.bytes.items) ⊎ (length text.old < length lines.now.bytes.items)) }
    ensures memory { result ≡ 8 → (sizes.new.carried ≡ 0) × (sizes.new.text ≡ 0) }
    ensures same { (result ≡ 4) ⊎ (result ≡ 8) → (carried.new ≡ carried.old) × (text.new ≡ text.old) }
{
    *sizes = NONE_CARRIED;
    let Some(frames) = frames.whole() else {
        return MEMORY;
    };
    let Some(lines) = lines.whole() else {
        return MEMORY;
    };
    if status.0 == 4 || status.0 == 8 {
        return MEMORY;
    }
    *sizes = CarriedSizes {
        carried: frames.len(),
        text: lines.len(),
    };
    if frames.len() > carried.len() || lines.len() > text.len() {
        return SHORT;
    }
    put_front(frames, carried);
    put_front(lines, text);
    status.0
}

/// Judges the logs of `logs`, which stand in frames, by the bytes of an index file, and carries each one that is accepted. The frames of
/// the carried logs, of `sizes.carried` bytes, stand at the front of `carried`. The lines at the front of `text`, of `sizes.text` bytes,
/// are those of the program's `proof` on an index, and so is the status: 0 all logs are carried; 1 one is rejected, or the bytes are no
/// logs; 4 a buffer has no room for what `sizes` tells; 6 the bytes are no index of version 2; 7 there are more than 2^30 bytes of
/// logs, or the index has more than 262144 pages; 8 out of memory. With status 4 and 8 both buffers are left as they are.
#[unsafe(no_mangle)]
pub extern "C" fn mtree_carry(
    alloc: Global,
    file: &[u8],
    logs: &[u8],
    carried: &mut [u8],
    text: &mut [u8],
    sizes: &mut CarriedSizes,
) -> u8
    ensures text { HandsCarried (IsCarriedText file.now logs.now) carried.old carried.new text.old text.new sizes.new result }
    // The carried log of a sound log of a sound file is accepted under the file's root digest.
    ensures accepted { CarriedLogsAreAccepted }
{
    let mut lines = Gathered::new(alloc);
    let mut frames = Gathered::new(alloc);
    let mut disk = SliceDisk::new(file);
    let mut source = SliceSource::new(logs);
    let status = carry_logs(alloc, &mut disk, &mut source, &mut lines, &mut frames);
    hand_carried(status, &frames, &lines, carried, text, sizes)
}
