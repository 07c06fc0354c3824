// What is put into the caller's buffers.
ghost use Rattle.std.specs.Prelude.{◌≡◌, ◌≢◌, ◌≤◌, ◌<◌, length};
ghost use Rattle.scan_model.specs.declared.hit.Hit.{Hit};
ghost use Rattle.caller_ends.specs.Rooms.{StandAtFront};
ghost use Rattle.mtree_c.specs.Answers.{tagged};

use crate::answering::TaggedHit;
use crate::{MEMORY, SHORT};
use caller_ends::{Gathered, put_front};
use outside_io::Status;
use scan_model::Hit;

/// Puts `hits` and their `tags` at the front of `room`, which has room for them.
pub fn put_hits(hits: &[Hit], tags: &[u64], room: &mut [TaggedHit])
    requires each { length tags.now ≡ length hits.now }
    requires room { length hits.now ≤ length room.old }
    ensures { StandAtFront (tagged hits.now tags.now) room.old room.new }
{
    for i in 0..hits.len() {
        room[i] = TaggedHit {
            id: hits[i].id,
            distance: hits[i].dist,
            tag: tags[i],
        };
    }
}

/// Hands over the text of a job that ended with `status`. Returns 4 where the text has no room, and 8 when memory ran out.
pub fn hand_text(status: Status, written: &Gathered, text: &mut [u8], size: &mut usize) -> u8
    ensures done { result ≢ 4 → result ≢ 8 → (result ≡ status.0) × (written.now.faults ≡ 0)
        × StandAtFront written.now.bytes.items text.old text.new × (size.new ≡ length written.now.bytes.items) }
    ensures short { result ≡ 4 → (status.0 ≢ 4) × (status.0 ≢ 8) × (written.now.faults ≡ 0) × (text.new ≡ text.old)
        × (size.new ≡ length written.now.bytes.items) × (length text.old < size.new) }
    ensures memory { result ≡ 8 → (text.new ≡ text.old) × (size.new ≡ 0) }
{
    *size = 0;
    let Some(bytes) = written.whole() else {
        return MEMORY;
    };
    if status.0 == 4 || status.0 == 8 {
        return MEMORY;
    }
    *size = bytes.len();
    if bytes.len() > text.len() {
        return SHORT;
    }
    put_front(bytes, text);
    status.0
}
