ghost use Rattle.std.specs.Prelude.{◌≡◌, ◌+◌, ◌^◌, ◌<◌, ◌≤◌, ℕ, List, length, set, slice_index, IsTrue, OnOk, IfOk};
ghost use Rattle.outside_io.specs.Causes.{HasCause};
ghost use Rattle.disk_model.specs.Disk.{DiskState, MayLeave, LeavesOnly, Written, Torn, Follows, IsUnchanged, IsOneCall};

use crate::Failed;

/// One file: reads, writes and syncs. A crash may cut short what no sync has made durable.
pub trait Disk {
    /// What a read gives, what a crash at each moment may leave, and how often the disk failed and was read.
    ghost state: { Self → DiskState };

    /// Returns the number of bytes in the file.
    fn size(&mut self) -> Result<u64, Failed>
        ensures size { IfOk result (λ n. IsTrue (state self.old).is_known → n ≡ length (state self.old).bytes) }
        ensures same { IsUnchanged (state self.old) (state self.new) }
        ensures reads { (state self.new).reads ≡ (state self.old).reads }
        ensures cause { HasCause (state self.old).faults (state self.new).faults result };

    /// Fills `buf` with the bytes from place `at` on. A place past the end reads as 0.
    fn read_at(&mut self, at: u64, buf: &mut [u8]) -> Result<(), Failed>
        requires { at + length buf.old ≤ 2 ^ 37 }
        ensures read { OnOk result (IsTrue (state self.old).is_known
            → (i : ℕ) → i < length buf.old → slice_index buf.new i ≡ slice_index (state self.old).bytes (at + i)) }
        ensures same { IsUnchanged (state self.old) (state self.new) }
        ensures reads { (state self.new).reads ≤ (state self.old).reads + 1 }
        ensures cause { HasCause (state self.old).faults (state self.new).faults result };

    /// Writes `bytes` at place `at`, over old bytes and past the end, and fills a gap before the place with 0. Until a sync returns
    /// `Ok` a crash may leave any bytes in the range. After `Failed` a read may give any bytes of the range too.
    fn write_at(&mut self, at: u64, bytes: &[u8]) -> Result<(), Failed>
        requires { at + length bytes.now ≤ 2 ^ 37 }
        ensures written { OnOk result (IsTrue (state self.old).is_known
            → Written at bytes.now (state self.old).bytes (state self.new).bytes) }
        ensures others { IsTrue (state self.old).is_known
            → Torn at (length bytes.now) (state self.old).bytes (state self.new).bytes }
        ensures is_known { (state self.new).is_known ≡ (state self.old).is_known }
        ensures torn { Follows (Torn at (length bytes.now)) (state self.old) (state self.new) }
        ensures time { IsOneCall (state self.old) (state self.new) }
        ensures reads { (state self.new).reads ≡ (state self.old).reads }
        ensures cause { HasCause (state self.old).faults (state self.new).faults result };

    /// Makes all writes durable. After `Ok` a crash leaves what a read gives. After `Failed` nothing is durable that was not before.
    fn sync(&mut self) -> Result<(), Failed>
        ensures durable { OnOk result (LeavesOnly (state self.new) (state self.old).bytes) }
        ensures bytes { (state self.new).bytes ≡ (state self.old).bytes }
        ensures is_known { (state self.new).is_known ≡ (state self.old).is_known }
        ensures fewer { (image : List ℕ) → MayLeave (state self.new) image → MayLeave (state self.old) image }
        ensures time { IsOneCall (state self.old) (state self.new) }
        ensures reads { (state self.new).reads ≡ (state self.old).reads }
        ensures cause { HasCause (state self.old).faults (state self.new).faults result };

    /// The file that a read gives is one that a crash may leave.
    ghost read_is_image: { (disk : Self) → IsTrue (state disk).is_known → MayLeave (state disk) (state disk).bytes };

    /// Images may be mixed place by place: a crash may leave the byte of one image in another.
    ghost places_mix: { (disk : Self) (one other : List ℕ) (i : ℕ) → MayLeave (state disk) one → MayLeave (state disk) other
        → i < length one → i < length other → MayLeave (state disk) (set one i (slice_index other i)) };
}
