//! Laws of disks for several calls in a row. Each law is a function that does nothing: its contract is the law. The proofs stand
//! beside the definitions, as lemmas over the states of any disk.
ghost use Rattle.std.specs.Prelude.{◌<◌, ℕ, List, length, set, slice_index, IsTrue};
ghost use Rattle.disk_model.specs.Disk.{MayLeave, EachImage, EachImageOnce, IsOneCall, IsUnchanged, Written, Torn};

use crate::Disk;

/// A property of files. The code makes no value of it.
pub trait FileProperty {
    /// Whether a file has the property.
    ghost holds: { List ℕ → Type 0 };
}

/// What holds for every image in each of two consecutive stretches of moments holds for every image in both together.
pub fn stretches_join<D: Disk, P: FileProperty>(old: &D, mid: &D, new: &D)
    requires first { EachImage (D.state old.now) (D.state mid.now) P.holds }
    requires second { EachImage (D.state mid.now) (D.state new.now) P.holds }
    ensures { EachImage (D.state old.now) (D.state new.now) P.holds }
{}

/// A stretch is extended by one call, where every image before and after the call has the property.
pub fn stretch_goes_on<D: Disk, P: FileProperty>(old: &D, mid: &D, new: &D)
    requires first { EachImage (D.state old.now) (D.state mid.now) P.holds }
    requires call { IsOneCall (D.state mid.now) (D.state new.now) }
    requires before { (image : List ℕ) → MayLeave (D.state mid.now) image → P.holds image }
    requires after { (image : List ℕ) → MayLeave (D.state new.now) image → P.holds image }
    ensures { EachImage (D.state old.now) (D.state new.now) P.holds }
{}

/// A stretch that only takes images away, as an opening sync does, and then a stretch in which every image has the property: from
/// some moment on every image has it.
pub fn opening_then_stretch<D: Disk, P: FileProperty>(old: &D, mid: &D, new: &D)
    requires opening { EachImage (D.state old.now) (D.state mid.now) (MayLeave (D.state old.now)) }
    requires second { EachImage (D.state mid.now) (D.state new.now) P.holds }
    ensures { EachImageOnce (D.state old.now) (D.state new.now) P.holds }
{}

/// Calls that change nothing, one after another, change nothing.
pub fn looks_join<D: Disk>(old: &D, mid: &D, new: &D)
    requires first { IsUnchanged (D.state old.now) (D.state mid.now) }
    requires second { IsUnchanged (D.state mid.now) (D.state new.now) }
    ensures { IsUnchanged (D.state old.now) (D.state new.now) }
{}

/// Images may be mixed place by place: a crash may leave the byte of one image in another.
pub fn images_mix<D: Disk>(disk: &D)
    ensures { (one other : List ℕ) (i : ℕ) → MayLeave (D.state disk.now) one → MayLeave (D.state disk.now) other
        → i < length one → i < length other → MayLeave (D.state disk.now) (set one i (slice_index other i)) }
{}

/// The file that a read gives is one that a crash may leave.
pub fn read_may_be_left<D: Disk>(disk: &D)
    ensures { IsTrue (D.state disk.now).is_known → MayLeave (D.state disk.now) (D.state disk.now).bytes }
{}

/// A write that was done is a write that a crash might have cut short.
pub fn written_is_torn()
    ensures { (at : ℕ) (bytes old new : List ℕ) → Written at bytes old new → Torn at (length bytes) old new }
{}
