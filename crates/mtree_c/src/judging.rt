// Audits a file and judges logs, and writes the lines of the program on them.
ghost use Rattle.std.specs.Prelude.{◌≡◌};
ghost use Rattle.job_logs.specs.Laws.{FaultlessIsComplete};
ghost use Rattle.job_files.specs.declared.logs.report.Report.TheVariants.{Answers, Verdicts};
ghost use Rattle.mtree_c.specs.Rooms.{HandsText};
ghost use Rattle.job_seal.specs.Laws.{AcceptedShow};
ghost use Rattle.mtree_c.specs.Texts.{IsAuditText, IsLogText, IsProofText, IsShownText};

use crate::rooms::hand_text;
use caller_ends::{Gathered, SliceSource};
use job_files::audit_index;
use job_logs::laws::faultless_is_complete;
use job_logs::{check_logs, verify_logs};
use job_seal::laws::accepted_show;
use job_seal::prove_logs;
use job_show::{Marks, show_logs};
use slice_disk::SliceDisk;
use std::alloc::Global;

/// The root digest of an index file.
#[repr(C)]
#[derive(Clone, Copy, PartialEq, Eq)]
pub struct RootDigest {
    /// The bytes of the digest.
    pub bytes: [u8; 32],
}

/// Audits the bytes of an index file. The lines at the front of `text`, of `size` bytes, are those of the program's `audit`,
/// and so is the status: 0 the file is sound; 1 it has a fault; 4 `text` has no room for `size` bytes, and is left as it is;
/// 6 it is no index of version 2; 8 out of memory, with nothing said.
#[unsafe(no_mangle)]
pub extern "C" fn mtree_audit(alloc: Global, file: &[u8], text: &mut [u8], size: &mut usize) -> u8
    ensures { HandsText (IsAuditText file.now) text.old text.new size.new result }
{
    let mut out = Gathered::new(alloc);
    let mut disk = SliceDisk::new(file);
    let status = audit_index(alloc, &mut disk, &mut out);
    hand_text(status, &out, text, size)
}

/// Judges the logs of `logs`, which stand in frames, by the bytes of an index file, which is not audited. The lines and the
/// statuses are those of the program's `verify`: 0 all are accepted; 1 one is rejected, or the bytes are no logs; 4, 6 and 8
/// as in [`mtree_audit`]; 7 there are more than 2^30 bytes of logs.
#[unsafe(no_mangle)]
pub extern "C" fn mtree_verify(
    alloc: Global,
    file: &[u8],
    logs: &[u8],
    text: &mut [u8],
    size: &mut usize,
) -> u8
    ensures { HandsText (IsLogText Verdicts file.now logs.now) text.old text.new size.new result }
{
    let mut out = Gathered::new(alloc);
    let mut disk = SliceDisk::new(file);
    let mut source = SliceSource::new(logs);
    let status = verify_logs(alloc, &mut disk, &mut source, &mut out);
    hand_text(status, &out, text, size)
}

/// Audits the bytes of an index file, and where it is sound judges the logs of `logs` by it and gives their answers. The lines
/// are those of the program's `check`; the statuses are those of [`mtree_verify`], with 1 also where the file is not sound.
#[unsafe(no_mangle)]
pub extern "C" fn mtree_check(
    alloc: Global,
    file: &[u8],
    logs: &[u8],
    text: &mut [u8],
    size: &mut usize,
) -> u8
    ensures text { HandsText (IsLogText Answers file.now logs.now) text.old text.new size.new result }
    // A log that is said to be complete is sound on a sound file, and its answers are those of the plain scan.
    ensures complete { FaultlessIsComplete file.now }
{
    faultless_is_complete();
    let mut out = Gathered::new(alloc);
    let mut disk = SliceDisk::new(file);
    let mut source = SliceSource::new(logs);
    let status = check_logs(alloc, &mut disk, &mut source, &mut out);
    hand_text(status, &out, text, size)
}

/// Shows the walk that each log of `logs` tells of, by the bytes of an index file, which is not audited. The lines are those of the
/// program's `show`, and the statuses are those of [`mtree_verify`].
#[unsafe(no_mangle)]
pub extern "C" fn mtree_show(
    alloc: Global,
    file: &[u8],
    logs: &[u8],
    text: &mut [u8],
    size: &mut usize,
) -> u8
    ensures { HandsText (IsShownText file.now logs.now) text.old text.new size.new result }
{
    let mut out = Gathered::new(alloc);
    let mut disk = SliceDisk::new(file);
    let mut source = SliceSource::new(logs);
    let status = show_logs(alloc, Marks::Each, &mut disk, &mut source, &mut out);
    hand_text(status, &out, text, size)
}

/// Judges the carried logs of `logs`, which stand in frames, by the root digest of an index file, without the file. The lines
/// and the statuses are those of the program's `proof`: 0 all are proved; 1 one is rejected, or the last frame is not whole; 4, 7
/// and 8 as in [`mtree_verify`].
#[unsafe(no_mangle)]
pub extern "C" fn mtree_proof(
    alloc: Global,
    logs: &[u8],
    root: &RootDigest,
    text: &mut [u8],
    size: &mut usize,
) -> u8
    ensures text { HandsText (IsProofText root.now.bytes logs.now) text.old text.new size.new result }
    // A frame that is said to be proved holds an accepted carried log, and this is what it shows.
    ensures shows { AcceptedShow }
{
    accepted_show();
    let mut out = Gathered::new(alloc);
    let mut source = SliceSource::new(logs);
    let status = prove_logs(alloc, &mut source, &root.bytes, &mut out);
    hand_text(status, &out, text, size)
}
