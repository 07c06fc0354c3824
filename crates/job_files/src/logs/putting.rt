// What a job puts.
ghost use Rattle.std.specs.Prelude.{◌≡◌, ◌≤◌, ◌∷◌, [], IfOk, IfErr, OnOk, IsErrOf};
ghost use Rattle.std.specs.Io.KnownBytes.{Appends};
ghost use Rattle.outside_io.specs.Bytes.{AppendsPrefix};
ghost use Rattle.outside_io.specs.Causes.{Rose};
ghost use Rattle.job_files.specs.Logs.Jobs.{Puts, stop_of};
ghost use Rattle.job_files.specs.Logs.JobReports.{end_text, file_text};

use crate::logs::Report;
use crate::logs::stop::LogStop;
use crate::rejected_text;
use outside_io::Sink;
use std::alloc::{AllocError, Global};
use tree_audit::AuditFault;

/// Puts a text.
pub fn put<K: Sink>(out: &mut K, text: &[u8]) -> Result<(), LogStop>
    ensures whole { OnOk result (Appends (K.state out.old).written (K.state out.new).written text.now) }
    ensures cut { IfErr result (λ why. (why ≡ LogStop.Sink) × AppendsPrefix (K.state out.old).written (K.state out.new).written text.now) }
    ensures puts { Puts (text.now ∷ []) (K.state out.old).written (K.state out.new).written (stop_of result) }
    ensures later { (K.state out.old).faults ≤ (K.state out.new).faults }
    ensures output { IsErrOf result LogStop.Sink → Rose (K.state out.old).faults (K.state out.new).faults }
    ensures not_disk { IsErrOf result LogStop.Disk → ⊥ }
{
    Ok(out.put(text)?)
}

/// Returns the line after all frames.
pub fn end_text(report: Report, sound: bool) -> &'static [u8]
    ensures { result.now ≡ end_text report sound }
{
    match (sound, report) {
        (false, _) => b"log rejected\n",
        (true, Report::Verdicts) => b"log accepted, file not audited\n",
        (true, Report::Answers) => b"log complete\n",
    }
}

/// Returns the line on the file `name` with its first fault, or with none.
pub fn file_text(
    alloc: Global,
    name: &[u8],
    fault: Option<AuditFault>,
) -> Result<Vec<u8>, AllocError>
    ensures { IfOk result (λ text. text.items ≡ file_text name.now fault) }
{
    let mut text = Vec::new(alloc);
    text.extend_from_slice(name)?;
    match fault {
        None => text.extend_from_slice(b" sound\n")?,
        Some(why) => {
            text.extend_from_slice(b" ")?;
            text.extend_from_slice(&rejected_text(alloc, why)?)?;
        }
    }
    Ok(text)
}
