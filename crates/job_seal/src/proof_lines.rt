// The texts about carried logs.
ghost use Rattle.std.specs.Prelude.{◌≡◌, ◌++◌, OnOk, IfOk};
ghost use Rattle.job_files.specs.Logs.Lines.{rejected_line};
ghost use Rattle.job_seal.specs.Proofs.{end_text, proof_fault_text, proved_frame};

use fault_lines::{head_fault_name, push_numbered};
use job_files::logs::{log_fault_name, push_answers, push_frame, push_verdict};
use seal_log::{ProofFault, Proved};
use std::alloc::{AllocError, Global};

// Appends why a carried log is rejected.
fn push_proof_fault(why: ProofFault, out: &mut Vec<u8>) -> Result<(), AllocError>
    ensures { OnOk result (out.new.items ≡ out.old.items ++ proof_fault_text why) }
{
    match why {
        ProofFault::Magic => out.extend_from_slice(b"magic"),
        ProofFault::Version => out.extend_from_slice(b"version"),
        ProofFault::Cut => out.extend_from_slice(b"cut"),
        ProofFault::Order => out.extend_from_slice(b"order"),
        ProofFault::Tail => out.extend_from_slice(b"tail"),
        ProofFault::Path(page) => push_numbered(b"path ", u64::from(page), out),
        ProofFault::Head(fault) => {
            out.extend_from_slice(b"head ")?;
            out.extend_from_slice(head_fault_name(fault))
        }
        ProofFault::Slot => out.extend_from_slice(b"slot"),
        ProofFault::Log(fault) => {
            out.extend_from_slice(b"log ")?;
            out.extend_from_slice(log_fault_name(fault))
        }
        ProofFault::Missing(record) => push_numbered(b"missing ", record, out),
        ProofFault::Verdict(verdict) => push_verdict(verdict, out),
        ProofFault::Memory => out.extend_from_slice(b"memory"),
    }
}

/// Returns the line of a frame that is rejected for the reason `why`.
pub fn rejected_text(alloc: Global, frame: u64, why: ProofFault) -> Result<Vec<u8>, AllocError>
    ensures { IfOk result (λ text. text.items ≡ rejected_line frame (proof_fault_text why)) }
{
    let mut text = Vec::new(alloc);
    push_frame(frame, &mut text)?;
    text.extend_from_slice(b" rejected ")?;
    push_proof_fault(why, &mut text)?;
    text.push(b'\n')?;
    Ok(text)
}

/// Returns the lines of a frame whose carried log is accepted and shows `proved`.
pub fn proved_text(alloc: Global, frame: u64, proved: Proved) -> Result<Vec<u8>, AllocError>
    ensures { IfOk result (λ text. text.items ≡ proved_frame frame proved.query proved.answers) }
{
    let mut text = Vec::new(alloc);
    push_frame(frame, &mut text)?;
    text.extend_from_slice(b" proved\n")?;
    let Proved { query, answers } = proved;
    push_answers(alloc, &query, answers, &mut text)?;
    Ok(text)
}

/// Returns the last line for input whose frames are all whole.
pub fn end_text(accepted: bool) -> &'static [u8]
    ensures { result.now ≡ end_text accepted }
{
    if accepted {
        b"log proved\n"
    } else {
        b"log rejected\n"
    }
}
