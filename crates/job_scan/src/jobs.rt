ghost use Rattle.std.specs.Prelude.{◌≡◌, ◌⊎◌, ◌≤◌, ◌^◌, length, IfSome};
ghost use Rattle.std.specs.Io.KnownBytes.{IsAtEnd};
ghost use Rattle.outside_io.specs.Bytes.{TakesUpTo};
ghost use Rattle.outside_io.specs.Causes.{Rose};
ghost use Rattle.metric_mix.specs.MixKinds.{mix_kind, mix_dim};
ghost use Rattle.job_words.specs.Valid.{IsValidSpace, IsLimit};
ghost use Rattle.job_words.specs.Names.{kind_of};
ghost use Rattle.metric_mix.specs.MixSpaces.{mix_space};
ghost use Rattle.plain_scan.specs.Written.{reply_texts};
ghost use Rattle.rows_text.specs.Script.{script};
ghost use Rattle.job_scan.specs.Jobs.{IsScanStatus, WritesScan, scan_texts};

use job_files::{FAULT_MEMORY, MOST_INPUT, end_unread, end_with};
use job_words::SpaceName;
use metric_mix::MixSpace;
use outside_io::{Sink, Source, Status, read_all};
use plain_scan::{Scan, ScanStop, run_script};
use rows_text::read_script;
use std::alloc::Global;

// Returns the space with the name `name`.
fn space_of(name: SpaceName) -> MixSpace
    requires { IsValidSpace name }
    ensures kind { mix_kind result ≡ kind_of name.metric }
    ensures dim { mix_dim result ≡ name.dim }
{
    match MixSpace::new(name.metric.kind(), name.dim) {
        Ok(space) => space,
        Err(_) => unreachable!(),
    }
}

// Runs a script that is already read.
// Clauses: what is asked of the caller (`few`, `dim`, `some`, `narrow`, `limit`); what is written (`wrote`); which statuses come
// (`statuses`); the cause of an error (`rose`); faults of the devices (`later`).
fn run_bytes<K: Sink>(
    alloc: Global,
    scan: &Scan<MixSpace>,
    dim: u8,
    bytes: &[u8],
    out: &mut K,
) -> Status
    requires few { length bytes.now ≤ 2 ^ 26 }
    requires dim { mix_dim scan.now.metric ≡ dim }
    requires some { 1 ≤ dim }
    requires narrow { dim ≤ 64 }
    requires limit { IsLimit scan.now.limit }
    ensures wrote { WritesScan (K.state out.old) (K.state out.new)
        (reply_texts (record { space = mix_space (mix_kind scan.now.metric) (mix_dim scan.now.metric); limit = scan.now.limit })
        scan.now.show_tags (script dim bytes.now)) result.0 }
    ensures statuses { (result.0 ≡ 0) ⊎ ((result.0 ≡ 4) ⊎ (result.0 ≡ 8)) }
    ensures later { (K.state out.old).faults ≤ (K.state out.new).faults }
    ensures rose { result.0 ≡ 4 → Rose (K.state out.old).faults (K.state out.new).faults }
{
    let Ok(commands) = read_script(alloc, bytes, usize::from(dim)) else {
        return end_with(out, FAULT_MEMORY, 8);
    };
    match run_script(alloc, scan, commands, out) {
        Ok(()) => Status(0),
        Err(ScanStop::Sink) => Status(4),
        Err(ScanStop::Memory) => end_with(out, FAULT_MEMORY, 8),
    }
}

/// Runs the script of `input` on a plain list of at most `limit` objects, and writes each reply to `out`. Status 3: the input could
/// not be read; 4: the replies could not be written; 7: the input is longer than 2 ^ 26 bytes; 8: memory ran out.
/// Clauses: what is asked of the caller (`space`, `limit`); what is written (`wrote`); what is taken of the input (`long`, `end`); which
/// statuses come (`statuses`); when it succeeds (`complete`); the cause of an error (`input`, `output`); faults of the devices (`counts`).
pub fn run_scan<S: Source, K: Sink>(
    alloc: Global,
    space: SpaceName,
    limit: u32,
    show_tags: bool,
    input: &mut S,
    out: &mut K,
) -> Status
    requires space { IsValidSpace space }
    requires limit { IsLimit limit }
    // The replies are those of the plain list. What follows them is what the status says.
    ensures wrote { IfSome (S.left input.old) (λ bytes. WritesScan (K.state out.old) (K.state out.new)
        (scan_texts (record { space = space; limit = limit; show = show_tags }) bytes) result.0) }
    ensures statuses { IsScanStatus result.0 }
    // A failed read or write is reported only where the device's count of faults rose.
    ensures input { result.0 ≡ 3 → Rose (S.faults input.old) (S.faults input.new) }
    ensures output { result.0 ≡ 4 → Rose (K.state out.old).faults (K.state out.new).faults }
    // Status 7 comes exactly where more than 2 ^ 26 bytes were taken.
    ensures long { TakesUpTo (2 ^ 26) (S.left input.old) (S.left input.new) (result.0 ≡ 7) }
    // A scan that is done has taken all input.
    ensures end { result.0 ≡ 0 → IsAtEnd (S.left input.new) }
    // With no fault and an input within its limit a scan is done, unless memory runs out.
    ensures complete { IfSome (S.left input.old) (λ bytes. length bytes ≤ 2 ^ 26 →
        ¬ Rose (S.faults input.old) (S.faults input.new) → ¬ Rose (K.state out.old).faults (K.state out.new).faults →
        (result.0 ≡ 0) ⊎ (result.0 ≡ 8)) }
    ensures counts { (S.faults input.old ≤ S.faults input.new) × ((K.state out.old).faults ≤ (K.state out.new).faults) }
{
    let scan = Scan {
        metric: space_of(space),
        limit,
        show_tags,
    };
    match read_all(alloc, input, MOST_INPUT) {
        Ok(bytes) => run_bytes(alloc, &scan, space.dim, &bytes, out),
        Err(why) => end_unread(why, out),
    }
}
