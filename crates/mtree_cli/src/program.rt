ghost use Rattle.std.specs.Prelude.{◌≡◌, ◌≢◌, ◌⊎◌, ◌≤◌, ◌^◌, List, ℕ, length, IfSome, false};
ghost use Rattle.std.specs.Io.KnownBytes.{IsAtEnd};
ghost use Rattle.outside_io.specs.Causes.{Rose};
ghost use Rattle.disk_model.specs.Disk.{IsUnchanged};
ghost use Rattle.job_words.specs.Jobs.{job_of};
ghost use Rattle.job_words.specs.Valid.{IsValidSpace, IsLimit};
ghost use Rattle.node_page.specs.Heads.{IsValidHead};
ghost use Rattle.job_logs.specs.Laws.{FaultlessIsComplete};
ghost use Rattle.job_join.specs.Trees.{Tree, IsOpened};
ghost use Rattle.job_join.specs.Laws.{FaultlessIsComplete as JoinFaultlessIsComplete};
ghost use Rattle.log_model.specs.Laws.{LeastLogsAreSound};
ghost use Rattle.session_run.specs.Laws.{TurnsAreTheirMeaning};
ghost use Rattle.job_seal.specs.Laws.{AcceptedShow};
ghost use Rattle.seal_log.specs.Laws.{CarriedLogsAreAccepted};
ghost use Rattle.session_run.specs.Job.{IsComplete};
ghost use Rattle.job_scan.specs.Jobs.{Asked};
ghost use Rattle.mtree_cli.specs.Run.{Does, HasTooManyPages, IsScan, IsSession, IsStatusOf, TakesWithin, marks_of, new_head, task_of, uses_of};

use crate::request::Request;
use batch_run::jobs::{audit_index_by, run_batch};
use disk_model::{Disk, SharedDisk};
use job_dump::dump_index;
use job_files::{FAULT_MEMORY, create_index, end_with, put_line, shape_index};
use job_join::laws::faultless_is_complete as joins_are_complete;
use job_join::{check_join_logs, join_indexes, verify_join_logs};
use job_logs::laws::faultless_is_complete;
use job_logs::{check_logs, verify_logs};
use job_make::{Generation, generate_index, migrate_index};
use job_scan::run_scan;
use job_seal::laws::accepted_show;
use job_seal::{carry_logs, prove_logs, seal_index};
use job_show::{Marks, show_logs};
use job_show_joins::show_join_logs;
use job_stats::stats_index;
use job_words::{Job, JobFault, PolicyNames, SpaceName};
use load_threads::ByThreads;
use log_model::laws::least_logs_are_sound;
use node_page::Head;
use outside_io::{Sink, Source, Status};
use seal_log::laws::carried_logs_are_accepted;
use session_run::laws::turns_are_their_meaning;
use session_run::run_session;
use std::alloc::Global;
use std::thread::Threads;

/// The line for words without a job.
pub const USAGE: &[u8] = b"usage: mtree COMMAND INDEX [options]\n";

/// The greatest limit of an index.
const MOST_OBJECTS: u32 = 16_777_216;

// Returns the head of a new file.
fn new_head(space: SpaceName, policies: PolicyNames, limit: u32) -> Head
    requires space { IsValidSpace space }
    requires limit { IsLimit limit }
    ensures head { result ≡ new_head space policies limit }
    ensures valid { IsValidHead result }
{
    Head {
        version: 2,
        kind: space.metric.kind(),
        dim: space.dim,
        promote: policies.promote.number(),
        split: policies.split.number(),
        limit,
    }
}

// Returns what `--marks` asks for.
fn marks_of(counts_only: bool) -> Marks
    ensures { result ≡ marks_of counts_only }
{
    if counts_only {
        Marks::Count
    } else {
        Marks::Each
    }
}

/// Does the job of `request`, the words after the program's name, and returns the status.
///
/// `scan` runs the script of `input` on a plain list. `create` makes `index` an empty index. `gen` makes it an index of generated
/// rows. `migrate` makes it an index of the objects of `other`, a file of version 1. `session` runs the script of `input` on `index`
/// and puts the log of each query to `log_out`. `batch` runs the script's queries by several threads. `shape` writes the shape of
/// the tree, `stats` what is known of it without its objects, and `dump` the objects as a script. `show` shows the walks of the logs of
/// `log_in`. `audit` tells whether `index` is sound. `verify` judges the logs of `log_in` by it, and `check` does both. `join` joins
/// `index` with `other` and puts its log to `log_out`. With `--other`, `verify`, `check` and `show` take join logs and both indexes. `seal`
/// writes the root digest of the whole file of `index`. `proof` with an index puts each log of `log_in` to `log_out` with the pages
/// that it names. `proof` with a digest judges such carried logs of `log_in` by the digest alone.
/// Clauses: what the job does, and what a crash may leave (`does`); what its answers mean (`check_is_true`, `join_check_is_true`,
/// `carried_is_true`, `carried_is_accepted`, `session_is_plain`, `logs_are_sound`); what stays (`memory`, `other_same`, `index`,
/// `untouched`, `log_untouched`, `other`, `log_out`, `kept`); what is taken of the inputs (`long`, `end`); which statuses come
/// (`statuses`); when it succeeds (`complete`, `complete_session`); the cause of an error (`input`, `output`, `disk`, `either_output`,
/// `either_disk`); faults of the devices (`counts`).
/// Arguments: `rt` and `alloc` are the machine's, `request` names the job, and `index`, `other`, `input`, `log_in`, `out` and `log_out` are
/// all that a job may touch.
pub fn run<R: Threads + Sync, D: SharedDisk, E: Disk, S: Source, L: Source, K: Sink, T: Sink>(
    rt: &R,
    alloc: Global,
    request: &Request<'_>,
    index: &mut D,
    other: &mut E,
    input: &mut S,
    log_in: &mut L,
    out: &mut K,
    log_out: &mut T,
) -> Status
    // What the job of the words does to the files, and what it writes. Words without a job give the usage line.
    ensures does { Does (task_of (job_of request.now))
        (record {
          index = D.state index.old;
          other = E.state other.old;
          left = L.left log_in.old;
          out = K.state out.old;
          log_out = T.state log_out.old;
        })
        (record {
          index = D.state index.new;
          other = E.state other.new;
          left = L.left log_in.new;
          out = K.state out.new;
          log_out = T.state log_out.new;
        })
        (S.left input.old) result.0 }

    // What `check` says of a file and of its logs is true: no fault means soundness, and a complete log has the plain scan's
    // answers.
    ensures check_is_true { (file : List ℕ) → FaultlessIsComplete file }
    ensures join_check_is_true { (left right : Tree) → IsOpened left → IsOpened right → JoinFaultlessIsComplete left right }

    // A frame reported as proved has an accepted carried log, and this is what such a log shows. A sound file's carried log of a
    // sound log is accepted.
    ensures carried_is_true { AcceptedShow }
    ensures carried_is_accepted { CarriedLogsAreAccepted }

    // What the turns of a session are: where the file prevents no command, its replies and its objects are the plain list's. The
    // least log of a query is sound.
    ensures session_is_plain { TurnsAreTheirMeaning }
    ensures logs_are_sound { LeastLogsAreSound }

    // These are the only statuses.
    ensures statuses { IsStatusOf (task_of (job_of request.now)) result.0 }

    // The table `uses` says what each job takes and puts. When memory runs out, the index stays as it is, except after a session or a
    // load that changed it. No run changes the other index. A job that needs no script, no index, no logs, no other index or no log
    // output does not touch it.
    ensures memory { (uses_of request.now).changes_early ≡ false → result.0 ≡ 8 →
        IsUnchanged (D.state index.old) (D.state index.new) }
    ensures other_same { IsUnchanged (E.state other.old) (E.state other.new) }
    ensures index { (uses_of request.now).index ≡ false → index.new ≡ index.old }
    ensures untouched { (uses_of request.now).input ≡ false → input.new ≡ input.old }
    ensures log_untouched { (uses_of request.now).log_in ≡ false → log_in.new ≡ log_in.old }
    ensures other { (uses_of request.now).other ≡ false → other.new ≡ other.old }
    ensures log_out { (uses_of request.now).log_out ≡ false → log_out.new ≡ log_out.old }
    ensures kept { (uses_of request.now).puts_early ≡ false → result.0 ≢ 0 → result.0 ≢ 4 → log_out.new ≡ log_out.old }

    // A failed read or write is reported only where the device's count of faults rose.
    ensures input { result.0 ≡ 3 → Rose (S.faults input.old) (S.faults input.new) ⊎ Rose (L.faults log_in.old) (L.faults log_in.new) }
    ensures output { (uses_of request.now).log_out ≡ false → result.0 ≡ 4 →
        Rose (K.state out.old).faults (K.state out.new).faults }
    ensures either_output { result.0 ≡ 4 → Rose (K.state out.old).faults (K.state out.new).faults
        ⊎ Rose (T.state log_out.old).faults (T.state log_out.new).faults }
    ensures disk { (uses_of request.now).other ≡ false → result.0 ≡ 5 →
        Rose (D.state index.old).faults (D.state index.new).faults }
    ensures either_disk { result.0 ≡ 5 → Rose (D.state index.old).faults (D.state index.new).faults
        ⊎ Rose (E.state other.old).faults (E.state other.new).faults }

    // A run takes at most 2 ^ 26 bytes of input and 2 ^ 30 of logs, and a buffer more of each. Status 7 comes where it took more
    // than that, and otherwise only where the index has too many pages.
    ensures long { TakesWithin (HasTooManyPages (uses_of request.now) (D.state index.old)) (S.left input.old)
        (S.left input.new) (L.left log_in.old) (L.left log_in.new) result.0 }

    // A scan that is done has taken all input.
    ensures end { (asked : Asked) → IsScan request.now asked → result.0 ≡ 0 → IsAtEnd (S.left input.new) }

    // With no fault and an input within its limit a scan is done, unless memory runs out.
    ensures complete { (asked : Asked) → IsScan request.now asked → IfSome (S.left input.old) (λ bytes. length bytes ≤ 2 ^ 26 →
        ¬ Rose (S.faults input.old) (S.faults input.new) → ¬ Rose (K.state out.old).faults (K.state out.new).faults →
        (result.0 ≡ 0) ⊎ (result.0 ≡ 8)) }
    // The same holds for a session on a sound file, where its index and the log's output did not fail either.
    ensures complete_session { IsSession request.now → IsComplete (S.left input.old) (D.state index.old)
        (Rose (S.faults input.old) (S.faults input.new) ⊎ (Rose (D.state index.old).faults (D.state index.new).faults
        ⊎ (Rose (K.state out.old).faults (K.state out.new).faults
        ⊎ Rose (T.state log_out.old).faults (T.state log_out.new).faults))) result.0 }
    ensures counts { (S.faults input.old ≤ S.faults input.new) × (L.faults log_in.old ≤ L.faults log_in.new)
        × ((K.state out.old).faults ≤ (K.state out.new).faults) × ((T.state log_out.old).faults ≤ (T.state log_out.new).faults) }
{
    faultless_is_complete();
    joins_are_complete();
    turns_are_their_meaning();
    least_logs_are_sound();
    accepted_show();
    carried_logs_are_accepted();
    let crew = ByThreads::new(rt);
    match request.job() {
        Ok(
            Job::Scan {
                space,
                limit,
                show_tags,
            },
        ) => run_scan(alloc, space, limit, show_tags, input, out),
        Ok(
            Job::Create {
                space,
                policies,
                limit,
                ..
            },
        ) => create_index(index, &new_head(space, policies, limit), out),
        Ok(
            Job::Session {
                workers,
                show_tags,
                ..
            },
        ) => run_session(&crew, alloc, index, workers, show_tags, input, out, log_out),
        Ok(Job::Shape { .. }) => shape_index(alloc, index, out),
        Ok(Job::Stats { .. }) => stats_index(alloc, index, out),
        Ok(Job::Dump { .. }) => dump_index(alloc, index, out),
        Ok(
            Job::Show {
                other: None,
                counts_only,
                ..
            },
        ) => show_logs(alloc, marks_of(counts_only), index, log_in, out),
        Ok(
            Job::Show {
                other: Some(_),
                counts_only,
                ..
            },
        ) => show_join_logs(alloc, marks_of(counts_only), index, other, log_in, out),
        Ok(Job::Audit { workers, .. }) => audit_index_by(rt, alloc, index, workers, out),
        Ok(Job::Verify { other: None, .. }) => verify_logs(alloc, index, log_in, out),
        Ok(Job::Check { other: None, .. }) => check_logs(alloc, index, log_in, out),
        Ok(Job::Verify { other: Some(_), .. }) => verify_join_logs(
            alloc, index, other, log_in, out,
        ),
        Ok(Job::Check { other: Some(_), .. }) => check_join_logs(alloc, index, other, log_in, out),
        Ok(Job::Join { radius, .. }) => join_indexes(alloc, index, other, radius, out, log_out),
        Ok(
            Job::Gen {
                space,
                count,
                seed,
                policies,
                workers,
                ..
            },
        ) => {
            let asked = Generation {
                head: new_head(space, policies, MOST_OBJECTS),
                count,
                seed,
                workers,
            };
            generate_index(&crew, alloc, index, &asked, out)
        }
        Ok(Job::Migrate { .. }) => migrate_index(alloc, index, other, out),
        Ok(
            Job::Batch {
                workers,
                show_tags,
                ..
            },
        ) => run_batch(rt, alloc, index, workers, show_tags, input, out, log_out),
        Ok(Job::Seal { .. }) => seal_index(alloc, index, out),
        Ok(Job::Carry { .. }) => carry_logs(alloc, index, log_in, out, log_out),
        Ok(Job::Prove { root, .. }) => prove_logs(alloc, log_in, &root, out),
        Err(JobFault::Usage) => put_line(out, USAGE, 2),
        Err(JobFault::Memory) => end_with(out, FAULT_MEMORY, 8),
    }
}
