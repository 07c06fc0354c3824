// Runs a job on the files that the words name.
ghost use Rattle.job_words.specs.Jobs.{job_of};
ghost use Rattle.mtree_cli.specs.Files.{EndsOnFiles};

use crate::program::run;
use crate::request::Request;
use job_files::{FAULT_MEMORY, end_with};
use job_words::FileNames;
use named_files::{Folder, Named, Opened, Refusal, open_files};
use outside_io::{Sink, Source, Status};
use std::alloc::Global;
use std::thread::Threads;

/// How a run ended, and what else there is to tell about it.
#[derive(Drop)]
pub struct Ended<'a, Reason> {
    pub status: Status,
    /// Why the files were not opened, at status 10.
    pub refusal: Option<Refusal<&'a str, Reason>>,
    /// The name of the index whose last fault the system gave a reason for, and the reason.
    pub fault: Option<(&'a str, Reason)>,
}

// Returns an index's name and the reason that the system gave for its last fault.
fn fault_of<'a, F: Folder>(
    name: Option<&'a str>,
    index: &Named<F::Index>,
) -> Option<(&'a str, F::Reason)> {
    match (name, &index.0) {
        (Some(name), Some(index)) => match F::last_fault(index) {
            Some(reason) => Some((name, reason)),
            None => None,
        },
        _ => None,
    }
}

// Returns the name and the reason of the first of both indexes that has one.
fn first_fault<'a, F: Folder>(
    names: &FileNames<&'a str>,
    files: &Opened<F::Index, F::LogIn, F::LogOut>,
) -> Option<(&'a str, F::Reason)> {
    match fault_of::<F>(names.index, &files.index) {
        Some(fault) => Some(fault),
        None => fault_of::<F>(names.other, &files.other),
    }
}

/// Runs the job of `request` on the files that it names. `create`, `gen` and `migrate` make the index where there is none.
///
/// Each index is locked against other processes from its opening to the end of the run. The status is 10 in these cases: a file
/// could not be opened, another process holds an index, the log to be made begins as an index, or the file to be made is a file that
/// is read. Then no file was made or emptied, and nothing was written.
pub fn run_on_files<'a, R: Threads + Sync, F: Folder, S: Source, K: Sink>(
    rt: &R,
    alloc: Global,
    request: &Request<'a>,
    folder: F,
    input: &mut S,
    out: &mut K,
) -> Ended<'a, F::Reason>
    ensures { EndsOnFiles F.Index.state F.LogIn.left F.LogOut.state (F.meaning folder) (job_of request.now) (S.left input.old)
        (K.state out.old) (K.state out.new) result.status.0 result.refusal }
{
    let Ok(names) = request.file_names() else {
        return Ended {
            status: end_with(out, FAULT_MEMORY, 8),
            refusal: None,
            fault: None,
        };
    };
    let mut files = match open_files(folder, &names) {
        Ok(files) => files,
        Err(unopened) => {
            return Ended {
                status: Status(10),
                refusal: Some(unopened.refusal),
                fault: None,
            };
        }
    };
    let status = run(
        rt,
        alloc,
        request,
        &mut files.index,
        &mut files.other,
        input,
        &mut files.log_in,
        out,
        &mut files.log_out,
    );
    Ended {
        status,
        refusal: None,
        fault: first_fault::<F>(&names, &files),
    }
}
