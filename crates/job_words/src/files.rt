ghost use Rattle.std.specs.Prelude.{◌≡◌};
ghost use Rattle.job_words.specs.Files.{files_of, made_log, no_files, on_index};

use crate::job::Job;

/// The one file that a job makes.
#[derive(Clone, Copy, PartialEq, Eq)]
pub enum Makes<Name> {
    /// The job makes no file.
    Nothing,
    /// `create`, `gen` and `migrate` make INDEX.
    Index,
    /// The job makes a new file of logs or proofs with this name.
    Log(Name),
}

/// The files that a job works on. A name is present exactly where the job has it.
#[derive(Clone, Copy, PartialEq, Eq)]
pub struct FileNames<Name> {
    /// The index, INDEX.
    pub index: Option<Name>,
    /// Whether the job writes an existing index: only `session` does.
    pub writes: bool,
    /// The second index, `--other`, which the job only reads.
    pub other: Option<Name>,
    /// The logs that the job reads.
    pub log_in: Option<Name>,
    /// The file that the job makes.
    pub makes: Makes<Name>,
}

/// Returns no files.
pub fn no_files<Name>() -> FileNames<Name>
    ensures { result ≡ no_files }
{
    FileNames {
        index: None,
        writes: false,
        other: None,
        log_in: None,
        makes: Makes::Nothing,
    }
}

// Returns the files of a job that has an existing index and no other file.
fn on_index<Name: Drop>(index: Name) -> FileNames<Name>
    ensures { result ≡ on_index index }
{
    FileNames {
        index: Some(index),
        ..no_files()
    }
}

// Returns the log as the file that a job makes, if it makes one.
fn made_log<Name: Drop>(log: Option<Name>) -> Makes<Name>
    ensures { result ≡ made_log log }
{
    match log {
        Some(log) => Makes::Log(log),
        None => Makes::Nothing,
    }
}

/// Returns the files of a job.
pub fn files_of<Name: Copy>(job: Job<Name>) -> FileNames<Name>
    ensures { result ≡ files_of job }
{
    match job {
        Job::Scan { .. } => no_files(),
        Job::Create { index, .. } | Job::Gen { index, .. } => FileNames {
            makes: Makes::Index,
            ..on_index(index)
        },
        Job::Session { index, log, .. } => FileNames {
            writes: true,
            makes: made_log(log),
            ..on_index(index)
        },
        Job::Batch { index, log, .. } => FileNames {
            makes: made_log(log),
            ..on_index(index)
        },
        Job::Shape { index }
        | Job::Stats { index }
        | Job::Dump { index }
        | Job::Audit { index, .. }
        | Job::Seal { index } => on_index(index),
        Job::Verify { index, log, other }
        | Job::Check { index, log, other }
        | Job::Show {
            index,
            log,
            other,
            ..
        } => FileNames {
            other,
            log_in: Some(log),
            ..on_index(index)
        },
        Job::Join {
            index,
            other,
            log,
            ..
        } => FileNames {
            other: Some(other),
            makes: made_log(log),
            ..on_index(index)
        },
        Job::Migrate { index, other } => FileNames {
            other: Some(other),
            makes: Makes::Index,
            ..on_index(index)
        },
        Job::Carry { index, log, proof } => FileNames {
            log_in: Some(log),
            makes: Makes::Log(proof),
            ..on_index(index)
        },
        Job::Prove { log, .. } => FileNames {
            log_in: Some(log),
            ..no_files()
        },
    }
}
