//! The words of a command line, read once.
ghost use Rattle.std.specs.Prelude.{◌≡◌, IfOk};
ghost use Rattle.job_words.specs.Files.{file_texts};
ghost use Rattle.job_words.specs.Words.{texts_of};
ghost use Rattle.job_words.specs.Jobs.{AnswersJob, job_of};
ghost use Rattle.job_words.specs.Valid.{IsValid};
ghost use Rattle.mtree_cli.specs.Files.{opened_names};

use job_words::{FileNames, Job, JobFault, files_of, no_files, read_job};
use std::alloc::{AllocError, Global};
use std::marker::Model;

/// The words after the program's name, and the job that was read from them. Contracts see the texts of the words.
#[derive(Drop)]
pub struct Request<'a> {
    words: &'a [String],
    job: Result<Job<&'a str>, JobFault>,
}

impl<'a> Model for Request<'a> {
    ghost use Rattle.std.specs.Prelude.{List, ℕ, IfOk};
    ghost use Rattle.job_words.specs.Words.{texts_of};
    ghost use Rattle.job_words.specs.Jobs.{AnswersJob, job_of};
    ghost use Rattle.job_words.specs.Valid.{IsValid};

    ghost Value = { List (List ℕ) };

    ghost view = { λ r. texts_of r.words.now };

    ghost invariant = { λ r. AnswersJob (job_of (texts_of r.words.now)) r.job × IfOk r.job IsValid };
}

impl<'a> Request<'a> {
    /// Reads the words as a job.
    pub fn read(alloc: Global, words: &'a [String]) -> Self
        ensures { result ≡ texts_of words.now }
    {
        let job = read_job(alloc, words);
        Request { words, job }
    }

    /// Returns the words.
    pub fn words(&self) -> &'a [String]
        ensures { texts_of result.now ≡ self.now }
    {
        self.words
    }

    /// Returns the job of the words. `Usage` comes only where the words are no job, and `Memory` only where memory ran out while they
    /// were read.
    pub fn job(&self) -> Result<Job<&'a str>, JobFault>
        ensures job { AnswersJob (job_of self.now) result }
        ensures valid { IfOk result IsValid }
    {
        self.job
    }

    /// Returns the names of the files that the job opens. Words that are no job open none. It fails where memory ran out while the words
    /// were read.
    pub fn file_names(&self) -> Result<FileNames<&'a str>, AllocError>
        ensures { IfOk result (λ names. file_texts names ≡ opened_names (job_of self.now)) }
    {
        match self.job() {
            Ok(job) => Ok(files_of(job)),
            Err(JobFault::Usage) => Ok(no_files()),
            Err(JobFault::Memory) => Err(AllocError),
        }
    }
}
