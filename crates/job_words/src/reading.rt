ghost use Rattle.std.specs.Prelude.{◌≡◌, IfOk, IfSome};
ghost use Rattle.std.specs.Option.{option_map};
ghost use Rattle.job_words.specs.Found.{given_in};
ghost use Rattle.job_words.specs.Jobs.{AnswersJob, job_in, job_named, job_of, texts_in};
ghost use Rattle.job_words.specs.Valid.{IsValid};
ghost use Rattle.job_words.specs.Words.{texts_of};

use crate::command_line::command_line;
use crate::job::{Job, JobFault};
use crate::rows;
use crate::values::value;
use clap::ArgMatches;
use clap::error::ErrorKind;
use std::alloc::Global;

// Returns the job of a command, where its row accepts what is given.
fn job_named<'a>(matches: &ArgMatches<'a>, command: &str) -> Option<Job<&'a str>>
    ensures job { option_map texts_in result ≡ job_named (given_in matches.now) command.now }
    ensures valid { IfSome result IsValid }
{
    match command {
        "scan" => rows::scan(matches),
        "create" => rows::create(matches),
        "session" => rows::session(matches),
        "shape" => rows::shape(matches),
        "stats" => rows::stats(matches),
        "dump" => rows::dump(matches),
        "show" => rows::show(matches),
        "audit" => rows::audit(matches),
        "verify" => rows::verify(matches),
        "check" => rows::check(matches),
        "join" => rows::join(matches),
        "gen" => rows::generate(matches),
        "migrate" => rows::migrate(matches),
        "batch" => rows::batch(matches),
        "seal" => rows::seal(matches),
        "proof" => rows::proof(matches),
        _ => None,
    }
}

// Returns the job of what is given.
fn job_from<'a>(matches: &ArgMatches<'a>) -> Option<Job<&'a str>>
    ensures job { option_map texts_in result ≡ job_in (given_in matches.now) }
    ensures valid { IfSome result IsValid }
{
    job_named(matches, value(matches, "COMMAND")?)
}

/// Returns the job of the words after the program's name.
///
/// [`JobFault::Usage`] comes only where the words are no job. For such words no other result comes but [`JobFault::Memory`].
pub fn read_job(alloc: Global, words: &[String]) -> Result<Job<&str>, JobFault>
    ensures job { AnswersJob (job_of (texts_of words.now)) result }
    ensures valid { IfOk result IsValid }
{
    let Ok(command) = command_line(alloc) else {
        return Err(JobFault::Memory);
    };
    match command.try_get_matches_from(words) {
        Ok(matches) => match job_from(&matches) {
            Some(job) => Ok(job),
            None => Err(JobFault::Usage),
        },
        Err(error) => match error.kind() {
            ErrorKind::OutOfMemory => Err(JobFault::Memory),
            _ => Err(JobFault::Usage),
        },
    }
}
