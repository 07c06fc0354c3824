//! The program: reads the words of its command line and does their job.
#![tactic(auto)]

mod files;
#[cfg(test)]
mod join_tests;
#[cfg(test)]
mod log_tests;
#[cfg(test)]
mod number_tests;
mod program;
mod request;
#[cfg(test)]
mod runs;
#[cfg(test)]
mod session_tests;
mod telling;
#[cfg(test)]
mod tests;
mod watched;

use files::run_on_files;
use job_files::{FAULT_MEMORY, end_with, put_line};
use job_words::JobFault;
use named_files::HostFolder;
use outside_io::{StdSink, StdSource};
use program::USAGE;
use request::Request;
use std::env;
use std::io::{self, ErrorKind};
use std::process::ExitCode;
use telling::{tell_not_text, tell_of};
use watched::Watched;

// Maps the error of reading the words: a word is no text, or memory ran out.
fn words_fault(error: io::Error) -> JobFault {
    match error.kind() {
        ErrorKind::OutOfMemory => JobFault::Memory,
        _ => JobFault::Usage,
    }
}

// Reads the words after the program's name.
fn read_words(rt: &HostRuntime) -> Result<Vec<String>, JobFault> {
    let mut words = Vec::new(rt.alloc());
    for word in env::args(rt).map_err(words_fault)?.skip(1) {
        if words.push(word).is_err() {
            return Err(JobFault::Memory);
        }
    }
    Ok(words)
}

fn main(rt: HostRuntime) -> ExitCode {
    let mut input = StdSource::new(rt.stdin());
    let mut out = Watched::new(StdSink::new(rt.stdout()));
    let status = match read_words(&rt) {
        Ok(words) => {
            let request = Request::read(rt.alloc(), &words);
            let ended = run_on_files(
                &rt,
                rt.alloc(),
                &request,
                HostFolder::new(&rt),
                &mut input,
                &mut out,
            );
            tell_of(&rt, &request, &ended, &out.replies);
            ended.status
        }
        Err(JobFault::Usage) => {
            tell_not_text(&rt);
            put_line(&mut out, USAGE, 2)
        }
        Err(JobFault::Memory) => end_with(&mut out, FAULT_MEMORY, 8),
    };
    ExitCode::from(status.0)
}
