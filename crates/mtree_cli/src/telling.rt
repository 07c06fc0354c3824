// What the program writes for its user on standard error: why a run did not do what was asked. Its results are on standard output.

use crate::files::Ended;
use crate::request::Request;
use crate::watched::Replies;
use job_words::{Complaint, complaint_on};
use named_files::{Denial, Refusal};
use std::io;

// Returns the first line of a text, without the word that clap begins with.
fn first_line(text: &str) -> &str {
    let line = match text.split_once('\n') {
        Some((line, _)) => line,
        None => text,
    };
    match line.strip_prefix("error: ") {
        Some(rest) => rest,
        None => line,
    }
}

// Says why a file was not opened.
fn tell_denied(rt: &HostRuntime, name: &str, why: &Denial<io::Error>) {
    let _ = match why {
        Denial::System(reason) => eprintln!(rt; "mtree: {}: {}", name, reason),
        Denial::InUse => eprintln!(rt;
            "mtree: {} is in use: another process writes it, or reads it while this command would write it",
            name
        ),
        Denial::IsIndex => eprintln!(rt; "mtree: {} is an index, so it is not emptied", name),
    };
}

// Says why the files of a run were not opened.
fn tell_refused(rt: &HostRuntime, refusal: &Refusal<&str, io::Error>) {
    match refusal {
        Refusal::Denied { name, why } => tell_denied(rt, name, why),
        Refusal::OneFile { made, read } => {
            let _ = eprintln!(rt;
                "mtree: {} and {} are one file, which would be read and written",
                made, read
            );
        }
    }
}

// Returns whether the words ask for help. No command takes such an option.
fn ask_for_help(words: &[String]) -> bool {
    words
        .iter()
        .any(|word| word.as_str() == "--help" || word.as_str() == "-h")
}

// Names the commands.
fn tell_commands(rt: &HostRuntime) {
    let _ = eprintln!(rt;
        "mtree: the commands are audit, batch, check, create, dump, gen, join, migrate, proof, scan, seal, session, shape, show, stats and verify"
    );
    let _ = eprintln!(rt; "mtree: docs/COMMANDS.md and the man page describe them");
}

// Says what is wrong with words that are no job. Names the commands where the words name none, and where they ask for help.
fn tell_complaint(rt: &HostRuntime, words: &[String]) {
    if ask_for_help(words) {
        return tell_commands(rt);
    }
    let Ok(Some(complaint)) = complaint_on(rt.alloc(), words) else {
        return;
    };
    let _ = match &complaint {
        Complaint::Words(error) => match format!(in rt.alloc(); "{}", error) {
            Ok(text) => eprintln!(rt; "mtree: {}", first_line(&text)),
            Err(_) => Ok(()),
        },
        other => eprintln!(rt; "mtree: {}", other),
    };
    if matches!(
        complaint,
        Complaint::NoCommand | Complaint::NoSuchCommand(_)
    ) {
        tell_commands(rt);
    }
}

// Says how many commands of a script were refused, and which was the first.
fn tell_replies(rt: &HostRuntime, replies: &Replies) {
    if let Some(first) = &replies.first {
        let _ = eprintln!(rt;
            "mtree: {} of {} commands were refused, the first at record {}: {}",
            replies.refused,
            replies.count,
            first.record,
            first.text()
        );
    }
}

/// Says that a word is no text.
pub fn tell_not_text(rt: &HostRuntime) {
    let _ = eprintln!(rt; "mtree: a word of the command line is no UTF-8 text");
}

/// Says why a run did not do what was asked: why a file was refused, what is wrong with the words, what the system says of a failed
/// index, and how many commands were refused.
pub fn tell_of(
    rt: &HostRuntime,
    request: &Request<'_>,
    ended: &Ended<'_, io::Error>,
    replies: &Replies,
) {
    if let Some(refusal) = &ended.refusal {
        tell_refused(rt, refusal);
    }
    if ended.status.0 == 2 {
        tell_complaint(rt, request.words());
    }
    if ended.status.0 == 5 {
        if let Some((name, reason)) = &ended.fault {
            let _ = eprintln!(rt; "mtree: {}: {}", name, reason);
        }
    }
    tell_replies(rt, replies);
}
