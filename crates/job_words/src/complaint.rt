// Says what is wrong with words that are no job.

use crate::command_line::{OPTIONS, command_line};
use crate::names::{metric_named, promote_named, split_named};
use crate::rows;
use crate::values::{
    count_in, counts_only_in, dim_in, generated_space_in, limit_in, radius_in, root_in, seed_in,
    show_tags_in, space_in, value, workers_in,
};
use clap::{ArgMatches, Error};
use std::alloc::{AllocError, Global};
use std::fmt;

/// What is wrong with words that are no job. Its `Display` is a sentence for the user.
#[derive(Drop)]
pub enum Complaint<'a> {
    /// A word is an unknown option, is given twice, has no value, or is one word too many.
    Words(Error),
    /// There is no first word.
    NoCommand,
    /// The first word is no command.
    NoSuchCommand(&'a str),
    /// The command does not take this word.
    Unwanted {
        command: &'a str,
        name: &'static str,
    },
    /// The command requires this word.
    Missing {
        command: &'a str,
        name: &'static str,
    },
    /// The option must not have this value.
    Value {
        name: &'static str,
        value: &'a str,
        may_be: &'static str,
    },
}

// The words that a command takes. The first `needs` of them are required.
#[derive(Clone, Copy)]
struct Row {
    takes: &'static [&'static str],
    needs: usize,
}

// Returns the row of a command. `proof` has one row with INDEX and one without.
fn row_of(command: &str, has_index: bool) -> Option<Row> {
    let (takes, needs): (&'static [&'static str], usize) = match command {
        "scan" => (&rows::SCAN, 2),
        "create" => (&rows::CREATE, 3),
        "session" => (&rows::SESSION, 1),
        "shape" => (&rows::SHAPE, 1),
        "stats" => (&rows::STATS, 1),
        "dump" => (&rows::DUMP, 1),
        "show" => (&rows::SHOW, 2),
        "audit" => (&rows::AUDIT, 1),
        "verify" => (&rows::VERIFY, 2),
        "check" => (&rows::CHECK, 2),
        "join" => (&rows::JOIN, 3),
        "gen" => (&rows::GEN, 4),
        "migrate" => (&rows::MIGRATE, 2),
        "batch" => (&rows::BATCH, 1),
        "seal" => (&rows::SEAL, 1),
        "proof" if has_index => (&rows::CARRY, 3),
        "proof" => (&rows::PROVE, 2),
        _ => return None,
    };
    Some(Row { takes, needs })
}

// Returns a name of `names` that is given but not taken by the row.
fn unwanted(matches: &ArgMatches<'_>, row: &Row, names: &[&'static str]) -> Option<&'static str> {
    for name in names {
        if value(matches, name).is_some() && !row.takes.contains(name) {
            return Some(*name);
        }
    }
    None
}

// Returns a name that the row requires and that is not given.
fn missing(matches: &ArgMatches<'_>, row: &Row) -> Option<&'static str> {
    for name in row.takes.iter().take(row.needs) {
        if value(matches, name).is_none() {
            return Some(*name);
        }
    }
    None
}

// Returns the allowed values of a name, where the given value is not one of them.
fn allowed(matches: &ArgMatches<'_>, name: &str, given: &str) -> Option<&'static str> {
    let (holds, may_be) = match name {
        "metric" => (
            metric_named(given).is_some(),
            "hamming, l1, max, kendall, hausdorff, mixsum, mixmax or l1cap",
        ),
        "dim" => (dim_in(matches).is_some(), "a whole number from 1 to 64"),
        "max" => (
            limit_in(matches).is_some(),
            "a whole number from 1 to 16777216",
        ),
        "workers" => (workers_in(matches).is_some(), "a whole number from 1 to 64"),
        "count" => (
            count_in(matches).is_some(),
            "a whole number from 1 to 1048576",
        ),
        "seed" => (
            seed_in(matches).is_some(),
            "a whole number from 0 to 4294967295",
        ),
        "radius" => (
            radius_in(matches).is_some(),
            "a whole number from 0 to 18446744073709551615",
        ),
        "tags" => (show_tags_in(matches).is_some(), "show or hide"),
        "marks" => (counts_only_in(matches).is_some(), "each or count"),
        "promote" => (promote_named(given).is_some(), "mrad or mmrad"),
        "split" => (split_named(given).is_some(), "hyperplane or balanced"),
        "root" => (root_in(matches).is_some(), "64 digits of 0 to 9 and a to f"),
        _ => return None,
    };
    if holds { None } else { Some(may_be) }
}

// Returns a complaint about the first value of the row that is not allowed.
fn odd_value<'a>(matches: &ArgMatches<'a>, row: &Row) -> Option<Complaint<'a>> {
    for name in row.takes {
        if let Some(value) = value(matches, name) {
            if let Some(may_be) = allowed(matches, name, value) {
                return Some(Complaint::Value {
                    name: *name,
                    value,
                    may_be,
                });
            }
        }
    }
    None
}

// Returns a complaint about a space whose metric and dimension are each allowed, but not together.
fn odd_space<'a>(matches: &ArgMatches<'a>, command: &str) -> Option<Complaint<'a>> {
    let metric = value(matches, "metric")?;
    if space_in(matches).is_none() {
        return Some(Complaint::Value {
            name: "dim",
            value: value(matches, "dim")?,
            may_be: "an even number where the metric is mixsum or mixmax",
        });
    }
    if command == "gen" && generated_space_in(matches).is_none() {
        return Some(Complaint::Value {
            name: "metric",
            value: metric,
            may_be: "hamming, l1, max, mixsum, mixmax or l1cap, the metrics that gen makes points of",
        });
    }
    None
}

// Returns a complaint about words that clap could read.
fn complaint_about<'a>(matches: &ArgMatches<'a>) -> Option<Complaint<'a>> {
    let Some(command) = value(matches, "COMMAND") else {
        return Some(Complaint::NoCommand);
    };
    let Some(row) = row_of(command, value(matches, "INDEX").is_some()) else {
        return Some(Complaint::NoSuchCommand(command));
    };
    if let Some(name) = unwanted(matches, &row, &["INDEX"]) {
        return Some(Complaint::Unwanted { command, name });
    }
    if let Some(name) = unwanted(matches, &row, &OPTIONS) {
        return Some(Complaint::Unwanted { command, name });
    }
    if let Some(name) = missing(matches, &row) {
        return Some(Complaint::Missing { command, name });
    }
    match odd_value(matches, &row) {
        Some(odd) => Some(odd),
        None => odd_space(matches, command),
    }
}

/// Returns a complaint about the words after the program's name, where they are no job.
pub fn complaint_on<'a>(
    alloc: Global,
    words: &'a [String],
) -> Result<Option<Complaint<'a>>, AllocError> {
    let command = command_line(alloc)?;
    match command.try_get_matches_from(words) {
        Ok(matches) => Ok(complaint_about(&matches)),
        Err(error) => Ok(Some(Complaint::Words(error))),
    }
}

// A name as the user writes it: INDEX as it is, and an option after two hyphens.
#[derive(Clone, Copy)]
struct Spelled(&'static str);

impl fmt::Display for Spelled {
    fn fmt<W: fmt::Write>(&self, f: &mut fmt::Formatter<W>) -> fmt::Result {
        if self.0 == "INDEX" {
            return write!(f, "INDEX");
        }
        write!(f, "--{}", self.0)
    }
}

impl fmt::Display for Complaint<'_> {
    fn fmt<W: fmt::Write>(&self, f: &mut fmt::Formatter<W>) -> fmt::Result {
        match self {
            Complaint::Words(error) => write!(f, "{}", error),
            Complaint::NoCommand => write!(f, "no command is given"),
            Complaint::NoSuchCommand(word) => write!(f, "there is no command {}", word),
            Complaint::Unwanted { command, name } => {
                write!(f, "{} takes no {}", command, Spelled(*name))
            }
            Complaint::Missing { command, name } => write!(
                f,
                "{} needs {}",
                command,
                Spelled(*name)
            ),
            Complaint::Value {
                name,
                value,
                may_be,
            } => { write!(f, "--{} may not be {}: it is {}", name, value, may_be) }
        }
    }
}
