ghost use Rattle.std.specs.Prelude.{◌≡◌, IfSome};
ghost use Rattle.std.specs.Option.{option_map};
ghost use Rattle.job_words.specs.Found.{given_in};
ghost use Rattle.job_words.specs.Valid.{IsValid};
ghost use Rattle.job_words.specs.Jobs.{proof_in, texts_in};
ghost use Rattle.job_words.specs.Rows.{audit_in, batch_in, carry_in, check_in, create_in, dump_in, gen_in, join_in, migrate_in, prove_in, scan_in, seal_in, session_in, shape_in, show_in, stats_in, verify_in};

use crate::job::Job;
use crate::values::{
    count_in, counts_only_in, generated_space_in, has_other, limit_in, policies_in, radius_in,
    root_in, seed_in, show_tags_in, space_in, value, workers_in,
};
use clap::ArgMatches;

// The words that each command takes. The required ones come first.

pub const SCAN: [&str; 4] = ["metric", "dim", "max", "tags"];

pub const CREATE: [&str; 6] = ["INDEX", "metric", "dim", "promote", "split", "max"];

pub const SESSION: [&str; 4] = ["INDEX", "log", "workers", "tags"];

pub const SHAPE: [&str; 1] = ["INDEX"];

pub const STATS: [&str; 1] = ["INDEX"];

pub const DUMP: [&str; 1] = ["INDEX"];

pub const SHOW: [&str; 4] = ["INDEX", "log", "other", "marks"];

pub const AUDIT: [&str; 2] = ["INDEX", "workers"];

pub const VERIFY: [&str; 3] = ["INDEX", "log", "other"];

pub const CHECK: [&str; 3] = ["INDEX", "log", "other"];

pub const JOIN: [&str; 4] = ["INDEX", "other", "radius", "log"];

pub const GEN: [&str; 8] = [
    "INDEX", "metric", "dim", "count", "seed", "promote", "split", "workers",
];

pub const MIGRATE: [&str; 2] = ["INDEX", "other"];

pub const BATCH: [&str; 4] = ["INDEX", "workers", "log", "tags"];

pub const SEAL: [&str; 1] = ["INDEX"];

pub const CARRY: [&str; 3] = ["INDEX", "log", "proof"];

pub const PROVE: [&str; 2] = ["log", "root"];

/// Returns the job of `scan`, where its row accepts what is given.
pub fn scan<'a>(matches: &ArgMatches<'a>) -> Option<Job<&'a str>>
    ensures job { option_map texts_in result ≡ scan_in (given_in matches.now) }
    ensures valid { IfSome result IsValid }
{
    if has_other(matches, &SCAN) {
        return None;
    }
    Some(Job::Scan {
        space: space_in(matches)?,
        limit: limit_in(matches)?,
        show_tags: show_tags_in(matches)?,
    })
}

/// Returns the job of `create`, where its row accepts what is given.
pub fn create<'a>(matches: &ArgMatches<'a>) -> Option<Job<&'a str>>
    ensures job { option_map texts_in result ≡ create_in (given_in matches.now) }
    ensures valid { IfSome result IsValid }
{
    if has_other(matches, &CREATE) {
        return None;
    }
    Some(Job::Create {
        index: value(matches, "INDEX")?,
        space: space_in(matches)?,
        policies: policies_in(matches)?,
        limit: limit_in(matches)?,
    })
}

/// Returns the job of `session`, where its row accepts what is given.
pub fn session<'a>(matches: &ArgMatches<'a>) -> Option<Job<&'a str>>
    ensures job { option_map texts_in result ≡ session_in (given_in matches.now) }
    ensures valid { IfSome result IsValid }
{
    if has_other(matches, &SESSION) {
        return None;
    }
    Some(Job::Session {
        index: value(matches, "INDEX")?,
        log: value(matches, "log"),
        workers: workers_in(matches)?,
        show_tags: show_tags_in(matches)?,
    })
}

/// Returns the job of `shape`, where its row accepts what is given.
pub fn shape<'a>(matches: &ArgMatches<'a>) -> Option<Job<&'a str>>
    ensures job { option_map texts_in result ≡ shape_in (given_in matches.now) }
    ensures valid { IfSome result IsValid }
{
    if has_other(matches, &SHAPE) {
        return None;
    }
    Some(Job::Shape {
        index: value(matches, "INDEX")?,
    })
}

/// Returns the job of `stats`, where its row accepts what is given.
pub fn stats<'a>(matches: &ArgMatches<'a>) -> Option<Job<&'a str>>
    ensures job { option_map texts_in result ≡ stats_in (given_in matches.now) }
    ensures valid { IfSome result IsValid }
{
    if has_other(matches, &STATS) {
        return None;
    }
    Some(Job::Stats {
        index: value(matches, "INDEX")?,
    })
}

/// Returns the job of `dump`, where its row accepts what is given.
pub fn dump<'a>(matches: &ArgMatches<'a>) -> Option<Job<&'a str>>
    ensures job { option_map texts_in result ≡ dump_in (given_in matches.now) }
    ensures valid { IfSome result IsValid }
{
    if has_other(matches, &DUMP) {
        return None;
    }
    Some(Job::Dump {
        index: value(matches, "INDEX")?,
    })
}

/// Returns the job of `show`, where its row accepts what is given.
pub fn show<'a>(matches: &ArgMatches<'a>) -> Option<Job<&'a str>>
    ensures job { option_map texts_in result ≡ show_in (given_in matches.now) }
    ensures valid { IfSome result IsValid }
{
    if has_other(matches, &SHOW) {
        return None;
    }
    Some(Job::Show {
        index: value(matches, "INDEX")?,
        log: value(matches, "log")?,
        other: value(matches, "other"),
        counts_only: counts_only_in(matches)?,
    })
}

/// Returns the job of `audit`, where its row accepts what is given.
pub fn audit<'a>(matches: &ArgMatches<'a>) -> Option<Job<&'a str>>
    ensures job { option_map texts_in result ≡ audit_in (given_in matches.now) }
    ensures valid { IfSome result IsValid }
{
    if has_other(matches, &AUDIT) {
        return None;
    }
    Some(Job::Audit {
        index: value(matches, "INDEX")?,
        workers: workers_in(matches)?,
    })
}

/// Returns the job of `verify`, where its row accepts what is given.
pub fn verify<'a>(matches: &ArgMatches<'a>) -> Option<Job<&'a str>>
    ensures job { option_map texts_in result ≡ verify_in (given_in matches.now) }
    ensures valid { IfSome result IsValid }
{
    if has_other(matches, &VERIFY) {
        return None;
    }
    Some(Job::Verify {
        index: value(matches, "INDEX")?,
        log: value(matches, "log")?,
        other: value(matches, "other"),
    })
}

/// Returns the job of `check`, where its row accepts what is given.
pub fn check<'a>(matches: &ArgMatches<'a>) -> Option<Job<&'a str>>
    ensures job { option_map texts_in result ≡ check_in (given_in matches.now) }
    ensures valid { IfSome result IsValid }
{
    if has_other(matches, &CHECK) {
        return None;
    }
    Some(Job::Check {
        index: value(matches, "INDEX")?,
        log: value(matches, "log")?,
        other: value(matches, "other"),
    })
}

/// Returns the job of `join`, where its row accepts what is given.
pub fn join<'a>(matches: &ArgMatches<'a>) -> Option<Job<&'a str>>
    ensures job { option_map texts_in result ≡ join_in (given_in matches.now) }
    ensures valid { IfSome result IsValid }
{
    if has_other(matches, &JOIN) {
        return None;
    }
    Some(Job::Join {
        index: value(matches, "INDEX")?,
        other: value(matches, "other")?,
        radius: radius_in(matches)?,
        log: value(matches, "log"),
    })
}

/// Returns the job of `gen`, where its row accepts what is given.
pub fn generate<'a>(matches: &ArgMatches<'a>) -> Option<Job<&'a str>>
    ensures job { option_map texts_in result ≡ gen_in (given_in matches.now) }
    ensures valid { IfSome result IsValid }
{
    if has_other(matches, &GEN) {
        return None;
    }
    Some(Job::Gen {
        index: value(matches, "INDEX")?,
        space: generated_space_in(matches)?,
        count: count_in(matches)?,
        seed: seed_in(matches)?,
        policies: policies_in(matches)?,
        workers: workers_in(matches)?,
    })
}

/// Returns the job of `migrate`, where its row accepts what is given.
pub fn migrate<'a>(matches: &ArgMatches<'a>) -> Option<Job<&'a str>>
    ensures job { option_map texts_in result ≡ migrate_in (given_in matches.now) }
    ensures valid { IfSome result IsValid }
{
    if has_other(matches, &MIGRATE) {
        return None;
    }
    Some(Job::Migrate {
        index: value(matches, "INDEX")?,
        other: value(matches, "other")?,
    })
}

/// Returns the job of `batch`, where its row accepts what is given.
pub fn batch<'a>(matches: &ArgMatches<'a>) -> Option<Job<&'a str>>
    ensures job { option_map texts_in result ≡ batch_in (given_in matches.now) }
    ensures valid { IfSome result IsValid }
{
    if has_other(matches, &BATCH) {
        return None;
    }
    Some(Job::Batch {
        index: value(matches, "INDEX")?,
        workers: workers_in(matches)?,
        log: value(matches, "log"),
        show_tags: show_tags_in(matches)?,
    })
}

/// Returns the job of `seal`, where its row accepts what is given.
pub fn seal<'a>(matches: &ArgMatches<'a>) -> Option<Job<&'a str>>
    ensures job { option_map texts_in result ≡ seal_in (given_in matches.now) }
    ensures valid { IfSome result IsValid }
{
    if has_other(matches, &SEAL) {
        return None;
    }
    Some(Job::Seal {
        index: value(matches, "INDEX")?,
    })
}

// Returns the job of `proof` with INDEX, where its row accepts what is given.
fn carry<'a>(matches: &ArgMatches<'a>) -> Option<Job<&'a str>>
    ensures job { option_map texts_in result ≡ carry_in (given_in matches.now) }
    ensures valid { IfSome result IsValid }
{
    if has_other(matches, &CARRY) {
        return None;
    }
    Some(Job::Carry {
        index: value(matches, "INDEX")?,
        log: value(matches, "log")?,
        proof: value(matches, "proof")?,
    })
}

// Returns the job of `proof` without INDEX, where its row accepts what is given.
fn prove<'a>(matches: &ArgMatches<'a>) -> Option<Job<&'a str>>
    ensures job { option_map texts_in result ≡ prove_in (given_in matches.now) }
    ensures valid { IfSome result IsValid }
{
    if has_other(matches, &PROVE) {
        return None;
    }
    Some(Job::Prove {
        log: value(matches, "log")?,
        root: root_in(matches)?,
    })
}

/// Returns the job of `proof`, where one of its rows accepts what is given.
pub fn proof<'a>(matches: &ArgMatches<'a>) -> Option<Job<&'a str>>
    ensures job { option_map texts_in result ≡ proof_in (given_in matches.now) }
    ensures valid { IfSome result IsValid }
{
    if value(matches, "INDEX").is_some() {
        carry(matches)
    } else {
        prove(matches)
    }
}
