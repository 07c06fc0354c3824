ghost use Rattle.std.specs.Prelude.{◌≡◌, ◌≤◌, map, option_map, IfSome};
ghost use Rattle.std.specs.List.{list_any};
ghost use Rattle.std.specs.Str.{bytes_eq};
ghost use Rattle.job_words.specs.Found.{given_in};
ghost use Rattle.job_words.specs.Given.{is_other, has_other, number_in, number_given, dim_given, limit_given, workers_given, count_given, seed_given, radius_given, show_given, counts_only_given, space_given, generated_space_given, policies_given, digest_of, root_given, promote_or, split_or, is_lower_digit};
ghost use Rattle.job_words.specs.Valid.{AreWorkers, IsCount, IsGeneratedSpace, IsValidSpace, IsLimit};
ghost use Rattle.job_words.specs.Names.{is_halved, is_generated};

use crate::command_line::OPTIONS;
use crate::names::{
    MetricName, PolicyNames, Promote, SpaceName, Split, metric_named, promote_named, split_named,
};
use clap::ArgMatches;
use hex::FromHex;
use rows_text::number;

const MOST_DIGITS: usize = 20;

/// Returns the value of an option or a positional.
pub fn value<'a>(matches: &ArgMatches<'a>, name: &str) -> Option<&'a str>
    ensures { option_map (λ s. s.now) result ≡ given_in matches.now name.now }
{
    matches.get_str(name)
}

// Returns whether `name` is one of `names`.
fn is_among(name: &str, names: &[&str]) -> bool
    ensures { result ≡ list_any (bytes_eq name.now) (map (λ s. s.now) names.now) }
{
    for other in names {
        if name == *other {
            return true;
        }
    }
    false
}

// Returns whether `name` is given, and is not one of `names`.
fn is_other(matches: &ArgMatches<'_>, names: &[&str], name: &str) -> bool
    ensures { result ≡ is_other (map (λ s. s.now) names.now) (given_in matches.now) name.now }
{
    value(matches, name).is_some() && !is_among(name, names)
}

// Returns whether one of `options` is given that is not one of `names`.
fn has_other_option(matches: &ArgMatches<'_>, names: &[&str], options: &[&str]) -> bool
    ensures { result
        ≡ list_any (is_other (map (λ s. s.now) names.now) (given_in matches.now)) (map (λ s. s.now) options.now) }
{
    for option in options {
        if is_other(matches, names, option) {
            return true;
        }
    }
    false
}

/// Returns whether something besides `names` is given. COMMAND always is.
pub fn has_other(matches: &ArgMatches<'_>, names: &[&str]) -> bool
    ensures { result ≡ has_other (map (λ s. s.now) names.now) (given_in matches.now) }
{
    is_other(matches, names, "INDEX") || has_other_option(matches, names, &OPTIONS)
}

// Returns the number below 2^64 that 1 to 20 decimal digits spell.
fn number_in(text: &str) -> Option<u64>
    ensures { result ≡ number_in text.now }
{
    if text.len() > MOST_DIGITS {
        return None;
    }
    number(text.as_bytes())
}

// Returns the number of an option, from the least to the most; the default where the option is not given.
fn number_given(
    matches: &ArgMatches<'_>,
    name: &str,
    least: u64,
    most: u64,
    other: Option<u64>,
) -> Option<u64>
    ensures value { result ≡ number_given name.now least most other (given_in matches.now) }
    ensures within { IfSome other (λ n. (least ≤ n) × (n ≤ most)) → IfSome result (λ n. (least ≤ n) × (n ≤ most)) }
{
    let Some(text) = value(matches, name) else {
        return other;
    };
    let n = number_in(text)?;
    if n < least || n > most {
        return None;
    }
    Some(n)
}

/// Returns the greatest number of objects, `--max`.
pub fn limit_in(matches: &ArgMatches<'_>) -> Option<u32>
    ensures value { result ≡ limit_given (given_in matches.now) }
    ensures valid { IfSome result IsLimit }
{
    let limit = number_given(matches, "max", 1, 16777216, Some(16777216))?;
    Some(limit as u32)
}

/// Returns the number of threads, `--workers`.
pub fn workers_in(matches: &ArgMatches<'_>) -> Option<usize>
    ensures value { result ≡ workers_given (given_in matches.now) }
    ensures valid { IfSome result AreWorkers }
{
    let workers = number_given(matches, "workers", 1, 64, Some(1))?;
    Some(workers as usize)
}

/// Returns the number of generated objects, `--count`.
pub fn count_in(matches: &ArgMatches<'_>) -> Option<u32>
    ensures value { result ≡ count_given (given_in matches.now) }
    ensures valid { IfSome result IsCount }
{
    let count = number_given(matches, "count", 1, 1048576, None)?;
    Some(count as u32)
}

/// Returns the generator's seed, `--seed`.
pub fn seed_in(matches: &ArgMatches<'_>) -> Option<u32>
    ensures { result ≡ seed_given (given_in matches.now) }
{
    let seed = number_given(matches, "seed", 0, 4294967295, Some(0))?;
    Some(seed as u32)
}

/// Returns the radius of a join, `--radius`.
pub fn radius_in(matches: &ArgMatches<'_>) -> Option<u64>
    ensures { result ≡ radius_given (given_in matches.now) }
{
    number_given(matches, "radius", 0, u64::MAX, None)
}

/// Returns whether `--tags` is `show`.
pub fn show_tags_in(matches: &ArgMatches<'_>) -> Option<bool>
    ensures { result ≡ show_given (given_in matches.now) }
{
    match value(matches, "tags") {
        None => Some(false),
        Some("hide") => Some(false),
        Some("show") => Some(true),
        Some(_) => None,
    }
}

/// Returns whether `--marks` is `count`.
pub fn counts_only_in(matches: &ArgMatches<'_>) -> Option<bool>
    ensures { result ≡ counts_only_given (given_in matches.now) }
{
    match value(matches, "marks") {
        None => Some(false),
        Some("each") => Some(false),
        Some("count") => Some(true),
        Some(_) => None,
    }
}

// Returns whether a metric cuts a point into two halves.
fn is_halved(metric: MetricName) -> bool
    ensures { result ≡ is_halved metric }
{
    matches!(metric, MetricName::MixSum | MetricName::MixMax)
}

/// Returns the dimension, `--dim`.
pub fn dim_in(matches: &ArgMatches<'_>) -> Option<u8>
    ensures value { result ≡ dim_given (given_in matches.now) }
    ensures within { IfSome result (λ dim. (1 ≤ dim) × (dim ≤ 64)) }
{
    let dim = number_given(matches, "dim", 1, 64, None)?;
    Some(dim as u8)
}

/// Returns the space of `--metric` and `--dim`.
pub fn space_in(matches: &ArgMatches<'_>) -> Option<SpaceName>
    ensures value { result ≡ space_given (given_in matches.now) }
    ensures valid { IfSome result IsValidSpace }
{
    let metric = metric_named(value(matches, "metric")?)?;
    let dim = dim_in(matches)?;
    if is_halved(metric) && dim % 2 == 1 {
        return None;
    }
    Some(SpaceName { metric, dim })
}

// Returns whether the generator makes points of a metric.
fn is_generated(metric: MetricName) -> bool
    ensures { result ≡ is_generated metric }
{
    !matches!(metric, MetricName::Kendall | MetricName::Hausdorff)
}

/// Returns the space of `--metric` and `--dim`, where the generator makes its points.
pub fn generated_space_in(matches: &ArgMatches<'_>) -> Option<SpaceName>
    ensures value { result ≡ generated_space_given (given_in matches.now) }
    ensures valid { IfSome result IsGeneratedSpace }
{
    let space = space_in(matches)?;
    if !is_generated(space.metric) {
        return None;
    }
    Some(space)
}

// Returns the promotion policy of a name, or the default where there is no name.
fn promote_or(text: Option<&str>) -> Option<Promote>
    ensures { result ≡ promote_or (option_map (λ s. s.now) text.entry) }
{
    match text {
        None => Some(Promote::Mmrad),
        Some(text) => promote_named(text),
    }
}

// Returns the partition policy of a name, or the default where there is no name.
fn split_or(text: Option<&str>) -> Option<Split>
    ensures { result ≡ split_or (option_map (λ s. s.now) text.entry) }
{
    match text {
        None => Some(Split::Hyperplane),
        Some(text) => split_named(text),
    }
}

/// Returns the policies of `--promote` and `--split`.
pub fn policies_in(matches: &ArgMatches<'_>) -> Option<PolicyNames>
    ensures { result ≡ policies_given (given_in matches.now) }
{
    Some(PolicyNames {
        promote: promote_or(value(matches, "promote"))?,
        split: split_or(value(matches, "split"))?,
    })
}

// Returns whether a byte is a hexadecimal digit in lower case.
fn is_lower_digit(byte: u8) -> bool
    ensures { result ≡ is_lower_digit byte }
{
    matches!(byte, b'0'..=b'9' | b'a'..=b'f')
}

// Returns the bytes of 64 hexadecimal digits in lower case.
fn digest(text: &str) -> Option<[u8; 32]>
    ensures { result ≡ digest_of text.now }
{
    for &byte in text.as_bytes() {
        if !is_lower_digit(byte) {
            return None;
        }
    }
    <[u8; 32] as FromHex>::from_hex(text).ok()
}

/// Returns the root digest of `--root`.
pub fn root_in(matches: &ArgMatches<'_>) -> Option<[u8; 32]>
    ensures { result ≡ root_given (given_in matches.now) }
{
    digest(value(matches, "root")?)
}
