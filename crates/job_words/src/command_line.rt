ghost use Rattle.std.specs.Prelude.{◌≡◌, IfOk, map};
ghost use Rattle.clap.specs.Words.{app_of, with_rule};
ghost use Rattle.job_words.specs.Words.{option_rule, with_options, command_line};

use clap::{Arg, Command};
use std::alloc::{AllocError, Global};

// Adds an option with one value to a command.
fn with_option<'a>(
    alloc: Global,
    command: Command<'a>,
    name: &'a str,
) -> Result<Command<'a>, AllocError>
    ensures { IfOk result (λ c. app_of c ≡ with_rule (app_of command.entry) (option_rule name.entry.now)) }
{
    command.arg(Arg::new(alloc, name).long(name))
}

// Adds options with one value each to a command.
fn with_options<'a>(
    alloc: Global,
    command: Command<'a>,
    names: &[&'a str],
) -> Result<Command<'a>, AllocError>
    ensures { IfOk result (λ c. app_of c ≡ with_options (app_of command.entry) (map (λ s. s.now) names.entry.now)) }
{
    let mut command = command;
    for name in names {
        command = with_option(alloc, command, name)?;
    }
    Ok(command)
}

pub const OPTIONS: [&str; 15] = [
    "metric", "dim", "max", "tags", "promote", "split", "log", "workers", "other", "radius",
    "count", "seed", "proof", "root", "marks",
];

/// Returns the command line as `clap` reads it.
pub fn command_line<'a>(alloc: Global) -> Result<Command<'a>, AllocError>
    ensures { IfOk result (λ c. app_of c ≡ command_line) }
{
    let command = Command::new(alloc, "mtree")
        .no_binary_name(true)
        .disable_help_flag(true)
        .arg(Arg::new(alloc, "COMMAND"))?
        .arg(Arg::new(alloc, "INDEX"))?;
    with_options(alloc, command, &OPTIONS)
}
