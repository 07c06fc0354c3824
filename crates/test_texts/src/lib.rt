//! Tests of words and texts: the command line, scripts, plain lists and answers.
#![tactic(auto)]

#[cfg(test)]
mod answers;
#[cfg(test)]
mod commands;
#[cfg(test)]
mod joins;
#[cfg(test)]
mod texts;
#[cfg(test)]
mod words;
