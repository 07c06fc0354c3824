//! Scripts and replies: their text, and what each command does to a list of objects.
#![tactic(auto)]

mod command;
mod field;
pub mod laws;
mod load;
mod numbers;
mod points;
mod reading;
mod refusal;
mod reply;
mod script;
mod single;
mod state;
mod text;

pub use command::Command;
pub use numbers::number;
pub use refusal::Refusal;
pub use reply::Reply;
pub use script::read_script;
pub use text::{query_text, reply_text};
