//! What is written for a command that was answered: the text of its reply, and the frame of its query's log.
#![tactic(auto)]

ghost use Rattle.std.specs.Prelude.{◌≡◌, ◌≤◌, ◌⊎◌, ◌++◌, true, IfOk, OnOk, OnErr, MatchOption};
ghost use Rattle.std.specs.Io.KnownBytes.{Appends};
ghost use Rattle.outside_io.specs.Causes.{Rose};
ghost use Rattle.outside_io.specs.Memory.{next_count};
ghost use Rattle.rows_text.specs.Meaning.{TagsAre};
ghost use Rattle.rows_text.specs.Texts.{text};
ghost use Rattle.log_model.specs.Grammar.{IsValidLog};
ghost use Rattle.answer_texts.specs.Answered.{framed, if_any};
ghost use Rattle.answer_texts.specs.Put.{IsCut};

use log_model::Log;
use outside_io::{Failed, Sink};
use prune_log::{encode_log, frame};
use rows_text::{Reply, reply_text};
use std::alloc::{AllocError, Global};

/// What is written for a command: the text of its reply, and the frame of its log, which is empty where there is none.
#[derive(Drop)]
pub struct Texts {
    reply: Vec<u8>,
    frame: Vec<u8>,
}

/// Adds what is written for a command with the reply `reply` and the log `log`: the text of the reply to `replies`, and the frame
/// of the log, if there is one, to `frames`. A hit is written with its tag where `show` is set.
pub fn add_texts(
    alloc: Global,
    reply: &Reply,
    log: &Option<Log>,
    show: bool,
    replies: &mut Vec<u8>,
    frames: &mut Vec<u8>,
) -> Result<(), AllocError>
    requires spelled { MatchOption log.now (Unit {0}) IsValidLog }
    requires tagged { show ≡ true → TagsAre reply.now }
    ensures reply { OnOk result (replies.new.items ≡ replies.old.items ++ text show reply.now) }
    ensures frame { OnOk result (frames.new.items ≡ frames.old.items ++ framed (if_any log.now)) }
{
    reply_text(reply, show, replies)?;
    if let Some(log) = log {
        let bytes = encode_log(alloc, log)?;
        frame(&bytes, frames)?;
    }
    Ok(())
}

/// Returns what is written for a command with the reply `reply` and the log `log`. A hit is written with its tag where `show` is set.
pub fn texts_of(
    alloc: Global,
    reply: &Reply,
    log: &Option<Log>,
    show: bool,
) -> Result<Texts, AllocError>
    requires spelled { MatchOption log.now (Unit {0}) IsValidLog }
    requires tagged { show ≡ true → TagsAre reply.now }
    ensures reply { IfOk result (λ texts. texts.reply.items ≡ text show reply.now) }
    ensures frame { IfOk result (λ texts. texts.frame.items ≡ framed (if_any log.now)) }
{
    let mut texts = Texts {
        reply: Vec::new(alloc),
        frame: Vec::new(alloc),
    };
    add_texts(alloc, reply, log, show, &mut texts.reply, &mut texts.frame)?;
    Ok(texts)
}

/// Puts the frame of a log to `log_out`, if there is one, and then the text of a reply to `out`, each in one put. So a reply
/// is never there without its log.
pub fn put_texts<K: Sink, T: Sink>(
    reply: &[u8],
    frame: &[u8],
    out: &mut K,
    log_out: &mut T,
) -> Result<(), Failed>
    ensures reply { OnOk result (Appends (K.state out.old).written (K.state out.new).written reply.now) }
    ensures frame { OnOk result (Appends (T.state log_out.old).written (T.state log_out.new).written frame.now) }
    ensures cut { OnErr result (IsCut (K.state out.old) (K.state out.new) (T.state log_out.old) (T.state log_out.new) reply.now frame.now) }
    ensures rose { OnErr result (Rose (K.state out.old).faults (K.state out.new).faults
        ⊎ Rose (T.state log_out.old).faults (T.state log_out.new).faults) }
    // A reply goes out whole in one put, so a reader of a pipe never sees a part of it.
    ensures one_put { OnOk result (K.puts out.new ≡ next_count (K.puts out.old)) }
    ensures later { (K.state out.old).faults ≤ (K.state out.new).faults }
    ensures log_later { (T.state log_out.old).faults ≤ (T.state log_out.new).faults }
{
    if !frame.is_empty() {
        log_out.put(frame)?;
    }
    out.put(reply)
}

impl Texts {
    /// Puts the reply and the frame as `put_texts` does.
    pub fn put<K: Sink, T: Sink>(&self, out: &mut K, log_out: &mut T) -> Result<(), Failed>
        ensures reply { OnOk result (Appends (K.state out.old).written (K.state out.new).written self.now.reply.items) }
        ensures frame { OnOk result (Appends (T.state log_out.old).written (T.state log_out.new).written self.now.frame.items) }
        ensures cut { OnErr result (IsCut (K.state out.old) (K.state out.new) (T.state log_out.old) (T.state log_out.new)
            self.now.reply.items self.now.frame.items) }
        ensures rose { OnErr result (Rose (K.state out.old).faults (K.state out.new).faults
            ⊎ Rose (T.state log_out.old).faults (T.state log_out.new).faults) }
        ensures one_put { OnOk result (K.puts out.new ≡ next_count (K.puts out.old)) }
        ensures later { (K.state out.old).faults ≤ (K.state out.new).faults }
        ensures log_later { (T.state log_out.old).faults ≤ (T.state log_out.new).faults }
    {
        put_texts(&self.reply, &self.frame, out, log_out)
    }
}
