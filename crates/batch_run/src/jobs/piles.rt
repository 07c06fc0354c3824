//! What is to be put for commands, text upon text.

ghost use Rattle.std.specs.Prelude.{◌≡◌, [], IfOk, OnOk};
ghost use Rattle.image_answers.specs.Outcomes.{CanBeShown};
ghost use Rattle.batch_run.specs.Jobs.Preparing.{HasMore, IsShown, LiesIn};

use answer_texts::add_texts;
use image_answers::Outcome;
use page_store::PageFault;
use std::alloc::{AllocError, Global};

/// What is to be put for one command.
#[derive(Clone, Copy)]
pub enum Prepared<'a> {
    /// The text of its reply, and the frame of its log, which is empty where there is none.
    Said { reply: &'a [u8], frame: &'a [u8] },

    /// Nothing: the search of its query met the damaged page.
    Damaged(PageFault),
}

/// A stretch of bytes, from one place up to another.
#[derive(Clone, Copy)]
pub struct Span {
    pub from: usize,
    pub to: usize,
}

/// Where a pile has what is to be put for one command.
#[derive(Clone, Copy)]
pub enum Mark {
    /// Where the text of its reply stands, and where the frame of its log does.
    Said { reply: Span, frame: Span },

    /// Nowhere: the search of its query met the damaged page.
    Damaged(PageFault),
}

// The bytes of replies, and of frames, that a pile has room for from the start. The system gives memory where it is filled, so
// room that stays empty costs none. But a list of this size that grows is moved, and no other thread gets memory meanwhile.
const ROOM: usize = 1 << 22;

/// What is to be put for several commands: the texts of all their replies in one list, and the frames of all their logs in
/// another. So memory is asked for seldom, whatever the number of commands.
#[derive(Drop)]
pub struct Pile {
    replies: Vec<u8>,
    frames: Vec<u8>,
    /// One mark for each command, in their order.
    pub marks: Vec<Mark>,
}

impl Pile {
    /// Makes a pile for no commands.
    pub fn new(alloc: Global) -> Result<Self, AllocError>
        ensures { IfOk result (λ pile. pile.marks.items ≡ []) }
    {
        Ok(Pile {
            replies: Vec::with_capacity(alloc, ROOM)?,
            frames: Vec::with_capacity(alloc, ROOM)?,
            marks: Vec::new(alloc),
        })
    }

    /// Adds what is to be put for one more command, with the outcome `outcome`. A hit is written with its tag where `show` is set.
    pub fn add(&mut self, alloc: Global, outcome: &Outcome, show: bool) -> Result<(), AllocError>
        requires { CanBeShown show outcome.now }
        ensures { OnOk result (HasMore show outcome.now self.old self.new) }
    {
        let mark = match outcome {
            Outcome::Done { reply, log } => {
                let reply_start = self.replies.len();
                let frame_start = self.frames.len();
                add_texts(alloc, reply, log, show, &mut self.replies, &mut self.frames)?;
                Mark::Said {
                    reply: Span {
                        from: reply_start,
                        to: self.replies.len(),
                    },
                    frame: Span {
                        from: frame_start,
                        to: self.frames.len(),
                    },
                }
            }
            Outcome::Damaged(fault) => Mark::Damaged(*fault),
        };
        self.marks.push(mark)?;
        Ok(())
    }

    /// Returns what is to be put for the command with the mark `mark`.
    pub fn at(&self, mark: Mark) -> Prepared<'_>
        requires { LiesIn self.now mark }
        ensures { IsShown self.now mark result }
    {
        match mark {
            Mark::Said { reply, frame } => Prepared::Said {
                reply: &self.replies[reply.from..reply.to],
                frame: &self.frames[frame.from..frame.to],
            },
            Mark::Damaged(fault) => Prepared::Damaged(fault),
        }
    }
}
