ghost use Rattle.std.specs.Prelude.{◌≡◌, ◌<◌, ◌+◌, ◌^◌, ◌==◌, [], length, map, find, not, nat_lt, option_map, IfOk, OnOk, OnErr};
ghost use Rattle.rows_text.specs.Meaning.{Holdings, TagsAre, advanced, close_from, cursor_named, most_cursors, next_from};
ghost use Rattle.plain_scan.specs.OpenCursors.{opened, with_cursors};

use crate::cursor::OpenCursor;
use metric_laws::Listed;
use rows_text::{Refusal, Reply};
use scan_model::Hit;
use std::alloc::{AllocError, Global};
use std::marker::Model;

const MOST_CURSORS: usize = 16;

/// The open cursors of a session, and the number of the next.
#[derive(Drop)]
pub struct Cursors {
    open: Vec<OpenCursor>,
    next: u32,
}

impl Model for Cursors {
    ghost use Rattle.plain_scan.specs.OpenCursors.{OpenCursors};

    ghost Value = { OpenCursors };

    ghost view = { λ c. record { cursors = c.open.items; next = c.next } };
}

// Drops the next `n` hits of cursor `number`.
fn advance_cursors(cursors: &mut [OpenCursor], number: u32, n: u64)
    ensures { cursors.new ≡ map (advanced number n) cursors.old }
{
    for cursor in cursors.iter_mut() {
        cursor.advance(number, n);
    }
}

impl Cursors {
    /// Makes no open cursors; the first will have the number 0.
    pub fn new(alloc: Global) -> Self
        ensures { result ≡ record { cursors = []; next = 0 } }
    {
        Cursors {
            open: Vec::new(alloc),
            next: 0,
        }
    }

    /// Returns whether as many cursors are open as may be.
    pub fn is_full(&self) -> bool
        ensures { result ≡ not (nat_lt (length self.now.cursors) most_cursors) }
    {
        self.open.len() >= MOST_CURSORS
    }

    /// Opens a cursor with all of `hits` still to give, and returns its number.
    pub fn open(&mut self, hits: Vec<Hit>, tags: Vec<u64>) -> Result<u32, AllocError>
        requires tagged { length tags.items ≡ length hits.items }
        requires numbers { self.old.next + 1 < 2 ^ 32 }
        ensures number { IfOk result (λ number. number ≡ self.old.next) }
        ensures ok { OnOk result (self.new ≡ opened self.old hits.items tags.items) }
        ensures err { OnErr result (self.new ≡ self.old) }
    {
        let number = self.next;
        self.open.reserve(1)?;
        self.open.push_reserved(OpenCursor::new(number, hits, tags));
        self.next = number + 1;
        Ok(number)
    }

    // Returns the open cursor `number`.
    fn cursor_named(&self, number: u32) -> Option<&OpenCursor>
        ensures { option_map (λ c. c.now) result ≡ find (λ c. c.number == number) self.now.cursors }
    {
        self.open.iter().find(|cursor| cursor.number() == number)
    }

    /// Returns the next `n` hits of cursor `number`, or all that are left.
    pub fn advance(&mut self, alloc: Global, number: u32, n: u64) -> Result<Reply, AllocError>
        ensures ok { (objects : Holdings) →
            IfOk result (λ reply. next_from (with_cursors objects self.old) number n
            (cursor_named number (with_cursors objects self.old)) ≡ record {
              reply = reply;
              state = with_cursors objects self.new;
            }) }
        ensures tagged { IfOk result TagsAre }
        ensures next { self.new.next ≡ self.old.next }
        ensures err { OnErr result (self.new ≡ self.old) }
    {
        let Some(cursor) = self.cursor_named(number) else {
            return Ok(Reply::Refused(Refusal::NoCursor));
        };
        let hits = cursor.next_hits(alloc, n)?;
        let tags = cursor.next_tags(alloc, n)?;
        advance_cursors(&mut self.open, number, n);
        Ok(Reply::Next {
            hits: Listed::new(hits),
            tags: Listed::new(tags),
        })
    }

    /// Closes cursor `number`.
    pub fn close(&mut self, number: u32) -> Reply
        ensures step { (objects : Holdings) →
            close_from (with_cursors objects self.old) number (cursor_named number (with_cursors objects self.old))
            ≡ record { reply = result; state = with_cursors objects self.new } }
        ensures tagged { TagsAre result }
        ensures next { self.new.next ≡ self.old.next }
    {
        if self.cursor_named(number).is_none() {
            return Reply::Refused(Refusal::NoCursor);
        }
        self.open.retain(|cursor| cursor.number() != number);
        Reply::Closed(number)
    }
}
