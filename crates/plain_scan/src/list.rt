ghost use Rattle.std.specs.Prelude.{◌≡◌, ◌≤◌, ◌<◌, ◌+◌, ◌-◌, ◌^◌, length, IfOk, OnErr, IsTrue, All};
ghost use Rattle.rows_text.specs.Meaning.{nothing_yet, insert_step, load_step, hits_reply, tags_of, cursor_step, execute, step, has_points_of, numbers_from, TagsAre};
ghost use Rattle.rows_text.specs.Readable.{IsReadable};
ghost use Rattle.scan_model.specs.Scan.{nearest_hits};
ghost use Rattle.plain_scan.specs.List.{state_of, IsListOf};

use crate::cursors::Cursors;
use crate::points::has_points_of;
use metric_laws::{Listed, Metric, Point, Rows};
use rows_text::{Command, Refusal, Reply};
use scan_model::{Hit, scan_nearest, scan_range};
use std::alloc::{AllocError, Global};

/// The objects accepted so far, and the open cursors.
#[derive(Drop)]
pub struct PlainList {
    rows: Rows,
    tags: Vec<u64>,
    cursors: Cursors,
}

// Returns the tags of objects with their ids as tags.
fn ids(alloc: Global, count: usize) -> Result<Vec<u64>, AllocError>
    ensures ids { IfOk result (λ ids. ids.items ≡ numbers_from 0 count) }
    ensures count { IfOk result (λ ids. length ids.items ≡ count) }
{
    let mut ids = Vec::new(alloc);
    for id in 0..count as u64 {
        ids.push(id)?;
    }
    Ok(ids)
}

impl PlainList {
    /// Makes an empty list of points of `dimension` coordinates.
    pub fn new(alloc: Global, dimension: usize) -> Self
        ensures state { state_of result ≡ nothing_yet }
        ensures dimension { result.rows.dimension ≡ dimension }
    {
        PlainList {
            rows: Rows::new(alloc, dimension),
            tags: Vec::new(alloc),
            cursors: Cursors::new(alloc),
        }
    }

    // Adds one object.
    fn insert(&mut self, limit: u32, p: &[u32], tag: u64) -> Result<Reply, AllocError>
        requires dimension { length p.now ≡ self.old.rows.dimension }
        requires limit { length self.old.rows.points ≤ limit }
        ensures ok { IfOk result (λ reply. insert_step limit (state_of self.old) p.now tag
            ≡ record { reply = reply; state = state_of self.new }) }
        ensures tagged { IfOk result TagsAre }
        ensures err { OnErr result (state_of self.new ≡ state_of self.old) }
        ensures dimension { self.new.rows.dimension ≡ self.old.rows.dimension }
    {
        let id = self.rows.len();
        if id >= limit as usize {
            return Ok(Reply::Refused(Refusal::Full));
        }
        self.tags.reserve(1)?;
        self.rows.push(p)?;
        self.tags.push_reserved(tag);
        Ok(Reply::Id(id as u32))
    }

    // Fills the empty list.
    fn load(&mut self, limit: u32, rows: Rows, tags: Vec<u64>) -> Reply
        requires { rows.dimension ≡ self.old.rows.dimension }
        ensures step { load_step limit (state_of self.old) rows.points tags.items ≡ record { reply = result; state = state_of self.new } }
        ensures tagged { TagsAre result }
        ensures dimension { self.new.rows.dimension ≡ self.old.rows.dimension }
    {
        if !self.rows.is_empty() {
            return Reply::Refused(Refusal::NotEmpty);
        }
        let count = rows.len();
        if count > limit as usize {
            return Reply::Refused(Refusal::Full);
        }
        self.rows = rows;
        self.tags = tags;
        Reply::Loaded(count as u32)
    }

    // Returns the tag of each hit.
    fn tags_of(&self, alloc: Global, hits: &[Hit]) -> Result<Vec<u64>, AllocError>
        ensures { IfOk result (λ tags. tags.items ≡ tags_of (state_of self.now).objects hits.now) }
    {
        let mut tags = Vec::new(alloc);
        for hit in hits {
            tags.push(self.tags.get(hit.id as usize).copied().unwrap_or(0))?;
        }
        Ok(tags)
    }

    fn hits_reply(&self, alloc: Global, hits: Vec<Hit>) -> Result<Reply, AllocError>
        ensures reply { IfOk result (λ reply. reply ≡ hits_reply (state_of self.now).objects hits.items) }
        ensures tagged { IfOk result TagsAre }
    {
        let tags = self.tags_of(alloc, &hits)?;
        Ok(Reply::Hits {
            hits: Listed::new(hits),
            tags: Listed::new(tags),
        })
    }

    // Opens a cursor over all objects.
    // Clauses: what is asked of the caller (`few`, `points`, `query`, `numbers`); the answer and the new state (`ok`, `tagged`); what stays
    // (`rows`, `tags`); what an error leaves (`err`).
    fn open<M: Metric>(&mut self, alloc: Global, metric: &M, q: &[u32]) -> Result<Reply, AllocError>
        requires few { length self.old.rows.points < 2 ^ 32 }
        requires points { All (λ p. IsTrue ((M.space metric.now).is_point p)) self.old.rows.points }
        requires query { IsTrue ((M.space metric.now).is_point q.now) }
        requires numbers { self.old.cursors.next + 1 < 2 ^ 32 }
        ensures ok { IfOk result (λ reply. cursor_step (M.space metric.now) (state_of self.old) q.now
            ≡ record { reply = reply; state = state_of self.new }) }
        ensures tagged { IfOk result TagsAre }
        ensures err { OnErr result (state_of self.new ≡ state_of self.old) }
        ensures rows { self.new.rows ≡ self.old.rows }
        ensures tags { self.new.tags ≡ self.old.tags }
    {
        if self.cursors.is_full() {
            return Ok(Reply::Refused(Refusal::Cursors));
        }
        let hits = scan_nearest(alloc, metric, &self.rows, q, self.rows.len() as u64)?;
        let tags = self.tags_of(alloc, &hits)?;
        Ok(Reply::Cursor(self.cursors.open(hits, tags)?))
    }

    // Carries out a command, where its points are points of the space.
    // Clauses: what is asked of the caller (`list`, `limit`, `numbers`, `readable`, `points`); the answer and the new state (`ok`,
    // `tagged`); what stays (`list`); the numbers that cursors take (`numbers`); what an error leaves (`err`).
    fn execute<M: Metric>(
        &mut self,
        alloc: Global,
        metric: &M,
        limit: u32,
        command: Command,
    ) -> Result<Reply, AllocError>
        requires list { IsListOf (M.space metric.now) limit self.old }
        requires limit { limit < 2 ^ 32 - 1 }
        requires numbers { self.old.cursors.next + 1 < 2 ^ 32 }
        requires readable { IsReadable (M.space metric.now).dimension command }
        requires points { IsTrue (has_points_of (M.space metric.now) command) }
        ensures ok { IfOk result (λ reply.
            execute (record { space = M.space metric.now; limit = limit }) (state_of self.old) command ≡ record {
              reply = reply;
              state = state_of self.new;
            }) }
        ensures tagged { IfOk result TagsAre }
        ensures err { OnErr result (state_of self.new ≡ state_of self.old) }
        ensures list { IsListOf (M.space metric.now) limit self.new }
        ensures numbers { self.new.cursors.next ≤ self.old.cursors.next + 1 }
    {
        match command {
            Command::Insert(p) => {
                let id = self.rows.len() as u64;
                self.insert(limit, p.as_slice(), id)
            }
            Command::TagInsert { tag, p } => self.insert(limit, p.as_slice(), tag),
            Command::Load(rows) => {
                let tags = ids(alloc, rows.len())?;
                Ok(self.load(limit, rows, tags))
            }
            Command::TagLoad { tags, rows } => Ok(self.load(limit, rows, tags.into_vec())),
            Command::Range { r, q } => {
                let hits = scan_range(alloc, metric, &self.rows, q.as_slice(), r)?;
                self.hits_reply(alloc, hits)
            }
            Command::Nearest { k, q } => {
                let hits = scan_nearest(alloc, metric, &self.rows, q.as_slice(), k)?;
                self.hits_reply(alloc, hits)
            }
            Command::Count => Ok(Reply::Count(self.rows.len() as u32)),
            Command::Bad(why) => Ok(Reply::Refused(why)),
            Command::Cursor(q) => self.open(alloc, metric, q.as_slice()),
            Command::Next { cursor, n } => self.cursors.advance(alloc, cursor, n),
            Command::Close(cursor) => Ok(self.cursors.close(cursor)),
        }
    }

    /// Carries out a command, under a limit on the number of objects. When memory runs out the list is as before.
    /// Clauses: what is asked of the caller (`list`, `limit`, `numbers`, `readable`); the answer and the new state (`ok`, `tagged`); what
    /// stays (`list`); the numbers that cursors take (`numbers`); what an error leaves (`err`).
    pub fn step<M: Metric>(
        &mut self,
        alloc: Global,
        metric: &M,
        limit: u32,
        command: Command,
    ) -> Result<Reply, AllocError>
        requires list { IsListOf (M.space metric.now) limit self.old }
        requires limit { limit < 2 ^ 32 - 1 }
        requires numbers { self.old.cursors.next + 1 < 2 ^ 32 }
        requires readable { IsReadable (M.space metric.now).dimension command }
        ensures ok { IfOk result (λ reply. step (record { space = M.space metric.now; limit = limit }) (state_of self.old) command
            ≡ record { reply = reply; state = state_of self.new }) }
        ensures tagged { IfOk result TagsAre }
        ensures err { OnErr result (state_of self.new ≡ state_of self.old) }
        ensures list { IsListOf (M.space metric.now) limit self.new }
        ensures numbers { self.new.cursors.next ≤ self.old.cursors.next + 1 }
    {
        if !has_points_of(metric, &command) {
            return Ok(Reply::Refused(Refusal::Unfit));
        }
        self.execute(alloc, metric, limit, command)
    }
}
