ghost use Rattle.std.specs.Prelude.{◌≡◌, ◌++◌, true, decimal, flat_map, length, OnOk, OnErr};
ghost use Rattle.rows_text.specs.Meaning.{TagsAre};
ghost use Rattle.rows_text.specs.Texts.{KeepsFront, counted, hit_line, hit_lines, tagged_line, tagged_lines, pair_line, reason, text, coordinate_text, coordinates_text, query_line};

use crate::{Refusal, Reply};
use itoa::Buffer;
use scan_model::{Hit, Pair, Query};
use std::alloc::AllocError;

fn push_number(n: u64, out: &mut Vec<u8>) -> Result<(), AllocError>
    ensures ok { OnOk result (out.new.items ≡ out.old.items ++ decimal n) }
    ensures err { KeepsFront out.old.items out.new.items }
{
    let mut buffer = Buffer::new();
    out.extend_from_slice(buffer.format(n).as_bytes())
}

// Appends `WORD N`, where `word` ends with its blank.
fn push_counted(word: &[u8], n: u64, out: &mut Vec<u8>) -> Result<(), AllocError>
    ensures ok { OnOk result (out.new.items ≡ out.old.items ++ counted word.now n) }
    ensures err { KeepsFront out.old.items out.new.items }
{
    out.extend_from_slice(word)?;
    push_number(n, out)?;
    out.extend_from_slice(b"\n")
}

fn push_hit(hit: &Hit, out: &mut Vec<u8>) -> Result<(), AllocError>
    ensures ok { OnOk result (out.new.items ≡ out.old.items ++ hit_line hit.now) }
    ensures err { KeepsFront out.old.items out.new.items }
{
    push_number(u64::from(hit.id), out)?;
    push_counted(b" ", hit.dist, out)
}

#[tactic(auto, using(crate::proofs::Kept::keeps_longer))]
fn push_hits(hits: &[Hit], out: &mut Vec<u8>) -> Result<(), AllocError>
    ensures ok { OnOk result (out.new.items ≡ out.old.items ++ flat_map hit_line hits.now) }
    ensures err { KeepsFront out.old.items out.new.items }
{
    for hit in hits {
        push_hit(hit, out)?;
    }
    Ok(())
}

fn push_tagged_hit(hit: &Hit, tag: u64, out: &mut Vec<u8>) -> Result<(), AllocError>
    ensures ok { OnOk result (out.new.items ≡ out.old.items ++ tagged_line hit.now tag) }
    ensures err { KeepsFront out.old.items out.new.items }
{
    push_number(u64::from(hit.id), out)?;
    out.extend_from_slice(b" ")?;
    push_number(tag, out)?;
    push_counted(b" ", hit.dist, out)
}

#[tactic(auto, using(crate::proofs::Kept::keeps_within, crate::proofs::Kept::tagged_step))]
fn push_tagged(hits: &[Hit], tags: &[u64], out: &mut Vec<u8>) -> Result<(), AllocError>
    requires { length tags.now ≡ length hits.now }
    ensures ok { OnOk result (out.new.items ≡ out.old.items ++ tagged_lines hits.now tags.now) }
    ensures err { KeepsFront out.old.items out.new.items }
{
    for i in 0..hits.len() {
        push_tagged_hit(&hits[i], tags[i], out)?;
    }
    Ok(())
}

// Appends `WORD N` and a line for each of the N hits.
fn push_hit_lines(
    word: &[u8],
    hits: &[Hit],
    tags: &[u64],
    show: bool,
    out: &mut Vec<u8>,
) -> Result<(), AllocError>
    requires { show ≡ true → length tags.now ≡ length hits.now }
    ensures ok { OnOk result (out.new.items ≡ out.old.items ++ counted word.now (length hits.now) ++ hit_lines show hits.now tags.now) }
    ensures err { KeepsFront out.old.items out.new.items }
{
    push_counted(word, hits.len() as u64, out)?;
    if show {
        push_tagged(hits, tags, out)
    } else {
        push_hits(hits, out)
    }
}

fn push_pair(pair: &Pair, out: &mut Vec<u8>) -> Result<(), AllocError>
    ensures ok { OnOk result (out.new.items ≡ out.old.items ++ pair_line pair.now) }
    ensures err { KeepsFront out.old.items out.new.items }
{
    push_number(u64::from(pair.left), out)?;
    out.extend_from_slice(b" ")?;
    push_number(u64::from(pair.right), out)?;
    push_counted(b" ", pair.dist, out)
}

#[tactic(auto, using(crate::proofs::Kept::keeps_longer))]
fn push_pairs(pairs: &[Pair], out: &mut Vec<u8>) -> Result<(), AllocError>
    ensures ok { OnOk result (out.new.items ≡ out.old.items ++ flat_map pair_line pairs.now) }
    ensures err { KeepsFront out.old.items out.new.items }
{
    for pair in pairs {
        push_pair(pair, out)?;
    }
    Ok(())
}

fn push_reason(why: Refusal, out: &mut Vec<u8>) -> Result<(), AllocError>
    ensures ok { OnOk result (out.new.items ≡ out.old.items ++ reason why) }
    ensures err { KeepsFront out.old.items out.new.items }
{
    let word: &[u8] = match why {
        Refusal::Command => b"command",
        Refusal::Dimension => b"dimension",
        Refusal::Number => b"number",
        Refusal::Count => b"count",
        Refusal::Short => b"short",
        Refusal::Row(i) => {
            out.extend_from_slice(b"row ")?;
            return push_number(u64::from(i), out);
        }
        Refusal::NotEmpty => b"notempty",
        Refusal::Full => b"full",
        Refusal::Worn => b"worn",
        Refusal::NoRoom => b"noroom",
        Refusal::ReadOnly => b"readonly",
        Refusal::NoCursor => b"nocursor",
        Refusal::Cursors => b"cursors",
        Refusal::Unfit => b"unfit",
    };
    out.extend_from_slice(word)
}

fn push_refused(why: Refusal, out: &mut Vec<u8>) -> Result<(), AllocError>
    ensures ok { OnOk result (out.new.items ≡ out.old.items ++ text true (Reply.Refused why)) }
    ensures err { KeepsFront out.old.items out.new.items }
{
    out.extend_from_slice(b"refused ")?;
    push_reason(why, out)?;
    out.extend_from_slice(b"\n")
}

fn push_reply(reply: &Reply, show: bool, out: &mut Vec<u8>) -> Result<(), AllocError>
    requires { show ≡ true → TagsAre reply.now }
    ensures ok { OnOk result (out.new.items ≡ out.old.items ++ text show reply.now) }
    ensures err { KeepsFront out.old.items out.new.items }
{
    match reply {
        Reply::Id(id) => push_counted(b"id ", u64::from(*id), out),
        Reply::Loaded(count) => push_counted(b"loaded ", u64::from(*count), out),
        Reply::Hits { hits, tags } => push_hit_lines(
            b"hits ",
            hits.as_slice(),
            tags.as_slice(),
            show,
            out,
        ),
        Reply::Pairs(pairs) => {
            let pairs = pairs.as_slice();
            push_counted(b"pairs ", pairs.len() as u64, out)?;
            push_pairs(pairs, out)
        }
        Reply::Count(count) => push_counted(b"count ", u64::from(*count), out),
        Reply::Refused(why) => push_refused(*why, out),
        Reply::Cursor(number) => push_counted(b"cursor ", u64::from(*number), out),
        Reply::Next { hits, tags } => push_hit_lines(
            b"next ",
            hits.as_slice(),
            tags.as_slice(),
            show,
            out,
        ),
        Reply::Closed(number) => push_counted(b"closed ", u64::from(*number), out),
    }
}

/// Appends the lines of a reply: a hit is `ID DIST`, or `ID TAG DIST` where tags are shown. When memory runs out, `out` is
/// as before.
pub fn reply_text(reply: &Reply, show: bool, out: &mut Vec<u8>) -> Result<(), AllocError>
    requires { show ≡ true → TagsAre reply.now }
    ensures ok { OnOk result (out.new.items ≡ out.old.items ++ text show reply.now) }
    ensures err { OnErr result (out.new.items ≡ out.old.items) }
{
    let start = out.len();
    let result = push_reply(reply, show, out);
    if result.is_err() {
        out.truncate(start);
    }
    result
}

fn push_coordinate(x: u32, out: &mut Vec<u8>) -> Result<(), AllocError>
    ensures ok { OnOk result (out.new.items ≡ out.old.items ++ coordinate_text x) }
    ensures err { KeepsFront out.old.items out.new.items }
{
    out.extend_from_slice(b",")?;
    push_number(u64::from(x), out)
}

#[tactic(auto, using(crate::proofs::Kept::keeps_longer))]
fn push_coordinates(point: &[u32], out: &mut Vec<u8>) -> Result<(), AllocError>
    ensures ok { OnOk result (out.new.items ≡ out.old.items ++ coordinates_text point.now) }
    ensures err { KeepsFront out.old.items out.new.items }
{
    for x in point {
        push_coordinate(*x, out)?;
    }
    Ok(())
}

fn push_query(query: &Query, out: &mut Vec<u8>) -> Result<(), AllocError>
    ensures ok { OnOk result (out.new.items ≡ out.old.items ++ query_line query.now) }
    ensures err { KeepsFront out.old.items out.new.items }
{
    match query {
        Query::Range { q, r } => {
            out.extend_from_slice(b"range,")?;
            push_number(*r, out)?;
            push_coordinates(q.as_slice(), out)?;
        }
        Query::Nearest { q, k } => {
            out.extend_from_slice(b"nearest,")?;
            push_number(*k, out)?;
            push_coordinates(q.as_slice(), out)?;
        }
    }
    out.extend_from_slice(b"\n")
}

/// Appends the line of a query, as a script has it. When memory runs out, `out` is as before.
pub fn query_text(query: &Query, out: &mut Vec<u8>) -> Result<(), AllocError>
    ensures ok { OnOk result (out.new.items ≡ out.old.items ++ query_line query.now) }
    ensures err { OnErr result (out.new.items ≡ out.old.items) }
{
    let start = out.len();
    let result = push_query(query, out);
    if result.is_err() {
        out.truncate(start);
    }
    result
}
