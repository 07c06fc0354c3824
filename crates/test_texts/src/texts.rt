use crate::words::holds;
use metric_laws::{Listed, Point};
use rows_text::{Refusal, Reply, query_text, reply_text};
use scan_model::{Hit, Pair, Query};
use std::process::Abort;

// Lists the hits that a reply tells of.
const HITS: [Hit; 2] = [
    Hit { id: 3, dist: 0 },
    Hit {
        id: 4294967295,
        dist: 274877906944,
    },
];

// Lists their tags.
const TAGS: [u64; 2] = [18446744073709551615, 0];

// Lists the pair that a reply tells of.
const PAIRS: [Pair; 1] = [Pair {
    left: 1,
    right: 0,
    dist: 1,
}];

// Gives the hits as they stand in a reply.
fn hits(rt: &(impl AllocGlobal + Abort)) -> Listed<Hit> {
    Listed::new(HITS.to_vec(rt.alloc()).expect(rt, "memory"))
}

// Gives the tags as they stand in a reply.
fn tags(rt: &(impl AllocGlobal + Abort)) -> Listed<u64> {
    Listed::new(TAGS.to_vec(rt.alloc()).expect(rt, "memory"))
}

// Makes a reply of hits.
fn hits_reply(rt: &(impl AllocGlobal + Abort)) -> Reply {
    Reply::Hits {
        hits: hits(rt),
        tags: tags(rt),
    }
}

// Makes a reply of the next hits.
fn next_reply(rt: &(impl AllocGlobal + Abort)) -> Reply {
    Reply::Next {
        hits: hits(rt),
        tags: tags(rt),
    }
}

// Makes a reply of pairs.
fn pairs_reply(rt: &(impl AllocGlobal + Abort)) -> Reply {
    Reply::Pairs(Listed::new(PAIRS.to_vec(rt.alloc()).expect(rt, "memory")))
}

// Checks the text of a reply, where tags are hidden.
fn check_reply(rt: &(impl AllocGlobal + Abort), reply: &Reply, text: &str) {
    let mut out = Vec::new(rt.alloc());
    reply_text(reply, false, &mut out).expect(rt, "memory");
    assert!(rt; out.as_slice() == text.as_bytes(), "{text}");
}

#[test]
fn replies_are_written(rt: HostRuntime) {
    check_reply(&rt, &Reply::Id(7), "id 7\n");
    check_reply(&rt, &Reply::Loaded(4), "loaded 4\n");
    check_reply(
        &rt,
        &hits_reply(&rt),
        "hits 2\n3 0\n4294967295 274877906944\n",
    );
    check_reply(
        &rt,
        &next_reply(&rt),
        "next 2\n3 0\n4294967295 274877906944\n",
    );
    check_reply(&rt, &pairs_reply(&rt), "pairs 1\n1 0 1\n");
    check_reply(&rt, &Reply::Count(0), "count 0\n");
    check_reply(&rt, &Reply::Cursor(2), "cursor 2\n");
    check_reply(&rt, &Reply::Closed(2), "closed 2\n");
    check_reply(&rt, &Reply::Refused(Refusal::Row(12)), "refused row 12\n");
}

// Gives the text of hits with their tags.
fn text_with_tags(rt: &(impl AllocGlobal + Abort)) -> Vec<u8> {
    let hits = hits(rt);
    let tags = tags(rt);
    assert!(rt; tags.as_slice().len() == hits.as_slice().len());
    let mut out = Vec::new(rt.alloc());
    reply_text(&Reply::Hits { hits, tags }, true, &mut out).expect(rt, "memory");
    out
}

#[test]
fn tags_are_shown(rt: HostRuntime) {
    let expected = "hits 2\n3 18446744073709551615 0\n4294967295 0 274877906944\n";
    let out = text_with_tags(&rt);
    holds(&rt, out.as_slice() == expected.as_bytes());
}

// Lists the refusals and their texts.
const REFUSALS: [(Refusal, &str); 13] = [
    (Refusal::Command, "refused command\n"),
    (Refusal::Dimension, "refused dimension\n"),
    (Refusal::Number, "refused number\n"),
    (Refusal::Count, "refused count\n"),
    (Refusal::Short, "refused short\n"),
    (Refusal::NotEmpty, "refused notempty\n"),
    (Refusal::Full, "refused full\n"),
    (Refusal::Worn, "refused worn\n"),
    (Refusal::NoRoom, "refused noroom\n"),
    (Refusal::ReadOnly, "refused readonly\n"),
    (Refusal::NoCursor, "refused nocursor\n"),
    (Refusal::Cursors, "refused cursors\n"),
    (Refusal::Unfit, "refused unfit\n"),
];

#[test]
fn each_refusal_has_its_word(rt: HostRuntime) {
    for (why, text) in &REFUSALS {
        check_reply(&rt, &Reply::Refused(*why), text);
    }
}

// Checks the text of a query.
fn check_query(rt: &(impl AllocGlobal + Abort), query: &Query, text: &str) {
    let mut out = Vec::new(rt.alloc());
    query_text(query, &mut out).expect(rt, "memory");
    holds(rt, out.as_slice() == text.as_bytes());
}

// Makes a range query of two coordinates.
fn range_of(rt: &(impl AllocGlobal + Abort)) -> Query {
    Query::Range {
        q: Point::new(rt.alloc(), &[0, 4294967295]).expect(rt, "memory"),
        r: 18446744073709551615,
    }
}

// Makes a query for the two nearest to a point of one coordinate.
fn nearest_of(rt: &(impl AllocGlobal + Abort)) -> Query {
    Query::Nearest {
        q: Point::new(rt.alloc(), &[5]).expect(rt, "memory"),
        k: 2,
    }
}

#[test]
fn queries_are_written_as_a_script_has_them(rt: HostRuntime) {
    check_query(
        &rt,
        &range_of(&rt),
        "range,18446744073709551615,0,4294967295\n",
    );
    check_query(&rt, &nearest_of(&rt), "nearest,2,5\n");
}
