// Compares the answers of a log with those that its records name.
ghost use Rattle.std.specs.Prelude.{◌≡◌, ◌<◌, ◌^◌, length};
ghost use Rattle.log_model.specs.Grammar.{query_point};
ghost use Rattle.log_verify.specs.Judged.{first_difference};
ghost use Rattle.log_verify.specs.JoinJudged.{pair_difference, names};

use crate::{JoinVerdict, Verdict};
use scan_model::{Hit, Pair, Query};
use tree_shape::Live;

// Returns the query's point.
pub fn point_of(query: &Query) -> &[u32]
    ensures { result.now ≡ query_point query.now }
{
    match query {
        Query::Range { q, .. } => q.as_slice(),
        Query::Nearest { q, .. } => q.as_slice(),
    }
}

// Returns the first place where two lists of answers differ.
#[tactic(auto, using(crate::proofs::Differences::difference_short, crate::proofs::Differences::difference_long))]
pub fn compare(told: &[Hit], named: &[Hit]) -> Option<Verdict>
    requires { length told.now < 2 ^ 64 }
    ensures { result ≡ first_difference 0 told.now named.now }
{
    for i in 0..told.len() {
        if i >= named.len() {
            return Some(Verdict::WrongAnswer(i as u64));
        }
        if told[i] != named[i] {
            return Some(Verdict::WrongAnswer(i as u64));
        }
    }
    if told.len() < named.len() {
        return Some(Verdict::WrongAnswer(told.len() as u64));
    }
    None
}

// Returns the first place where two lists of a join's answers differ.
#[tactic(auto, using(crate::proofs::JoinDifferences::difference_short, crate::proofs::JoinDifferences::difference_long))]
pub fn compare_pairs(told: &[Pair], named: &[Pair]) -> Option<JoinVerdict>
    requires { length told.now < 2 ^ 64 }
    ensures { result ≡ pair_difference 0 told.now named.now }
{
    for i in 0..told.len() {
        if i >= named.len() {
            return Some(JoinVerdict::WrongAnswer(i as u64));
        }
        if told[i] != named[i] {
            return Some(JoinVerdict::WrongAnswer(i as u64));
        }
    }
    if told.len() < named.len() {
        return Some(JoinVerdict::WrongAnswer(told.len() as u64));
    }
    None
}

// Returns whether a log names the generation and the root of a live slot.
pub fn names(named: (u64, u32), live: &Live) -> bool
    ensures { result ≡ names named live.now }
{
    named.0 == live.generation && named.1 == live.root
}
