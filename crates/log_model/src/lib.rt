//! What a log of pruning decisions says, when it is sound, and the law that a sound log on a sound tree names the answers
//! of the plain scan.
#![tactic(auto)]

mod answering;
mod items;
pub mod laws;
mod logs;
mod marking;
mod marks;
mod matching;
mod node_marks;
mod pairing;
mod pairs;
mod tagged;
mod traversal;

pub use answering::{put_hits_in_order, put_pairs_in_order, radius_of, select};
pub use items::Item;
pub use logs::{Found, JoinLog, Joined, Log};
pub use marking::{Probe, is_ruled_out, next_object, next_subtree};
pub use marks::{JoinRecord, Mark, Need, Record};
pub use matching::{JoinProbe, Matches};
pub use node_marks::NodeMarks;
pub use pairing::{is_far, is_skipped};
pub use pairs::JoinNeed;
pub use tagged::TaggedHit;
pub use traversal::{Traversal, entry_count};
