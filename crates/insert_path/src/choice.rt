ghost use Rattle.std.specs.Prelude.{◌≡◌, ◌<◌, length, map, filter, IfSome, IsTrue};
ghost use Rattle.tree_growth.specs.Dealing.{first_least};
ghost use Rattle.tree_growth.specs.Insertion.{aims, chosen, excess, is_inside, is_outside, or_else, place_of};
ghost use Rattle.promote_split.specs.Steps.{kept, kept_if};
ghost use Rattle.promote_split.specs.Tables.{HasCounted};
ghost use Rattle.insert_path.specs.Walk.{inner_ball};

use metric_laws::Ruler;
use tree_growth::Aim;
use tree_shape::InnerEntry;

// Returns the nearer of two entries that hold the point, the earlier one if they are equal.
fn nearer(best: Option<Aim>, aim: Aim) -> Option<Aim>
    ensures { result ≡ kept (λ a. a.dist) best aim }
{
    match best {
        Some(old) if aim.dist >= old.dist => Some(old),
        _ => Some(aim),
    }
}

// Returns the entry of two whose radius has to grow less, the earlier one if they are equal.
fn smaller(best: Option<Aim>, aim: Aim) -> Option<Aim>
    requires aim { IsTrue (is_outside aim) }
    requires best { IfSome best (λ a. IsTrue (is_outside a)) }
    ensures kept { result ≡ kept excess best aim }
    ensures outside { IfSome result (λ a. IsTrue (is_outside a)) }
{
    match best {
        Some(old) if aim.dist - aim.radius >= old.dist - old.radius => Some(old),
        _ => Some(aim),
    }
}

// The entries seen so far: the nearest one that holds the point, and the one whose radius has to grow least.
#[derive(Clone, Copy)]
struct Seen {
    inside: Option<Aim>,
    outside: Option<Aim>,
}

// Adds one more entry.
fn see(seen: Seen, aim: Aim) -> Seen
    requires { IfSome seen.outside (λ a. IsTrue (is_outside a)) }
    ensures inside { result.inside ≡ kept_if (λ a. a.dist) is_inside seen.inside aim }
    ensures outside { result.outside ≡ kept_if excess is_outside seen.outside aim }
    ensures low { IfSome result.outside (λ a. IsTrue (is_outside a)) }
{
    if aim.dist <= aim.radius {
        Seen {
            inside: nearer(seen.inside, aim),
            outside: seen.outside,
        }
    } else {
        Seen {
            inside: seen.inside,
            outside: smaller(seen.outside, aim),
        }
    }
}

// Looks at all entries.
#[tactic(auto, using(crate::proofs::Seen::seen_more))]
fn see_all<R: Ruler>(ruler: &mut R, entries: &[InnerEntry], p: &[u32]) -> Seen
    ensures metric { R.metric ruler.new ≡ R.metric ruler.old }
    ensures counted { HasCounted (length entries.now) (R.used ruler.old) (R.used ruler.new) }
    ensures inside { result.inside ≡ first_least (λ a. a.dist)
        (filter is_inside (aims (R.M.space (R.metric ruler.old)) p.now 0 (map inner_ball entries.now))) }
    ensures outside { result.outside ≡ first_least excess
        (filter is_outside (aims (R.M.space (R.metric ruler.old)) p.now 0 (map inner_ball entries.now))) }
{
    let mut seen = Seen {
        inside: None,
        outside: None,
    };
    for i in 0..entries.len() {
        let entry = &entries[i];
        let dist = ruler.dist(p, entry.point.as_slice());
        let aim = Aim {
            place: i,
            radius: entry.radius,
            dist,
        };
        seen = see(seen, aim);
    }
    seen
}

// Returns the place of the entry that is chosen of those seen.
fn place_of(seen: Seen) -> usize
    ensures { result ≡ place_of (or_else seen.inside seen.outside) }
{
    match seen {
        Seen {
            inside: Some(aim),
            ..
        } => aim.place,
        Seen {
            outside: Some(aim),
            ..
        } => aim.place,
        _ => 0,
    }
}

/// Returns the place of the entry of an inner node that a new point goes to: of the entries that hold the point within their
/// radius the nearest one, and where none does, the one whose radius has to grow least; ties by lowest place. Computes one
/// distance per entry.
pub fn choose<R: Ruler>(ruler: &mut R, entries: &[InnerEntry], p: &[u32]) -> usize
    requires { 0 < length entries.now }
    ensures metric { R.metric ruler.new ≡ R.metric ruler.old }
    ensures counted { HasCounted (length entries.now) (R.used ruler.old) (R.used ruler.new) }
    ensures chosen { result ≡ chosen (R.M.space (R.metric ruler.old)) (map inner_ball entries.now) p.now }
    ensures place { result < length entries.now }
{
    let seen = see_all(ruler, entries, p);
    place_of(seen)
}
