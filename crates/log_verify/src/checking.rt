// Checks the marks of one record against its node.
ghost use Rattle.std.specs.Prelude.{◌≡◌, ◌++◌, ◌<◌, ◌^◌, [], ◌∷◌, map, length, IfOk, IfNone, OnOk};
ghost use Rattle.log_model.specs.declared.marks.Mark.TheVariants.{Near};
ghost use Rattle.metric_laws.specs.Counts.{count_up, CountsUpTo};
ghost use Rattle.tree_shape.specs.Entries.{leaf_of, inner_of};
ghost use Rattle.log_model.specs.Counts.{measured_by};
ghost use Rattle.log_model.specs.Walk.{search_at, away, allows_object, allows_subtree, near_ones, hit_of, need_of};
ghost use Rattle.log_verify.specs.Judged.{first_wrong};

use log_model::{Mark, Need, Probe, is_ruled_out};
use metric_laws::{Ruler, centre_test};
use scan_model::Hit;
use std::alloc::AllocError;
use tree_shape::{InnerEntries, InnerRef, LeafEntries, LeafRef};

// The result for an entry and its mark.
#[derive(Clone, Copy)]
pub struct Checked {
    // Whether the mark is allowed.
    pub allowed: bool,
    // The distance of the entry from the query's point where it is marked Near, otherwise 0.
    pub dist: u64,
}

// Checks the mark of an object.
fn check_object<R: Ruler>(
    ruler: &mut R,
    probe: Probe,
    above: Option<u64>,
    entry: LeafRef,
    mark: Mark,
) -> Checked
    ensures metric { R.metric ruler.new ≡ R.metric ruler.old }
    ensures counted { R.used ruler.new ≡ count_up (R.used ruler.old) (measured_by (mark ∷ [])) }
    ensures allowed { result.allowed ≡
        allows_object (search_at (R.M.space (R.metric ruler.old)) probe.entry.q.now probe.entry.rho) above (leaf_of entry.entry) mark }
    ensures dist { mark ≡ Near →
        result.dist ≡ away (search_at (R.M.space (R.metric ruler.old)) probe.entry.q.now probe.entry.rho) (leaf_of entry.entry).point }
{
    match mark {
        Mark::Skip => Checked {
            allowed: is_ruled_out(above, entry.parent, probe.rho, 0),
            dist: 0,
        },
        Mark::Far => Checked {
            allowed: centre_test(ruler.dist(entry.point, probe.q), probe.rho, 0),
            dist: 0,
        },
        Mark::Near => {
            let dist = ruler.dist(entry.point, probe.q);
            Checked {
                allowed: dist <= probe.rho,
                dist,
            }
        }
    }
}

// Checks the mark of a subtree.
fn check_subtree<R: Ruler>(
    ruler: &mut R,
    probe: Probe,
    above: Option<u64>,
    entry: InnerRef,
    mark: Mark,
) -> Checked
    ensures metric { R.metric ruler.new ≡ R.metric ruler.old }
    ensures counted { R.used ruler.new ≡ count_up (R.used ruler.old) (measured_by (mark ∷ [])) }
    ensures allowed { result.allowed ≡
        allows_subtree (search_at (R.M.space (R.metric ruler.old)) probe.entry.q.now probe.entry.rho) above (inner_of entry.entry) mark }
    ensures dist { mark ≡ Near →
        result.dist ≡ away (search_at (R.M.space (R.metric ruler.old)) probe.entry.q.now probe.entry.rho) (inner_of entry.entry).point }
{
    match mark {
        Mark::Skip => Checked {
            allowed: is_ruled_out(above, entry.parent, probe.rho, entry.radius),
            dist: 0,
        },
        Mark::Far => Checked {
            allowed: centre_test(ruler.dist(entry.point, probe.q), probe.rho, entry.radius),
            dist: 0,
        },
        Mark::Near => Checked {
            allowed: true,
            dist: ruler.dist(entry.point, probe.q),
        },
    }
}

// Appends `item` where its entry is marked Near.
fn push_near<T: Drop>(items: &mut Vec<T>, mark: Mark, item: T) -> Result<(), AllocError>
    ensures { OnOk result (items.new.items ≡ items.old.items ++ near_ones (item ∷ []) (mark ∷ [])) }
{
    match mark {
        Mark::Near => items.push(item)?,
        Mark::Skip | Mark::Far => {}
    }
    Ok(())
}

// Returns the first entry of a leaf whose mark is not allowed. Where there is none, appends the objects that are marked Near.
pub fn check_leaf<R: Ruler>(
    ruler: &mut R,
    probe: Probe,
    above: Option<u64>,
    entries: &LeafEntries,
    marks: &[Mark],
    hits: &mut Vec<Hit>,
) -> Result<Option<u32>, AllocError>
    requires long { length marks.now ≡ length entries.now }
    requires few { length entries.now < 2 ^ 32 }
    ensures metric { R.metric ruler.new ≡ R.metric ruler.old }
    ensures wrong { IfOk result (λ w.
        w ≡ first_wrong (allows_object (search_at (R.M.space (R.metric ruler.old)) probe.entry.q.now probe.entry.rho) above)
        entries.now marks.now 0) }
    ensures named { IfOk result (λ w.
        IfNone w (hits.new.items ≡ hits.old.items ++ map
        (hit_of (search_at (R.M.space (R.metric ruler.old)) probe.entry.q.now probe.entry.rho))
        (near_ones entries.now marks.now))) }
    ensures counted { IfOk result (λ w. IfNone w (R.used ruler.new ≡ count_up (R.used ruler.old) (measured_by marks.now))) }
    ensures few_counted { CountsUpTo (R.used ruler.old) (R.used ruler.new) (measured_by marks.now) }
{
    let view = entries.seen();
    for i in 0..view.len() {
        let entry = view.at(i);
        let checked = check_object(ruler, probe, above, entry, marks[i]);
        if !checked.allowed {
            return Ok(Some(i as u32));
        }
        let hit = Hit {
            id: entry.id,
            dist: checked.dist,
        };
        push_near(hits, marks[i], hit)?;
    }
    Ok(None)
}

// Returns the first entry of an inner node whose mark is not allowed. Where there is none, appends the pages of the subtrees that
// are marked Near.
pub fn check_inner<R: Ruler>(
    ruler: &mut R,
    probe: Probe,
    above: Option<u64>,
    entries: &InnerEntries,
    marks: &[Mark],
    needs: &mut Vec<Need>,
) -> Result<Option<u32>, AllocError>
    requires long { length marks.now ≡ length entries.now }
    requires few { length entries.now < 2 ^ 32 }
    ensures metric { R.metric ruler.new ≡ R.metric ruler.old }
    ensures wrong { IfOk result (λ w.
        w ≡ first_wrong (allows_subtree (search_at (R.M.space (R.metric ruler.old)) probe.entry.q.now probe.entry.rho) above)
        entries.now marks.now 0) }
    ensures named { IfOk result (λ w.
        IfNone w (needs.new.items ≡ needs.old.items ++ map
        (need_of (search_at (R.M.space (R.metric ruler.old)) probe.entry.q.now probe.entry.rho))
        (near_ones entries.now marks.now))) }
    ensures counted { IfOk result (λ w. IfNone w (R.used ruler.new ≡ count_up (R.used ruler.old) (measured_by marks.now))) }
    ensures few_counted { CountsUpTo (R.used ruler.old) (R.used ruler.new) (measured_by marks.now) }
{
    let view = entries.seen();
    for i in 0..view.len() {
        let entry = view.at(i);
        let checked = check_subtree(ruler, probe, above, entry, marks[i]);
        if !checked.allowed {
            return Ok(Some(i as u32));
        }
        let need = Need {
            page: entry.child,
            above: Some(checked.dist),
        };
        push_near(needs, marks[i], need)?;
    }
    Ok(None)
}
