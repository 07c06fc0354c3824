// The line of an entry, and the test of its mark.
ghost use Rattle.std.specs.Prelude.{◌≡◌, ◌++◌, ◌+◌, ◌<◌, ◌^◌, OnOk, IfOk, decimal};
ghost use Rattle.fault_lines.specs.Lines.{numbered};
ghost use Rattle.rows_text.specs.Texts.{space};
ghost use Rattle.tree_shape.specs.Entries.{inner_of, leaf_of};
ghost use Rattle.log_model.specs.declared.marks.Mark.TheVariants.{Skip, Near};
ghost use Rattle.log_model.specs.Walk.{allows_object, allows_subtree, away};
ghost use Rattle.job_show.specs.Walks.{indent, object_line, subtree_line};
ghost use Rattle.job_show.specs.Steps.{search_by};

use crate::reasons::push_reason;
use crate::{Coming, Reach};
use fault_lines::push_numbered;
use log_model::{Mark, is_ruled_out};
use metric_laws::{Metric, centre_test};
use metric_mix::MixSpace;
use std::alloc::AllocError;
use tree_shape::{InnerRef, LeafRef};

// What entries are tested by.
#[derive(Clone, Copy)]
pub struct Gauge<'a> {
    // The space.
    pub space: MixSpace,
    // The query's point.
    pub q: &'a [u32],
    // The radius that prunes.
    pub rho: u64,
}

// The test of a mark.
#[derive(Clone, Copy)]
pub struct Tested {
    // Whether the mark is allowed.
    pub allowed: bool,
    // The distance of the entry from the query's point, and 0 where the entry is marked Skip.
    pub dist: u64,
}

/// Appends two blanks for each step.
pub fn push_indent(depth: u32, out: &mut Vec<u8>) -> Result<(), AllocError>
    ensures { OnOk result (out.new.items ≡ out.old.items ++ indent depth) }
{
    for _step in 0..depth {
        out.extend_from_slice(b"  ")?;
    }
    Ok(())
}

/// Appends the place of an entry, a word and a number.
pub fn push_place(
    depth: u32,
    place: u64,
    word: &[u8],
    number: u32,
    out: &mut Vec<u8>,
) -> Result<(), AllocError>
    ensures { OnOk result
        (out.new.items ≡ out.old.items ++ (indent depth ++ decimal place ++ numbered word.now number ++ space)) }
{
    push_indent(depth, out)?;
    push_numbered(b"", place, out)?;
    push_numbered(word, u64::from(number), out)?;
    out.extend_from_slice(b" ")
}

// Tests the mark of an object.
fn test_object(gauge: Gauge, above: Option<u64>, entry: LeafRef, mark: Mark) -> Tested
    ensures allowed { result.allowed ≡ allows_object (search_by gauge.entry) above (leaf_of entry.entry) mark }
    ensures dist { (mark ≡ Skip → ⊥) → result.dist ≡ away (search_by gauge.entry) (leaf_of entry.entry).point }
{
    let point = entry.point;
    match mark {
        Mark::Skip => Tested {
            allowed: is_ruled_out(above, entry.parent, gauge.rho, 0),
            dist: 0,
        },
        Mark::Far => {
            let dist = gauge.space.dist(point, gauge.q);
            Tested {
                allowed: centre_test(dist, gauge.rho, 0),
                dist,
            }
        }
        Mark::Near => {
            let dist = gauge.space.dist(point, gauge.q);
            Tested {
                allowed: dist <= gauge.rho,
                dist,
            }
        }
    }
}

// Tests the mark of a subtree.
fn test_subtree(gauge: Gauge, above: Option<u64>, entry: InnerRef, mark: Mark) -> Tested
    ensures allowed { result.allowed ≡ allows_subtree (search_by gauge.entry) above (inner_of entry.entry) mark }
    ensures dist { (mark ≡ Skip → ⊥) → result.dist ≡ away (search_by gauge.entry) (inner_of entry.entry).point }
{
    let point = entry.point;
    match mark {
        Mark::Skip => Tested {
            allowed: is_ruled_out(above, entry.parent, gauge.rho, entry.radius),
            dist: 0,
        },
        Mark::Far => {
            let dist = gauge.space.dist(point, gauge.q);
            Tested {
                allowed: centre_test(dist, gauge.rho, entry.radius),
                dist,
            }
        }
        Mark::Near => Tested {
            allowed: true,
            dist: gauge.space.dist(point, gauge.q),
        },
    }
}

// Appends the line of an object, and returns whether its mark is allowed.
pub fn show_object(
    gauge: Gauge,
    coming: Coming,
    place: u64,
    entry: LeafRef,
    mark: Mark,
    out: &mut Vec<u8>,
) -> Result<bool, AllocError>
    requires { coming.depth + 1 < 2 ^ 32 }
    ensures line { OnOk result (out.new.items ≡ out.old.items ++
        object_line (search_by gauge.entry) coming place (leaf_of entry.entry) mark) }
    ensures allowed { IfOk result (λ allowed. allowed ≡
        allows_object (search_by gauge.entry) coming.need.above (leaf_of entry.entry) mark) }
{
    let above = coming.need.above;
    let tested = test_object(gauge, above, entry, mark);
    let reach = Reach {
        rho: gauge.rho,
        radius: None,
    };
    push_place(coming.depth + 1, place, b" object ", entry.id, out)?;
    push_reason(above, entry.parent, tested.dist, reach, mark, out)?;
    out.extend_from_slice(b"\n")?;
    Ok(tested.allowed)
}

// Appends the line of a subtree, and returns the test of its mark.
pub fn show_subtree(
    gauge: Gauge,
    coming: Coming,
    place: u64,
    entry: InnerRef,
    mark: Mark,
    out: &mut Vec<u8>,
) -> Result<Tested, AllocError>
    requires { coming.depth + 1 < 2 ^ 32 }
    ensures line { OnOk result (out.new.items ≡ out.old.items ++
        subtree_line (search_by gauge.entry) coming place (inner_of entry.entry) mark) }
    ensures allowed { IfOk result (λ tested. tested.allowed ≡
        allows_subtree (search_by gauge.entry) coming.need.above (inner_of entry.entry) mark) }
    ensures dist { IfOk result (λ tested. mark ≡ Near → tested.dist ≡ away (search_by gauge.entry) (inner_of entry.entry).point) }
{
    let above = coming.need.above;
    let tested = test_subtree(gauge, above, entry, mark);
    let reach = Reach {
        rho: gauge.rho,
        radius: Some(entry.radius),
    };
    push_place(coming.depth + 1, place, b" child ", entry.child, out)?;
    push_reason(above, entry.parent, tested.dist, reach, mark, out)?;
    out.extend_from_slice(b"\n")?;
    Ok(tested)
}
