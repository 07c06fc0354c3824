// Writes nodes into pages.
ghost use Rattle.std.specs.Prelude.{◌≡◌, ◌⊎◌, ◌+◌, ◌*◌, ◌≤◌, ◌<◌, ℕ, length, slice_index};
ghost use Rattle.std.specs.List.{AllByRecursion};
ghost use Rattle.metric_laws.specs.Space.{bound};
ghost use Rattle.tree_shape.specs.Entries.{leaf_of, inner_of};
ghost use Rattle.tree_shape.specs.Fill.{most_for};
ghost use Rattle.node_page.specs.Bytes.{number_at};
ghost use Rattle.node_page.specs.Nodes.{IsValidNode, SpellsNode, firsts, point_at, leaf_at, inner_at, place_of};

use crate::bytes::{clear, put_u8, put_u16, put_u32, put_u64};
use crate::node::place_of;
use tree_shape::{InnerEntries, InnerRef, LeafEntries, LeafRef, Node};

// Writes coordinates from a place on.
fn put_point(page: &mut [u8; 4096], at: usize, point: &[u32])
    requires { at + 4 * length point.now ≤ 4096 }
    ensures point { point_at (length point.now) page.new at ≡ point.now }
    ensures others { (k : ℕ) → (k < at) ⊎ (at + 4 * length point.now ≤ k) → slice_index page.new k ≡ slice_index page.old k }
{
    for index in 0..point.len() {
        put_u32(page, at + 4 * index, point[index]);
    }
}

// Writes a leaf entry from a place on.
fn put_leaf(page: &mut [u8; 4096], at: usize, entry: LeafRef)
    requires { at + 20 + 4 * length entry.point.now ≤ 4096 }
    ensures entry { leaf_at (length entry.entry.point.now) page.new at ≡ leaf_of entry.entry }
    ensures others { (k : ℕ) → (k < at) ⊎ (at + 20 + 4 * length entry.entry.point.now ≤ k) →
        slice_index page.new k ≡ slice_index page.old k }
{
    put_u32(page, at, entry.id);
    put_u64(page, at + 4, entry.tag);
    put_u64(page, at + 12, entry.parent);
    put_point(page, at + 20, entry.point);
}

// Writes an inner entry from a place on.
fn put_inner(page: &mut [u8; 4096], at: usize, entry: InnerRef)
    requires { at + 20 + 4 * length entry.point.now ≤ 4096 }
    ensures entry { inner_at (length entry.entry.point.now) page.new at ≡ inner_of entry.entry }
    ensures others { (k : ℕ) → (k < at) ⊎ (at + 20 + 4 * length entry.entry.point.now ≤ k) →
        slice_index page.new k ≡ slice_index page.old k }
{
    put_u32(page, at, entry.child);
    put_u64(page, at + 4, entry.radius);
    put_u64(page, at + 12, entry.parent);
    put_point(page, at + 20, entry.point);
}

// Writes the entries of a leaf.
fn put_leaves(page: &mut [u8; 4096], dim: u8, entries: &LeafEntries)
    requires few { dim ≤ 64 }
    requires most { length entries.now ≤ most_for dim }
    requires points { AllByRecursion (λ e. (length e.point ≡ dim) × (e.parent ≤ bound)) entries.now }
    ensures entries { firsts (λ i. leaf_at dim page.new (place_of dim i)) (length entries.now) ≡ entries.now }
    ensures others { (k : ℕ) → (k < 16) ⊎ (place_of dim (length entries.now) ≤ k) → slice_index page.new k ≡ slice_index page.old k }
{
    for index in 0..entries.len() {
        put_leaf(page, place_of(dim, index), entries.at(index));
    }
}

// Writes the entries of an inner node.
fn put_inners(page: &mut [u8; 4096], dim: u8, entries: &InnerEntries)
    requires few { dim ≤ 64 }
    requires most { length entries.now ≤ most_for dim }
    requires points { AllByRecursion (λ e. (length e.point ≡ dim) × (e.radius ≤ bound) × (e.parent ≤ bound)) entries.now }
    ensures entries { firsts (λ i. inner_at dim page.new (place_of dim i)) (length entries.now) ≡ entries.now }
    ensures others { (k : ℕ) → (k < 16) ⊎ (place_of dim (length entries.now) ≤ k) → slice_index page.new k ≡ slice_index page.old k }
{
    for index in 0..entries.len() {
        put_inner(page, place_of(dim, index), entries.at(index));
    }
}

/// Writes a node over points of `dim` coordinates into its page, as version 2 of the format has it.
pub fn encode_node(node: &Node, dim: u8, page: &mut [u8; 4096])
    requires some { 1 ≤ dim }
    requires few { dim ≤ 64 }
    requires valid { IsValidNode dim node.now }
    ensures { SpellsNode dim page.new node.now }
{
    clear(page);
    match node {
        Node::Leaf(entries) => {
            put_u16(page, 2, entries.len() as u16);
            put_leaves(page, dim, entries);
        }
        Node::Inner { level, entries } => {
            put_u8(page, 0, *level);
            put_u16(page, 2, entries.len() as u16);
            put_inners(page, dim, entries);
        }
    }
}
