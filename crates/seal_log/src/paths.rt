// The check of a path, and the levels that it goes up.
ghost use Rattle.std.specs.Prelude.{◌≡◌, ◌<◌, ◌^◌, ◌/◌, ◌∷◌, ℕ, List, None, IsNone, IfSome};
ghost use Rattle.sha2.specs.Sha256.{sha256};
ghost use Rattle.seal_log.specs.Paths.{has_partner, message_at, widths_over, climbed, leads_to};

use crate::digests::{leaf_digest, pair_digest, root_digest};

// Returns whether the digest at place `place` of a level of `width` digests has a partner.
#[tactic(auto, unfolding(crate::specs::Paths::has_partner))]
pub fn has_partner(width: u64, place: u64) -> bool
    requires { place < width }
    ensures { result ≡ has_partner width place }
{
    place % 2 == 1 || place + 1 < width
}

// Returns the digest of the pair of the digest at `place` and its partner.
#[tactic(auto, unfolding(crate::specs::Paths::message_at))]
fn joined(place: u64, digest: &[u8; 32], partner: &[u8; 32]) -> [u8; 32]
    ensures { result ≡ sha256 (message_at place digest.now partner.now) }
{
    if place % 2 == 1 {
        pair_digest(partner, digest)
    } else {
        pair_digest(digest, partner)
    }
}

// Goes up one level from place `place` of a level of `width` digests: returns the digest above, and the rest of the path. Returns
// none where the path ends too early.
fn step_up(
    width: u64,
    place: u64,
    digest: [u8; 32],
    path: &[[u8; 32]],
) -> Option<([u8; 32], &[[u8; 32]])>
    requires { place < width }
    ensures none { IsNone result → (above : List ℕ) → climbed (width ∷ above) place digest path.now ≡ None }
    ensures some { IfSome result (λ x. (above : List ℕ) →
        climbed (width ∷ above) place digest path.now ≡ climbed above (place / 2) x.0 x.1.now) }
{
    if !has_partner(width, place) {
        return Some((digest, path));
    }
    match path {
        [] => None,
        [partner, rest @ ..] => Some((joined(place, &digest, partner), rest)),
    }
}

// Climbs from the digest at place `place` of a level of `width` digests, and returns the digest at the top. Returns none where the
// path has another number of digests.
fn climb(
    mut width: u64,
    mut place: u64,
    mut digest: [u8; 32],
    mut path: &[[u8; 32]],
) -> Option<[u8; 32]>
    requires within { place < width }
    requires wide { width < 2 ^ 32 }
    ensures { result ≡ climbed (widths_over width) place digest path.now }
{
    while width > 1 {
        let (above, rest) = step_up(width, place, digest, path)?;
        digest = above;
        path = rest;
        place /= 2;
        width = (width + 1) / 2;
    }
    match path {
        [] => Some(digest),
        _ => None,
    }
}

/// Returns whether `path` leads from `bytes`, as page `page` of a file of `pages` pages, to the root digest `root`.
#[tactic(auto, unfolding(crate::specs::Paths::leads_to, crate::specs::Paths::is_top))]
pub fn leads_to(root: &[u8; 32], pages: u32, page: u32, bytes: &[u8], path: &[[u8; 32]]) -> bool
    requires { page < pages }
    ensures { result ≡ leads_to root.now pages page bytes.now path.now }
{
    match climb(u64::from(pages), u64::from(page), leaf_digest(bytes), path) {
        None => false,
        Some(top) => root_digest(pages, &top) == *root,
    }
}
