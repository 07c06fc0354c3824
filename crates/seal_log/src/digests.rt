// The three kinds of digests (FIPS 180-4). Each hashed message begins with the byte of its kind.
ghost use Rattle.std.specs.Prelude.{◌≡◌, ◌++◌, ◌∷◌, [], ℕ, List};
ghost use Rattle.sha2.specs.Sha256.{sha256};
ghost use Rattle.seal_log.specs.Digests.{leaf_message, pair_message, root_message};

use sha2::{Digest, Sha256};

// Returns the digest of the byte `kind`, then `first`, then `second`.
fn digest_of(kind: u8, first: &[u8], second: &[u8]) -> [u8; 32]
    ensures { result ≡ sha256 (kind ∷ (first.now ++ second.now)) }
{
    let mut hasher = Sha256::new();
    hasher.update(&[kind]);
    hasher.update(first);
    hasher.update(second);
    hasher.finalize()
}

/// Returns the digest of a page.
pub fn leaf_digest(page: &[u8]) -> [u8; 32]
    ensures { result ≡ sha256 (leaf_message page.now) }
{
    digest_of(0, page, &[])
}

/// Returns the digest of a pair of digests.
pub fn pair_digest(left: &[u8; 32], right: &[u8; 32]) -> [u8; 32]
    ensures { result ≡ sha256 (pair_message left.now right.now) }
{
    digest_of(1, left, right)
}

/// Returns the root digest of a file of `pages` pages with the digest `top` at the top.
pub fn root_digest(pages: u32, top: &[u8; 32]) -> [u8; 32]
    ensures { result ≡ sha256 (root_message pages top.now) }
{
    digest_of(2, &pages.to_be_bytes(), top)
}
