// The pages that are carried.
ghost use Rattle.std.specs.Prelude.{◌≡◌, ◌<◌, ℕ, [], IfOk, OnErr, IfSome, MatchOption};
ghost use Rattle.std.specs.Option.{is_some};
ghost use Rattle.std.specs.List.{AllByRecursion, AllPairs};
ghost use Rattle.node_page.specs.Opening.{page_of};
ghost use Rattle.seal_log.specs.Judged.{bytes_of, carried_file, is_carried, HasPageSize, IsThere, IsNowhere};

use crate::CarriedPage;

// Returns the place of page `page` among the carried pages, which ascend.
fn place_of(carried: &[CarriedPage], page: u32) -> Result<usize, usize>
    requires { AllPairs (λ p q. p.page < q.page) carried.now }
    ensures there { IfOk result (IsThere carried.now page) }
    ensures nowhere { OnErr result (IsNowhere carried.now page) }
{
    carried.binary_search_by_key(&page, |p| p.page)
}

/// Returns the carried page `page`, if there is one.
pub fn find_page(carried: &[CarriedPage], page: u32) -> Option<&CarriedPage>
    requires { AllPairs (λ p q. p.page < q.page) carried.now }
    ensures test { is_some result ≡ is_carried carried.now page }
    ensures bytes { MatchOption result (bytes_of carried.now page ≡ []) (λ p. bytes_of carried.now page ≡ p.now.bytes) }
    ensures size { IfSome result (λ p. AllByRecursion HasPageSize carried.now → HasPageSize p.now) }
{
    match place_of(carried, page) {
        Ok(at) => Some(&carried[at]),
        Err(_) => None,
    }
}

/// Returns the bytes of page `page` of the carried file; all are 0 where the page isn't carried.
pub fn page_bytes(carried: &[CarriedPage], page: u32) -> [u8; 4096]
    requires ascend { AllPairs (λ p q. p.page < q.page) carried.now }
    requires size { AllByRecursion HasPageSize carried.now }
    ensures { (pages : ℕ) → page < pages → result ≡ page_of (carried_file pages carried.now) page }
{
    let mut bytes = [0; 4096];
    if let Some(found) = find_page(carried, page) {
        bytes.copy_from_slice(found.bytes.as_slice());
    }
    bytes
}
