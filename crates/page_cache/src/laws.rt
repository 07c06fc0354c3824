//! Laws of how long a cache agrees with pages that change.

ghost use Rattle.page_cache.specs.Laws.{EmptyCacheAgrees, AgreementLasts, ForgettingKeepsAgreement};

/// An empty cache agrees with any pages.
pub fn empty_cache_agrees()
    ensures { EmptyCacheAgrees }
{}

/// A cache agrees with its pages as long as each cached page holds what it held.
pub fn agreement_lasts()
    ensures { AgreementLasts }
{}

/// A forgotten page is no longer cached, and the rest of the cache agrees where the whole did.
pub fn forgetting_keeps_agreement()
    ensures { ForgettingKeepsAgreement }
{}
