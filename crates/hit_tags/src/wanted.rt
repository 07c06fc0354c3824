ghost use Rattle.std.specs.Prelude.{◌≡◌, ◌∷◌, [], map, Some, None, IfOk};
ghost use Rattle.std.specs.List.{AllByRecursion};
ghost use Rattle.hit_tags.specs.Wanted.{Tagging, held, tag_held, TakesIn};

use scan_model::Hit;
use std::alloc::{AllocError, Global};
use std::collections::BTreeMap;
use std::marker::Model;

/// The ids of the hits, each with the tag of the first object with this id, once one was met.
#[derive(Drop)]
pub struct Wanted {
    tags: BTreeMap<u32, Option<u64>>,
}

impl Model for Wanted {
    ghost Value = { Tagging };

    ghost view = { λ w. w.tags.entries };
}

impl Wanted {
    /// Returns the ids of the hits, with none met yet.
    pub fn new(alloc: Global, hits: &[Hit]) -> Result<Self, AllocError>
        ensures { IfOk result (λ wanted. AllByRecursion (λ h. held wanted h.id ≡ Some None) hits.now) }
    {
        let mut tags = BTreeMap::new(alloc);
        for hit in hits {
            tags.insert(hit.id, None)?;
        }
        Ok(Wanted { tags })
    }

    /// Notes the tag of the object `id`, which was met.
    pub fn note(&mut self, id: u32, tag: u64)
        ensures { TakesIn self.old ((id, tag) ∷ []) self.new }
    {
        if let Some(first) = self.tags.get_mut(&id) {
            *first = first.or(Some(tag));
        }
    }

    // Returns the tag of an id, or 0 where it was not met.
    fn tag(&self, id: u32) -> u64
        ensures { result ≡ tag_held (held self.now id) }
    {
        match self.tags.get(&id) {
            Some(Some(tag)) => *tag,
            Some(None) | None => 0,
        }
    }

    /// Returns the tag of each hit, or 0 where its id was not met.
    pub fn tags(&self, alloc: Global, hits: &[Hit]) -> Result<Vec<u64>, AllocError>
        ensures { IfOk result (λ tags. tags.items ≡ map (λ h. tag_held (held self.now h.id)) hits.now) }
    {
        hits.iter().map(|hit| self.tag(hit.id)).collect(alloc)
    }
}
