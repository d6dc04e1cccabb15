// Files by their names, some of which are out.
ghost use Rattle.std.specs.Prelude.{◌≡◌, ◌≢◌, ◌↔◌, List, ℕ, string_bytes, false, IfNone, IfSome, IfOk, OnOk, OnErr};
ghost use Rattle.std.specs.List.{position};
ghost use Rattle.disk_model.specs.Place.{Place, missing, stored, out, with_place};
ghost use Rattle.disk_model.specs.Filed.{spells, file_in, place_in};

use crate::lists::push_within;
use std::alloc::{AllocError, Global};

/// Files by their names. Until it is out for the first time, a file stands in the list that was given. From then on it
/// has a slot, which is empty while it is out.
#[derive(Drop)]
pub(crate) struct Files<F: Drop> {
    given: Vec<(String, F)>,
    slots: Vec<(String, Option<F>)>,
}

impl<F: Drop> Files<F> {
    /// These files, none of them out.
    pub(crate) fn new(given: Vec<(String, F)>) -> Files<F>
        ensures { place_in string_bytes result.slots.items result.given.items ≡ file_in string_bytes given.items }
    {
        let slots = Vec::new(*given.allocator());
        Files { given, slots }
    }

    /// The file of a name, where there is one and it isn't out.
    pub(crate) fn get(&self, name: &str) -> Option<&F>
        ensures some { IfSome result (λ file. place_in string_bytes self.now.slots.items self.now.given.items name.now ≡ stored file.now) }
        ensures none { IfNone result ((file : F) → place_in string_bytes self.now.slots.items self.now.given.items name.now ≢ stored file) }
    {
        if let Some(at) = place_of(&self.slots, name) {
            return self.slots[at].1.as_ref();
        }
        let at = place_of(&self.given, name)?;
        Some(&self.given[at].1)
    }

    /// There is a file of this name, here or out.
    pub(crate) fn has(&self, name: &str) -> bool
        ensures { (result ≡ false) ↔ (place_in string_bytes self.now.slots.items self.now.given.items name.now ≡ missing) }
    {
        place_of(&self.slots, name).is_some() || place_of(&self.given, name).is_some()
    }

    /// Gives the file of a name, where there is one. It is out from then on.
    pub(crate) fn lend(&mut self, name: &str) -> Result<Option<F>, AllocError>
        requires here { place_in string_bytes self.old.slots.items self.old.given.items name.now ≢ out }
        ensures lent { IfOk result (λ lent. IfSome lent (λ file. place_in string_bytes self.old.slots.items self.old.given.items name.now ≡ stored file)) }
        ensures now_out { IfOk result (λ lent. IfSome lent (λ file. place_in string_bytes self.new.slots.items self.new.given.items ≡ with_place (place_in string_bytes self.old.slots.items self.old.given.items) name.now out)) }
        ensures none { IfOk result (λ lent. IfNone lent (place_in string_bytes self.old.slots.items self.old.given.items name.now ≡ missing)) }
        ensures same { IfOk result (λ lent. IfNone lent (place_in string_bytes self.new.slots.items self.new.given.items ≡ place_in string_bytes self.old.slots.items self.old.given.items)) }
        ensures left { OnErr result (place_in string_bytes self.new.slots.items self.new.given.items ≡ place_in string_bytes self.old.slots.items self.old.given.items) }
    {
        if let Some(at) = place_of(&self.slots, name) {
            let held = self.slots[at].1.take();
            return Ok(held);
        }
        let Some(at) = place_of(&self.given, name) else {
            return Ok(None);
        };
        self.slots.try_reserve(1)?;
        let (own, file) = self.given.remove(at);
        push_within(&mut self.slots, (own, None));
        Ok(Some(file))
    }

    /// Counts a new name as out.
    pub(crate) fn add_out(&mut self, alloc: Global, name: &str) -> Result<(), AllocError>
        requires new { place_in string_bytes self.old.slots.items self.old.given.items name.now ≡ missing }
        ensures now_out { OnOk result (place_in string_bytes self.new.slots.items self.new.given.items ≡ with_place (place_in string_bytes self.old.slots.items self.old.given.items) name.now out) }
        ensures left { OnErr result (place_in string_bytes self.new.slots.items self.new.given.items ≡ place_in string_bytes self.old.slots.items self.old.given.items) }
    {
        let own = String::from_str(alloc, name)?;
        self.slots.try_reserve(1)?;
        push_within(&mut self.slots, (own, None));
        Ok(())
    }

    /// Takes back the file of a name that is out.
    pub(crate) fn put_back(&mut self, name: &str, file: F)
        requires was_out { place_in string_bytes self.old.slots.items self.old.given.items name.now ≡ out }
        ensures { place_in string_bytes self.new.slots.items self.new.given.items ≡ with_place (place_in string_bytes self.old.slots.items self.old.given.items) name.now (stored file) }
    {
        if let Some(at) = place_of(&self.slots, name) {
            self.slots[at].1 = Some(file);
        }
    }
}

// The place in a list of the first with this name.
fn place_of<V>(named: &[(String, V)], name: &str) -> Option<usize>
    ensures { result ≡ position (λ one. spells string_bytes name.now one.0) named.now }
{
    named.iter().position(|one| one.0.as_str() == name)
}
