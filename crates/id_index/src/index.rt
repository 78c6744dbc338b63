ghost use Rattle.std.specs.Prelude.{◌≡◌, ℕ, ◌++◌, ◌∷◌, [], MatchOption, IfOk, OnOk};
ghost use Rattle.id_index.specs.Entries.{number_of, IsNext, IsPastAll, IsRising};

use crate::search::{find_in, first_from, next_in};
use std::alloc::{AllocError, Global};
use std::marker::Model;

/// Numbers under ids. Contracts see it as the list of its entries, each an id and its number, in rising order of the ids.
#[derive(Drop)]
pub struct IdIndex {
    entries: Vec<(u32, u32)>,
}

impl Model for IdIndex {
    ghost use Rattle.std.specs.Prelude.{List, ℕ};
    ghost use Rattle.id_index.specs.Entries.{IsRising};

    ghost Value = { List (ℕ × ℕ) };

    ghost view = { λ x. x.entries.items };

    ghost invariant = { λ x. IsRising x.entries.items };
}

impl IdIndex {
    /// The index of these entries, each an id and its number, in any order. Where an id stands there more than once, the first
    /// entry counts. `AllocError` where a growth was refused.
    pub fn build(alloc: Global, entries: &[(u32, u32)]) -> Result<IdIndex, AllocError>
        ensures { IfOk result (λ index. (id : ℕ) → number_of index id ≡ number_of entries.now id) }
    {
        let mut rising = Vec::with_capacity(alloc, entries.len())?;
        for &(id, number) in entries {
            put(&mut rising, id, number)?;
        }
        Ok(IdIndex { entries: rising })
    }

    /// The number under an id, where it is there.
    pub fn find(&self, id: u32) -> Option<u32>
        ensures { result ≡ number_of self.now id }
    {
        find_in(self.entries.as_slice(), id)
    }

    /// The least id that is greater than this one, which need not be there itself.
    pub fn next(&self, id: u32) -> Option<u32>
        ensures { MatchOption result (IsPastAll self.now id) (IsNext self.now id) }
    {
        next_in(self.entries.as_slice(), id)
    }
}

// Gives an id its number, in its place, unless it is there already.
fn put(entries: &mut Vec<(u32, u32)>, id: u32, number: u32) -> Result<(), AllocError>
    requires { IsRising entries.old.items }
    ensures rising { OnOk result (IsRising entries.new.items) }
    ensures put { OnOk result ((other : ℕ) → number_of entries.new.items other ≡ number_of (entries.old.items ++ (id, number) ∷ []) other) }
{
    if find_in(entries.as_slice(), id).is_some() {
        return Ok(());
    }
    let place = first_from(entries.as_slice(), id);
    entries.insert(place, (id, number))?;
    Ok(())
}
