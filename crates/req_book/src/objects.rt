ghost use Rattle.std.specs.Prelude.{◌≡◌, is_some, ◌↔◌, IsTrue, ℕ, ◌<◌, slice_get, OnOk, OnErr, IfSome, option_copied, length, replicate, true, ◌++◌, ◌∷◌, [], None};
ghost use Rattle.std.specs.Option.{option_map};
ghost use Rattle.req_book.specs.Requests.{HaveOwnIds, find, with_changed, asking, with_pairs, with_buffer, cleared, queued, begun, completed, is_pending, is_number_held, without, new_request};
ghost use Rattle.std.specs.List.{list_any};
ghost use Rattle.indexmap.specs.IndexMap.{values};
ghost use Rattle.slab.specs.Slab.{get};
ghost use Rattle.req_book.specs.Objects.{request_at, held_by, HasFrameRoom};
ghost use Rattle.req_book.specs.Alike.{AreLike, compared};
ghost use Rattle.req_book.specs.declared.state.RequestState.TheVariants as states;

use crate::object::Object;
use crate::settings::{apply, keep, latest};
use crate::state::RequestState;
use ctrl_types::{CtrlValue, Pair};
use indexmap::IndexMap;
use slab::Slab;
use std::alloc::{AllocError, Global};
use std::marker::Model;

/// Request objects under keys of their own, and the ids in front of them. Contracts see the requests, in order of allocation.
#[derive(Drop)]
pub(crate) struct Objects {
    controls: u32,
    ids: IndexMap<u32, usize>,
    slots: Slab<Object>,
}

impl Model for Objects {
    ghost use Rattle.req_book.specs.Requests.{RequestsData};
    ghost use Rattle.req_book.specs.Objects.{requests_of_entries, IsObjectTable};

    ghost Value = { RequestsData };

    ghost view = { λ o. record { controls = o.controls; all = requests_of_entries o.slots o.ids.entries } };

    ghost invariant = { λ o. IsObjectTable o.controls o.slots o.ids.entries };
}

impl Objects {
    /// No request is there. It takes no memory.
    pub(crate) fn new(alloc: Global, controls: u32) -> Objects
        ensures { result ≡ record { controls = controls; all = [] } }
    {
        Objects {
            controls,
            ids: IndexMap::new(alloc),
            slots: Slab::new(alloc),
        }
    }

    /// The number of the device's controls.
    pub(crate) fn controls(&self) -> u32
        ensures { result ≡ self.now.controls }
    {
        self.controls
    }

    /// How many there are; no two have an id in common.
    pub(crate) fn count(&self) -> usize
        ensures count { result ≡ length self.now.all }
        ensures ids { HaveOwnIds self.now.all }
    {
        self.ids.len()
    }

    /// The object of a request.
    pub(crate) fn get(&self, id: u32) -> Option<&Object>
        ensures request { option_map (request_at id) (option_copied result) ≡ find self.now.all id }
        ensures room { IfSome result (λ object. HasFrameRoom self.now.controls object.now.state object.now.applied.items object.now.values.items) }
    {
        match self.ids.get(&id) {
            Some(key) => self.slots.get(*key),
            None => None,
        }
    }

    // The id and the object at a place, from 0, in order of allocation.
    fn entry(&self, place: usize) -> Option<(u32, &Object)>
        ensures { option_map (λ e. request_at e.0 e.1.now) result ≡ slice_get self.now.all place }
    {
        match self.ids.get_index(place) {
            Some((id, key)) => match self.slots.get(*key) {
                Some(object) => Some((*id, object)),
                None => None,
            },
            None => None,
        }
    }

    // Whether the requests at a place are alike, or there is none on either side.
    fn is_like_at(&self, other: &Objects, place: usize) -> bool
        ensures { IsTrue result ↔ (option_map compared (slice_get self.now.all place) ≡ option_map compared (slice_get other.now.all place)) }
    {
        match (self.entry(place), other.entry(place)) {
            (Some((own_id, own)), Some((id, object))) => own_id == id && own.is_like(object),
            (None, None) => true,
            _ => false,
        }
    }

    // Whether the requests at the first places are alike.
    fn is_like_below(&self, other: &Objects, count: usize) -> bool
        ensures { IsTrue result ↔ ((place : ℕ) → place < count → option_map compared (slice_get self.now.all place) ≡ option_map compared (slice_get other.now.all place)) }
    {
        for place in 0..count {
            if !self.is_like_at(other, place) {
                return false;
            }
        }
        true
    }

    /// Whether another store has the same requests in the same order, whatever their begins applied, and is for as many controls. It takes no
    /// memory.
    pub(crate) fn is_like(&self, other: &Objects) -> bool
        ensures { IsTrue result ↔ AreLike self.now other.now }
    {
        if self.controls() != other.controls() {
            return false;
        }
        let count = self.count();
        if count != other.count() {
            return false;
        }
        self.is_like_below(other, count)
    }

    /// Whether a request that isn't complete holds a buffer number.
    pub(crate) fn is_number_held(&self, number: u32) -> bool
        ensures { result ≡ is_number_held self.now.all number }
    {
        some_holds(&self.slots, &self.ids, number)
    }

    /// Puts a new request in, the last. The caller owes that there is none with this id. The error is that a growth was refused.
    pub(crate) fn add(&mut self, alloc: Global, id: u32) -> Result<(), AllocError>
        requires { find self.old.all id ≡ None }
        ensures ok { OnOk result (self.new ≡ record self.old { all = self.old.all ++ new_request id ∷ [] }) }
        ensures err { OnErr result (self.new ≡ self.old) }
    {
        self.ids.reserve(1)?;
        self.slots.reserve(1)?;
        let key = self.slots.insert_reserved(Object::new(alloc));
        let _ = self.ids.insert(id, key).unwrap();
        Ok(())
    }

    /// Stores pairs in a request behind those that it has. The caller owes that it is there. The error is that a growth was refused.
    pub(crate) fn store(&mut self, alloc: Global, id: u32, more: &[Pair]) -> Result<(), AllocError>
        requires { is_some (find self.old.all id) ≡ true }
        ensures ok { OnOk result (self.new ≡ with_changed self.old id (with_pairs self.old.controls more.now)) }
        ensures err { OnErr result (self.new ≡ self.old) }
    {
        let object = self.get(id).unwrap();
        let pairs = latest(alloc, self.controls, object.pairs.as_slice(), more)?;
        self.set_pairs(id, pairs);
        Ok(())
    }

    // Gives a request what it asks for.
    fn set_pairs(&mut self, id: u32, pairs: Vec<Pair>)
        ensures { self.new ≡ with_changed self.old id (asking pairs.items) }
    {
        if let Some(key) = self.ids.get(&id) {
            if let Some(object) = self.slots.get_mut(*key) {
                object.pairs = pairs;
            }
        }
    }

    /// Gives a request a buffer.
    pub(crate) fn set_buffer(&mut self, id: u32, number: u32)
        ensures { self.new ≡ with_changed self.old id (with_buffer number) }
    {
        if let Some(key) = self.ids.get(&id) {
            if let Some(object) = self.slots.get_mut(*key) {
                object.buffer = Some(number);
            }
        }
    }

    /// Makes a request as new.
    pub(crate) fn clear(&mut self, id: u32)
        ensures { self.new ≡ with_changed self.old id cleared }
    {
        if let Some(key) = self.ids.get(&id) {
            if let Some(object) = self.slots.get_mut(*key) {
                object.state = RequestState::Idle;
                object.buffer = None;
                object.pairs.clear();
                object.applied.clear();
                object.values.clear();
            }
        }
    }

    /// Has a request wait for its frame. The caller owes an idle one, and room for each control, in which nothing is applied.
    pub(crate) fn enqueue(
        &mut self,
        id: u32,
        applied: Vec<Option<CtrlValue>>,
        values: Vec<CtrlValue>,
    )
        requires state { IfSome (find self.old.all id) (λ r. r.state ≡ states.Idle) }
        requires applied { applied.items ≡ replicate self.old.controls None }
        requires values { length values.items ≡ self.old.controls }
        ensures { self.new ≡ with_changed self.old id (queued self.old.controls) }
    {
        if let Some(key) = self.ids.get(&id) {
            if let Some(object) = self.slots.get_mut(*key) {
                object.state = RequestState::Queued;
                object.applied = applied;
                object.values = values;
            }
        }
    }

    /// Has the frame of a request be made, whose controls get these values. The caller owes a queued one.
    pub(crate) fn begin(&mut self, id: u32, applied: &[Pair])
        requires { IfSome (find self.old.all id) (λ r. r.state ≡ states.Queued) }
        ensures { self.new ≡ with_changed self.old id (begun self.old.controls applied.now) }
    {
        if let Some(key) = self.ids.get(&id) {
            if let Some(object) = self.slots.get_mut(*key) {
                object.state = RequestState::Running;
                apply(&mut object.applied, self.controls, applied);
            }
        }
    }

    /// Ends the frame of a request, at these values. The caller owes a queued or a running one, and a value for each control.
    pub(crate) fn complete(&mut self, id: u32, values: &[CtrlValue])
        requires state { IfSome (find self.old.all id) (λ r. is_pending r.state ≡ true) }
        requires values { length values.now ≡ self.old.controls }
        ensures { self.new ≡ with_changed self.old id (completed values.now) }
    {
        if let Some(key) = self.ids.get(&id) {
            if let Some(object) = self.slots.get_mut(*key) {
                object.state = RequestState::Complete;
                keep(&mut object.values, object.applied.as_slice(), values);
            }
        }
    }

    /// Takes a request out.
    pub(crate) fn remove(&mut self, id: u32)
        ensures { self.new ≡ record self.old { all = without id self.old.all } }
    {
        if let Some(key) = self.ids.shift_remove(&id) {
            self.slots.remove(key);
        }
    }
}

// Whether an object that an id names holds a buffer number.
fn some_holds(slots: &Slab<Object>, ids: &IndexMap<u32, usize>, number: u32) -> bool
    ensures { result ≡ list_any (λ key. held_by number (get slots.now key)) (values ids.now) }
{
    ids.values().any(|key| holds_at(slots, *key, number))
}

// Whether the object under a key holds a buffer number.
fn holds_at(slots: &Slab<Object>, key: usize, number: u32) -> bool
    ensures { result ≡ held_by number (get slots.now key) }
{
    match slots.get(key) {
        Some(object) => object.holds_number(number),
        None => false,
    }
}
