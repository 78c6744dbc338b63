ghost use Rattle.std.specs.Prelude.{◌≡◌, ◌<◌, ◌≤◌, ◌+◌, ℕ, false, [], ◌∷◌, ◌++◌, length, map, drop, Some, OnOk, IsTrue, true, slice_get};
ghost use Rattle.std.specs.Prelude.{vec_capacity};
ghost use Rattle.ctrl_events.specs.Order.{has, without, AreApart, logged, is_of, is_empty_entry, entry_number, place_in, ArePlaced, AreEmptyBelow, IsOrder, renewed};

use std::alloc::{AllocError, Global};
use std::marker::Model;

/// Numbers in the order in which they came, each at most once. One is found, taken out and put last in a step each, however many there are: a log
/// has them in order, where one was taken out its place is empty, and for each number its place is kept. The log is packed once it has two entries
/// more than twice as many as there are numbers; that takes a step for each entry, at most two for each that was taken out since the last time.
#[derive(Drop)]
pub(crate) struct Order {
    log: Vec<Option<u32>>,
    places: Vec<usize>,
    first: usize,
    count: usize,
}

impl Model for Order {
    ghost use Rattle.ctrl_events.specs.Order.{OrderData, logged, IsOrder};
    ghost use Rattle.std.specs.Prelude.{length, vec_capacity};

    ghost Value = { OrderData };

    ghost view = { λ o. record { members = logged o.log.items; bound = length o.places.items; room = vec_capacity o.log } };

    ghost invariant = { λ o. IsOrder o.log.items o.places.items o.first o.count };
}

impl Order {
    /// No number is there. It takes no memory.
    pub(crate) fn new(alloc: Global) -> Order
        ensures { result.members ≡ [] }
    {
        Order {
            log: Vec::new(alloc),
            places: Vec::new(alloc),
            first: 0,
            count: 0,
        }
    }

    /// How many numbers there are; none is there twice.
    pub(crate) fn len(&self) -> usize
        ensures len { result ≡ length self.now.members }
        ensures small { result + 1 < 18446744073709551616 }
        ensures apart { AreApart self.now.members }
    {
        self.count
    }

    /// Whether a number is there.
    pub(crate) fn contains(&self, number: u32) -> bool
        ensures { result ≡ has self.now.members number }
    {
        place_in(self.log.as_slice(), self.places.as_slice(), number).is_some()
    }

    /// Makes room for a number, and for so many in all. The error is that a growth was refused.
    pub(crate) fn reserve(&mut self, number: u32, fits: usize) -> Result<(), AllocError>
        ensures members { self.new.members ≡ self.old.members }
        ensures bound_grows { self.old.bound ≤ self.new.bound }
        ensures room_grows { self.old.room ≤ self.new.room }
        ensures bound { OnOk result (number < self.new.bound) }
        ensures room { OnOk result (fits + fits ≤ self.new.room) }
    {
        let entries = fits.saturating_add(fits);
        self.log.reserve(entries.saturating_sub(self.log.len()))?;
        keep_place(&mut self.places, number)
    }

    /// Puts a number last, which isn't there and for which room was made.
    pub(crate) fn push(&mut self, number: u32)
        requires absent { has self.old.members number ≡ false }
        requires bound { number < self.old.bound }
        requires room { length self.old.members + length self.old.members + 2 ≤ self.old.room }
        ensures { self.new ≡ record self.old { members = self.old.members ++ number ∷ [] } }
    {
        self.places[number as usize] = self.log.len();
        self.log.push_reserved(Some(number));
        self.count += 1;
    }

    /// Takes a number out, and answers whether it was there.
    pub(crate) fn remove(&mut self, number: u32) -> bool
        ensures answer { result ≡ has self.old.members number }
        ensures left { self.new ≡ record self.old { members = without number self.old.members } }
    {
        match place_in(self.log.as_slice(), self.places.as_slice(), number) {
            Some(place) => {
                self.log[place] = None;
                self.count -= 1;
                self.first = pack_where_sparse(
                    &mut self.log,
                    &mut self.places,
                    self.first,
                    self.count,
                );
                true
            }
            None => false,
        }
    }

    /// Puts a number last, for which room was made, wherever it stood before, and answers whether it was there.
    pub(crate) fn put_last(&mut self, number: u32) -> bool
        requires bound { number < self.old.bound }
        requires room { length (without number self.old.members) + length (without number self.old.members) + 2 ≤ self.old.room }
        ensures answer { result ≡ has self.old.members number }
        ensures put { self.new ≡ record self.old { members = without number self.old.members ++ number ∷ [] } }
    {
        if self.is_last(number) {
            return true;
        }
        let was = self.remove(number);
        self.push(number);
        was
    }

    // Whether a number is the last.
    fn is_last(&self, number: u32) -> bool
        ensures there { IsTrue result → has self.now.members number ≡ true }
        ensures last { IsTrue result → self.now.members ≡ without number self.now.members ++ number ∷ [] }
    {
        let len = self.log.len();
        len > 0 && is_at(self.log.as_slice(), len - 1, number)
    }

    /// Takes the first number out, and answers it, where there is one.
    pub(crate) fn take_first(&mut self) -> Option<u32>
        ensures answer { result ≡ slice_get self.old.members 0 }
        ensures left { self.new ≡ record self.old { members = drop 1 self.old.members } }
    {
        let place = next_entry(self.log.as_slice(), self.first);
        match number_at(self.log.as_slice(), place) {
            Some(number) => {
                self.log[place] = None;
                self.count -= 1;
                self.first = pack_where_sparse(
                    &mut self.log,
                    &mut self.places,
                    place + 1,
                    self.count,
                );
                Some(number)
            }
            None => None,
        }
    }

    /// The number at a place, from 0.
    pub(crate) fn nth(&self, place: usize) -> Option<u32>
        ensures { result ≡ slice_get self.now.members place }
    {
        // below the first all entries are empty
        nth_entry(entries_from(self.log.as_slice(), self.first), place)
    }

    /// The numbers as they stand, with the entries that are empty.
    pub(crate) fn entries(&self) -> &[Option<u32>]
        ensures { logged result.now ≡ self.now.members }
    {
        self.log.as_slice()
    }
}

// The place of a number in a log, by the place that is kept for it.
fn place_in(log: &[Option<u32>], places: &[usize], number: u32) -> Option<usize>
    ensures { result ≡ place_in log.now places.now number }
{
    match places.get(number as usize) {
        Some(place) if is_at(log, *place, number) => Some(*place),
        _ => None,
    }
}

// Whether the entry at a place is that of a number.
fn is_at(log: &[Option<u32>], place: usize, number: u32) -> bool
    ensures { result ≡ is_of number (slice_get log.now place) }
{
    match log.get(place) {
        Some(Some(there)) => *there == number,
        _ => false,
    }
}

// Whether the entry at a place is empty.
fn is_empty_at(log: &[Option<u32>], place: usize) -> bool
    ensures { result ≡ is_empty_entry (slice_get log.now place) }
{
    matches!(log.get(place), Some(None))
}

/// The number that stands at a place.
pub(crate) fn number_at(log: &[Option<u32>], place: usize) -> Option<u32>
    ensures { result ≡ entry_number (slice_get log.now place) }
{
    match log.get(place) {
        Some(Some(number)) => Some(*number),
        _ => None,
    }
}

/// The first place from one on whose entry isn't empty, or how many entries there are.
pub(crate) fn next_entry(log: &[Option<u32>], from: usize) -> usize
    ensures rest { logged (drop result log.now) ≡ logged (drop from log.now) }
    ensures passed { (i : ℕ) → from ≤ i → i < result → slice_get log.now i ≡ Some None }
    ensures found { is_empty_entry (slice_get log.now result) ≡ false }
{
    for place in from..log.len() {
        if !is_empty_at(log, place) {
            return place;
        }
    }
    log.len()
}

// The entries from a place on.
fn entries_from(log: &[Option<u32>], from: usize) -> &[Option<u32>]
    requires { from ≤ length log.now }
    ensures { result.now ≡ drop from log.now }
{
    &log[from..]
}

// The number at a place among those of a log.
fn nth_entry(log: &[Option<u32>], place: usize) -> Option<u32>
    ensures { result ≡ slice_get (logged log.now) place }
{
    let mut left = place;
    for entry in log {
        let Some(number) = entry else {
            continue;
        };
        if left == 0 {
            return Some(*number);
        }
        left -= 1;
    }
    None
}

// Keeps a place for a number; those that are kept stay.
fn keep_place(places: &mut Vec<usize>, number: u32) -> Result<(), AllocError>
    ensures bound { OnOk result (number < length places.new.items) }
    ensures grows { length places.old.items ≤ length places.new.items }
    ensures kept { (n p : ℕ) → slice_get places.old.items n ≡ Some p → slice_get places.new.items n ≡ Some p }
{
    let number = number as usize;
    if number < places.len() {
        return Ok(());
    }
    places.resize(number + 1, 0)
}

// Packs a log with so many numbers where it has two entries more than twice as many, and answers below which place all entries are empty now.
fn pack_where_sparse(
    log: &mut Vec<Option<u32>>,
    places: &mut Vec<usize>,
    first: usize,
    count: usize,
) -> usize
    requires placed { ArePlaced log.old.items places.old.items }
    requires passed { AreEmptyBelow first log.old.items }
    requires counted { count ≡ length (logged log.old.items) }
    ensures members { logged log.new.items ≡ logged log.old.items }
    ensures order { IsOrder log.new.items places.new.items result count }
    ensures bound { length places.new.items ≡ length places.old.items }
    ensures room { vec_capacity log.new ≡ vec_capacity log.old }
{
    if log.len() / 2 <= count {
        return first;
    }
    pack(log, places);
    0
}

// Takes the empty entries out of a log, and keeps the places of those that are left.
fn pack(log: &mut Vec<Option<u32>>, places: &mut Vec<usize>)
    requires { ArePlaced log.old.items places.old.items }
    ensures numbers { log.new.items ≡ map Some (logged log.old.items) }
    ensures placed { ArePlaced log.new.items places.new.items }
    ensures bound { length places.new.items ≡ length places.old.items }
    ensures room { vec_capacity log.new ≡ vec_capacity log.old }
{
    drop_empty(log);
    for place in 0..log.len() {
        renew_place(log.as_slice(), places, place);
    }
}

// Takes the empty entries out of a log.
fn drop_empty(log: &mut Vec<Option<u32>>)
    ensures numbers { log.new.items ≡ map Some (logged log.old.items) }
    ensures room { vec_capacity log.new ≡ vec_capacity log.old }
{
    log.retain(|entry| entry.is_some());
}

// Keeps the place of the number that stands there.
fn renew_place(log: &[Option<u32>], places: &mut Vec<usize>, place: usize)
    requires { (n : ℕ) → slice_get log.now place ≡ Some (Some n) → n < length places.old.items }
    ensures { places.new.items ≡ renewed place (slice_get log.now place) places.old.items }
{
    if let Some(Some(number)) = log.get(place) {
        places[*number as usize] = place;
    }
}
