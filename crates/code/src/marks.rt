// The places of a queue by their marks alone, in a ring of slots: a look, a put and a pass each take constant time. A
// record takes its operands, passes them and puts on its places.
ghost use Rattle.std.specs.Prelude.{◌≡◌, ℕ, ◌≤◌, min, Bool, false, List, [], ◌∷◌, replicate, slice_index_or};
ghost use Rattle.code.specs.Marks.{front_full, full_count, just_front, pass, passes};
ghost use Rattle.code.specs.Verdict.{outcome_at, puts, step_marks};

use crate::record::Record;
use crate::target::Target;
use records::Reason;
use ring::Ring;
use std::marker::Model;

/// The most places that a queue has.
pub const MOST_PLACES: usize = 4096;

// Which places are full, the front place first; an array, since a library crate has no heap.
#[derive(Drop)]
pub(crate) struct Marks {
    slots: [bool; MOST_PLACES],
    ring: Ring,
    full: usize,
}

impl Model for Marks {
    ghost use Rattle.ring.specs.Held.{held, size_of};
    ghost use Rattle.std.specs.Prelude.{Bool, List};
    ghost use Rattle.code.specs.Marks.{IsCounted, full_count};

    ghost Value = { List Bool };

    ghost view = { λ m. held m.ring m.slots };

    ghost invariant = { λ m. IsCounted (size_of m.ring) m.full (held m.ring m.slots) };
}

// More places than a queue has count as the most.
fn at_most_all(places: usize) -> usize
    ensures { result ≡ min places MOST_PLACES }
{
    places.min(MOST_PLACES)
}

impl Marks {
    // That many empty places, at most 4,096.
    pub(crate) fn empty(places: usize) -> Marks
        ensures { result ≡ replicate (min places MOST_PLACES) false }
    {
        Marks {
            slots: [false; MOST_PLACES],
            ring: Ring::new(at_most_all(places)),
            full: 0,
        }
    }

    // How many places are full.
    fn full_count(&self) -> usize
        ensures { result ≡ full_count self.now }
    {
        self.full
    }

    // Whether place k is there and full.
    fn is_full(&self, k: usize) -> bool
        ensures { result ≡ slice_index_or self.now k false }
    {
        match self.ring.slot(k) {
            Some(slot) => self.slots[slot],
            None => false,
        }
    }

    // Marks place k, or says that it is missing or already full.
    fn put(&mut self, k: usize) -> Result<(), Reason>
        ensures { (index : ℕ) → outcome_at index result self.new ≡ puts index (k ∷ []) self.old }
    {
        let slot = self.ring.slot(k).ok_or(Reason::PlaceMissing)?;
        if self.slots[slot] {
            return Err(Reason::PlaceFull);
        }
        self.slots[slot] = true;
        self.full += 1;
        Ok(())
    }

    // Drops place 0 and adds an empty place at the rear.
    fn pass(&mut self)
        ensures { self.new ≡ pass self.old }
    {
        if let Some(front) = self.ring.slot(0) {
            self.full -= usize::from(self.slots[front]);
            self.slots[front] = false;
            self.ring.turn();
        }
    }

    // Whether the first n places are full.
    fn front_full(&self, n: usize) -> bool
        ensures { result ≡ front_full n self.now }
    {
        (0..n).all(|k| self.is_full(k))
    }

    // Whether the first n places are full, and no others.
    pub(crate) fn just_front(&self, n: usize) -> bool
        ensures { result ≡ just_front n self.now }
    {
        self.front_full(n) && self.full_count() == n
    }

    fn pass_all(&mut self, n: usize)
        ensures { self.new ≡ passes n self.old }
    {
        for _ in 0..n {
            self.pass();
        }
    }

    // Puts on these places, one after another.
    fn put_all(&mut self, places: &[u16]) -> Result<(), Reason>
        ensures { (index : ℕ) → outcome_at index result self.new ≡ puts index places.now self.old }
    {
        for &place in places {
            self.put(usize::from(place))?;
        }
        Ok(())
    }

    // A record does its step on the marks.
    pub(crate) fn step(&mut self, record: &Record) -> Result<(), Reason>
        ensures { (index : ℕ) → outcome_at index result self.new ≡ step_marks index «record».now self.old }
    {
        let operands = record.operation.arity();
        if !self.front_full(operands) {
            return Err(Reason::PlaceEmpty);
        }
        self.pass_all(operands);
        match &record.target {
            Target::Rear => self.put(self.full_count()),
            Target::At(places) => self.put_all(places.as_slice()),
        }
    }
}
