// The size of a ring and the slot at its front: which slot is place k, and the turn that drops place 0, each in constant
// time.
ghost use Rattle.std.specs.Prelude.{◌≡◌, ℕ, ◌<◌, ◌≤◌, max, List, length, MatchOption, slice_index, slice_set};
ghost use Rattle.ring.specs.Views.{next_front, shifted, slot_of};

/// Slots seen as places from a front on: place 0 is the slot at the front.
#[derive(Clone, Copy, Drop)]
pub struct Ring {
    size: usize,
    front: usize,
    ghost front_within: { front < max size 1 },
}

impl Ring {
    ghost use Rattle.ring.specs.Held.{front_of, held, size_of};

    /// A ring of that many slots, with slot k as place k.
    pub fn new(size: usize) -> Ring
        ensures size { size_of result ≡ size }
        ensures front { front_of result ≡ 0 }
        ensures as_they_stand { (xs : List ℕ) → length xs ≡ size → held result xs ≡ xs }
    {
        Ring::unturned(size)
    }

    // Apart, as the two below, so that a slip here breaks a contract of its own.
    fn unturned(size: usize) -> Ring
        ensures size { size_of result ≡ size }
        ensures front { front_of result ≡ 0 }
    {
        Ring { size, front: 0 }
    }

    /// How many places it has.
    pub fn size(&self) -> usize
        ensures { result ≡ size_of self.now }
    {
        self.size
    }

    /// The slot of place k, if there is such a place.
    pub fn slot(&self, k: usize) -> Option<usize>
        ensures value { result ≡ slot_of (front_of self.now) (size_of self.now) k }
        ensures is_place_k { (xs : List ℕ) → length xs ≡ size_of self.now → MatchOption result (length xs ≤ k) (λ j. (j < length xs) × (slice_index (held self.now xs) k ≡ slice_index xs j)) }
    {
        self.slot_number(k)
    }

    fn slot_number(&self, k: usize) -> Option<usize>
        ensures { result ≡ slot_of (front_of self.now) (size_of self.now) k }
    {
        if k >= self.size {
            return None;
        }
        let to_the_end = self.size - self.front;
        if k < to_the_end {
            Some(self.front + k)
        } else {
            Some(k - to_the_end)
        }
    }

    /// The front moves on by one slot, so that the old front is the last place.
    pub fn turn(&mut self)
        ensures size { size_of self.new ≡ size_of self.old }
        ensures front { front_of self.new ≡ next_front (front_of self.old) (size_of self.old) }
        ensures shifts { (xs : List ℕ) → (v : ℕ) → length xs ≡ size_of self.old → held self.new (slice_set xs (front_of self.old) v) ≡ shifted v (held self.old xs) }
    {
        self.move_on();
    }

    fn move_on(&mut self)
        ensures size { size_of self.new ≡ size_of self.old }
        ensures front { front_of self.new ≡ next_front (front_of self.old) (size_of self.old) }
    {
        if self.size - self.front > 1 {
            self.front += 1;
        } else {
            self.front = 0;
        }
    }
}
