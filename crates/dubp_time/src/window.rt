ghost use Rattle.std.specs.Prelude.{◌≡◌, ◌<◌, ◌≤◌, ◌+◌, ℕ, [], ◌∷◌, IfOk, length, slice_index};
ghost use Rattle.std.specs.List.Sorted.{IsNonDecreasing};
ghost use Rattle.dubp_time.specs.Median.{median_of, count_of, SameTimes};

use crate::medians::middle_of;
use dubp_atoms::NoMemory;
use std::alloc::Global;
use std::marker::Model;

/// Some times, at most as many as it has room for, whose median is at hand.
///
/// Contracts see it as its times in rising order, `times`, the number of times that it has room for,
/// `room`, and the number that fit the memory that it took, `capacity`.
#[derive(Debug, Drop)]
pub struct Window {
    times: Vec<u64>,
    room: usize,
}

impl Model for Window {
    ghost use Rattle.std.specs.Prelude.{vec_capacity};
    ghost use Rattle.dubp_time.specs.Contents.{Contents, IsLawful};

    ghost Value = { Contents };

    ghost view = { λ w. record {
      times = w.times.items;
      room = w.room;
      capacity = vec_capacity w.times;
    } };

    ghost invariant = { λ w. IsLawful w.times.items w.room (vec_capacity w.times) };
}

impl Window {
    /// An empty window with room for so many times. `NoMemory` where there is no memory for that many.
    pub fn new(alloc: Global, room: usize) -> Result<Window, NoMemory>
        ensures times { IfOk result (λ window. window.times ≡ []) }
        ensures room { IfOk result (λ window. window.room ≡ room) }
    {
        let times = Vec::with_capacity(alloc, room).map_err(|_| NoMemory)?;
        Ok(Window { times, room })
    }

    /// Takes a time in, also one that it has already. There is room for one more. It takes no memory.
    pub fn insert(&mut self, t: u64)
        requires { length self.old.times < self.old.room }
        ensures times { SameTimes self.new.times (t ∷ self.old.times) }
        ensures rising { IsNonDecreasing self.new.times }
        ensures len { length self.new.times ≡ length self.old.times + 1 }
        ensures room { self.new.room ≡ self.old.room }
        ensures capacity { self.new.capacity ≡ self.old.capacity }
    {
        let place = lower_bound(self.times.as_slice(), t);
        let inserted = self.times.insert(place, t);
        prove!(inserted.is_ok());
    }

    /// Takes out a time that it has, once where it has it more often. It takes no memory.
    pub fn remove(&mut self, t: u64)
        requires { 0 < count_of t self.old.times }
        ensures times { SameTimes self.old.times (t ∷ self.new.times) }
        ensures rising { IsNonDecreasing self.new.times }
        ensures len { length self.new.times + 1 ≡ length self.old.times }
        ensures room { self.new.room ≡ self.old.room }
        ensures capacity { self.new.capacity ≡ self.old.capacity }
    {
        let place = lower_bound(self.times.as_slice(), t);
        self.times.remove(place);
    }

    /// The median of the times, and None exactly where there are none. It takes no memory.
    pub fn middle(&self) -> Option<u64>
        ensures { result ≡ median_of self.now.times }
    {
        middle_of(self.times.as_slice())
    }
}

/// The first place of the times at which no smaller time than t stands, or their number where there is none.
fn lower_bound(rising: &[u64], t: u64) -> usize
    requires { IsNonDecreasing rising.now }
    ensures within { result ≤ length rising.now }
    ensures below { (k : ℕ) → k < result → slice_index rising.now k < t }
    ensures from { (k : ℕ) → result ≤ k → k < length rising.now → t ≤ slice_index rising.now k }
    ensures found { 0 < count_of t rising.now → (result < length rising.now) × (slice_index rising.now result ≡ t) }
{
    rising.partition_point(|earlier| *earlier < t)
}
