ghost use Rattle.std.specs.Prelude.{◌≡◌, ◌↔◌, Contains, IsTrue};
ghost use Rattle.dubp_outside.specs.Memory.{next_call};

use std::marker::Model;

/// The numbers of the calls that fail, and the number of the next call, from 0.
///
/// Past the greatest `u64` there is no next number, so that no call fails from then on.
#[derive(Drop)]
pub struct Schedule {
    fails: Vec<u64>,
    next: Option<u64>,
}

impl Model for Schedule {
    ghost use Rattle.dubp_outside.specs.Memory.{ScheduleState, number_of};

    ghost Value = { ScheduleState };

    ghost view = { λ s. record { fails = s.fails.items; calls = number_of s.next } };
}

impl Schedule {
    /// The calls with these numbers fail, and the next call has the number 0.
    pub fn new(fails: Vec<u64>) -> Schedule
        ensures { result ≡ record { fails = fails.items; calls = 0 } }
    {
        Schedule {
            fails,
            next: Some(0),
        }
    }

    /// Counts one call, and tells whether it is one of those that fail.
    pub fn next_fails(&mut self) -> bool
        ensures listed { IsTrue result ↔ Contains self.old.fails self.old.calls }
        ensures counted { self.new ≡ record self.old { calls = next_call self.old.calls } }
    {
        // Taken before the test, so that a proof knows in both cases that each of the numbers fits a `u64`.
        let fails = self.fails.as_slice();
        let Some(call) = self.next else {
            return false;
        };
        let fails_now = fails.contains(&call);
        self.next = call.checked_add(1);
        fails_now
    }
}
