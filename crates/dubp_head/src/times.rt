ghost use Rattle.std.specs.Prelude.{◌≡◌, ◌+◌, ◌<◌, ◌≤◌, ℕ, List, [], ◌++◌, length, OnOk, IfSome};
ghost use Rattle.std.specs.Option.{option_to_list};
ghost use Rattle.dubp_time.specs.Median.{count_of, median_of, SameTimes};

use dubp_atoms::NoMemory;
use dubp_time::Window;
use std::alloc::Global;
use std::marker::Model;

/// The times of the last blocks, whose median is at hand.
///
/// Contracts see the times, in rising order, and how many there is room for.
#[derive(Drop)]
pub(crate) struct Times {
    // None before the first widening.
    window: Option<Window>,
    width: usize,
}

impl Model for Times {
    ghost use Rattle.std.specs.Prelude.{◌≡◌, [], MatchOption};
    ghost use Rattle.std.specs.Option.{option_map_or};
    ghost use Rattle.dubp_head.specs.LastTimes.{TimesState};

    ghost Value = { TimesState };

    ghost view = { λ t. record {
      times = option_map_or (λ w. w.times) t.window [];
      width = t.width;
    } };

    ghost invariant = { λ t. MatchOption t.window (t.width ≡ 0) (λ w. w.room ≡ t.width) };
}

impl Times {
    /// No times, and room for none. It takes no memory.
    pub(crate) fn new() -> Times
        ensures times { result.times ≡ [] }
        ensures width { result.width ≡ 0 }
    {
        Times {
            window: None,
            width: 0,
        }
    }

    /// Takes memory for so many times, where there was less. There are no times.
    pub(crate) fn widen(&mut self, alloc: Global, width: usize) -> Result<(), NoMemory>
        requires { self.old.times ≡ [] }
        ensures times { self.new.times ≡ [] }
        ensures wide { OnOk result (width ≤ self.new.width) }
        ensures width { self.old.width ≤ self.new.width }
    {
        if self.width < width {
            let window = Window::new(alloc, width)?;
            self.window = Some(window);
            self.width = width;
        }
        Ok(())
    }

    /// Takes a time out that is there, and then a time in for which there is then room. It takes no memory.
    pub(crate) fn exchange(&mut self, gone: Option<u64>, come: Option<u64>)
        requires there { IfSome gone (λ t. 0 < count_of t self.old.times) }
        requires room { length self.old.times + length (option_to_list come) ≤ self.old.width + length (option_to_list gone) }
        ensures times { (others : List ℕ) → SameTimes self.old.times (option_to_list gone ++ others)
            → SameTimes self.new.times (option_to_list come ++ others) }
        ensures len { length self.new.times + length (option_to_list gone) ≡ length self.old.times + length (option_to_list come) }
        ensures width { self.new.width ≡ self.old.width }
    {
        if let Some(window) = &mut self.window {
            exchange(window, gone, come);
        }
    }

    /// The median of the times. None exactly where there are none. It takes no memory.
    pub(crate) fn middle(&self) -> Option<u64>
        ensures { result ≡ median_of self.now.times }
    {
        match &self.window {
            Some(window) => window.middle(),
            None => None,
        }
    }
}

fn exchange(window: &mut Window, gone: Option<u64>, come: Option<u64>)
    requires there { IfSome gone (λ t. 0 < count_of t window.old.times) }
    requires room { length window.old.times + length (option_to_list come) ≤ window.old.room + length (option_to_list gone) }
    ensures times { (others : List ℕ) → SameTimes window.old.times (option_to_list gone ++ others)
        → SameTimes window.new.times (option_to_list come ++ others) }
    ensures len { length window.new.times + length (option_to_list gone) ≡ length window.old.times + length (option_to_list come) }
    ensures room { window.new.room ≡ window.old.room }
{
    take_out(window, gone);
    take_in(window, come);
}

fn take_out(window: &mut Window, gone: Option<u64>)
    requires { IfSome gone (λ t. 0 < count_of t window.old.times) }
    ensures times { (others : List ℕ) → SameTimes window.old.times (option_to_list gone ++ others) → SameTimes window.new.times others }
    ensures len { length window.new.times + length (option_to_list gone) ≡ length window.old.times }
    ensures room { window.new.room ≡ window.old.room }
{
    if let Some(time) = gone {
        window.remove(time);
    }
}

fn take_in(window: &mut Window, come: Option<u64>)
    requires { length window.old.times + length (option_to_list come) ≤ window.old.room }
    ensures times { (others : List ℕ) → SameTimes window.old.times others → SameTimes window.new.times (option_to_list come ++ others) }
    ensures len { length window.new.times ≡ length window.old.times + length (option_to_list come) }
    ensures room { window.new.room ≡ window.old.room }
{
    if let Some(time) = come {
        window.insert(time);
    }
}
