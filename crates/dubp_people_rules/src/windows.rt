//! How long ago something was made, or a line was written.
ghost use Rattle.std.specs.Prelude.{◌↔◌, ◌+◌, ◌≤◌, IsTrue, MatchOption, ⊤};
ghost use Rattle.dubp_chain.specs.Chains.{Chain};
ghost use Rattle.dubp_validity.specs.PeopleRules.{IsInWindow};
ghost use Rattle.dubp_people_rules.specs.Lines.{IsPast};

use dubp_block::Block;
use dubp_moving::Tables;
use dubp_registry::Registry;

/// Whether what was made at this time is at most `window` seconds old at `now`. Times are in seconds; what has none is not.
pub(crate) fn is_in_window(now: u64, window: u64, made: Option<u64>) -> bool
    ensures { IsTrue result ↔ IsInWindow now window made }
{
    match made {
        Some(made) => now <= made.saturating_add(window),
        None => false,
    }
}

/// Whether `now` is at least `wait` seconds behind the time, in seconds.
pub(crate) fn has_waited(now: u64, wait: u64, time: u64) -> bool
    ensures { IsTrue result ↔ (time + wait ≤ now) }
{
    time <= now && wait <= now - time
}

/// Whether `now` is at least `wait` seconds behind the median time of the block of the number, where one is given.
pub(crate) fn has_waited_since(
    registry: &Registry,
    now: u64,
    wait: u64,
    number: Option<u64>,
) -> bool
    ensures { (c : Chain) → ⟦<Registry as Tables<Block>>⟧.at registry.now c → (IsTrue result ↔ MatchOption number ⊤ (IsPast c now wait)) }
{
    match number {
        Some(number) => is_past(registry, now, wait, number),
        None => true,
    }
}

/// Whether `now` is at least `wait` seconds behind the median time of the block of the number.
pub(crate) fn is_past(registry: &Registry, now: u64, wait: u64, number: u64) -> bool
    ensures { (c : Chain) → ⟦<Registry as Tables<Block>>⟧.at registry.now c → (IsTrue result ↔ IsPast c now wait number) }
{
    match registry.time_numbered(number) {
        Some(time) => has_waited(now, wait, time),
        None => false,
    }
}
