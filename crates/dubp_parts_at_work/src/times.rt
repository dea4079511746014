ghost use Rattle.std.specs.Prelude.{◌≡◌, ◌<◌, ◌+◌, length, OnOk};
ghost use Rattle.dubp_time.specs.Median.{SameTimes};

use dubp_time::{Window, median};
use std::alloc::{AllocError, Global};
use std::mem::forget;
use std::test::Fail;

const ROOM: usize = 24;

/// The next number of a linear congruential generator.
fn next(number: u64) -> u64 {
    number
        .wrapping_mul(6364136223846793005)
        .wrapping_add(1442695040888963407)
}

/// Puts a time to both.
fn insert_both(window: &mut Window, times: &mut Vec<u64>, t: u64) -> Result<(), AllocError>
    requires room { length times.old.items < window.old.room }
    requires same { SameTimes window.old.times times.old.items }
    ensures same { OnOk result (SameTimes window.new.times times.new.items) }
    ensures room { window.new.room ≡ window.old.room }
{
    window.insert(t);
    times.push(t)?;
    Ok(())
}

/// Takes the time at a place of the list from both.
fn remove_both(window: &mut Window, times: &mut Vec<u64>, place: usize)
    requires within { place < length times.old.items }
    requires same { SameTimes window.old.times times.old.items }
    ensures same { SameTimes window.new.times times.new.items }
    ensures room { window.new.room ≡ window.old.room }
{
    let t = times.remove(place);
    window.remove(t);
}

/// Puts a time to both or takes one from both, as the draw says, with at most `ROOM` times.
fn change_both(window: &mut Window, times: &mut Vec<u64>, draw: u64) -> Result<(), AllocError>
    requires room { window.old.room ≡ ROOM }
    requires same { SameTimes window.old.times times.old.items }
    ensures same { OnOk result (SameTimes window.new.times times.new.items) }
    ensures room { window.new.room ≡ ROOM }
{
    let len = times.len();
    if len == 0 || (len < ROOM && draw % 2 == 0) {
        return insert_both(window, times, (draw >> 7) % 50);
    }
    remove_both(window, times, draw as usize % len);
    Ok(())
}

// Times, and their median.
const MEDIANS: [(&[u64], Option<u64>); 6] = [
    (&[], None),
    (&[7], Some(7)),
    (&[1301, 1000], Some(1150)),
    (&[9, 1, 5], Some(5)),
    (&[4, 4, 4, 9], Some(4)),
    (&[8, 1, 2, 5], Some(3)),
];

#[test]
fn medians(rt: HostRuntime) {
    for (times, middle) in &MEDIANS {
        assert!(rt; median(rt.alloc(), times) == Ok(*middle));
    }
}

/// The first of a thousand changes behind which the window has another median than the list.
fn first_difference(
    alloc: Global,
    window: &mut Window,
    times: &mut Vec<u64>,
) -> Result<Option<u64>, Fail>
    requires room { window.old.room ≡ ROOM }
    requires same { SameTimes window.old.times times.old.items }
{
    let mut number = 1;
    for step in 0..1000 {
        number = next(number);
        change_both(window, times, number >> 33)?;
        if window.middle() != median(alloc, times)? {
            return Ok(Some(step));
        }
    }
    Ok(None)
}

#[test]
fn window_against_median(rt: HostRuntime) -> Result<(), Fail> {
    let mut window = Window::new(rt.alloc(), ROOM)?;
    let mut times = Vec::new(rt.alloc());
    let found = first_difference(rt.alloc(), &mut window, &mut times);
    forget(times);
    forget(window);
    assert!(rt; found?.is_none());
    Ok(())
}
