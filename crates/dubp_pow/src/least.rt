ghost use Rattle.std.specs.Prelude.{◌≡◌, ◌^◌, ◌<◌};
ghost use Rattle.dubp_params.specs.Ranges.{IsInRange};
ghost use Rattle.dubp_pow.specs.LeastDifficulty.{next_pow_min_of, step_up, step_down};

use dubp_params::{Params, max_gen_time, min_gen_time};

/// The least difficulty of a block, from that of the block before.
///
/// `moved` says whether the number of the next evaluation moved at this block. The last `range` blocks took `elapsed` seconds.
/// The parameters are in range, and `prev` is below 2^60. It takes no memory.
pub fn next_pow_min(prev: u64, moved: bool, range: u64, elapsed: u64, params: &Params) -> u64
    requires valid { IsInRange params.now }
    requires small { prev < 2 ^ 60 }
    ensures { result ≡ next_pow_min_of prev moved range elapsed params.now }
{
    if !moved {
        return prev;
    }
    let least = range as u128 * min_gen_time(params) as u128;
    let greatest = range as u128 * max_gen_time(params) as u128;
    if elapsed as u128 <= least {
        step_up(prev)
    } else if greatest <= elapsed as u128 {
        step_down(prev)
    } else {
        prev
    }
}

fn step_up(difficulty: u64) -> u64
    requires { difficulty < 2 ^ 60 }
    ensures { result ≡ step_up difficulty }
{
    if (difficulty + 2) % 16 == 0 {
        difficulty + 2
    } else {
        difficulty + 1
    }
}

fn step_down(difficulty: u64) -> u64
    ensures { result ≡ step_down difficulty }
{
    if difficulty % 16 == 0 {
        difficulty.saturating_sub(2)
    } else {
        difficulty - 1
    }
}
