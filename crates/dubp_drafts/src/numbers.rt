ghost use Rattle.std.specs.Prelude.{◌≡◌};
ghost use Rattle.dubp_drafts.specs.Numbers.{number_after};

const MULTIPLIER: u64 = 6_364_136_223_846_793_005;

const INCREMENT: u64 = 1_442_695_040_888_963_407;

/// The number that follows `x` in the run: `x` times a constant, and another added, modulo 2^64. It takes no memory.
pub fn next_number(x: u64) -> u64
    ensures { result ≡ number_after x }
{
    x.wrapping_mul(MULTIPLIER).wrapping_add(INCREMENT)
}
