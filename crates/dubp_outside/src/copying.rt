ghost use Rattle.std.specs.Prelude.{◌≡◌, ◌+◌, ◌≤◌, ◌++◌, length, take, drop};

/// Copies the first `count` bytes of `from` to the front of `to`.
pub fn copy_front(from: &[u8], to: &mut [u8], count: usize)
    requires from { count ≤ length from.now }
    requires to { count ≤ length to.old }
    ensures front { take count to.new ≡ take count from.now }
    ensures rest { drop count to.new ≡ drop count to.old }
{
    to[..count].copy_from_slice(&from[..count]);
}

/// Copies all of `from` to the place `at` of `to`.
pub fn copy_behind(from: &[u8], to: &mut [u8], at: usize)
    requires { at + length from.now ≤ length to.old }
    ensures { take (at + length from.now) to.new ≡ take at to.old ++ from.now }
{
    to[at..at + from.len()].copy_from_slice(from);
}
