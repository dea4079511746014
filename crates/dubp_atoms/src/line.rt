ghost use Rattle.std.specs.Prelude.{◌≡◌, ◌+◌, ◌≤◌, ◌++◌, length};
ghost use Rattle.arrayvec.specs.ArrayVec.{array_vec_len};

use arrayvec::ArrayVec;

/// A line that is being written: at most 2,048 bytes, which lie in the value itself.
pub type Line = ArrayVec<u8, 2048>;

/// Appends bytes for which there is room. It takes no memory.
pub fn put_bytes(out: &mut Line, bytes: &[u8])
    requires { array_vec_len out.old + length bytes.now ≤ 2048 }
    ensures text { out.new.items ≡ out.old.items ++ bytes.now }
    ensures room { array_vec_len out.new ≡ array_vec_len out.old + length bytes.now }
{
    let _ = out.try_extend_from_slice(bytes);
}
