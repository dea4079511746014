ghost use Rattle.std.specs.Prelude.{◌≡◌, ◌+◌, ◌≤◌, ◌++◌, ⊤, List, ℕ, length};
ghost use Rattle.arrayvec.specs.ArrayVec.{array_vec_len};
ghost use Rattle.dubp_atoms.specs.Spelling.{stamp_text};
ghost use Rattle.dubp_cond.specs.Sources.{input_text, IsInput};
ghost use Rattle.dubp_cond.specs.Unlocks.{unlock_line_text, IsUnlockLine};
ghost use Rattle.dubp_cond.specs.Outputs.{output_text, IsOutput};

use dubp_atoms::{Key, Line, Stamp};
use dubp_cond::{Input, Output, UnlockLine, put_input, put_output, put_unlock};

/// A value that stands in a line of a document, alone or behind a name.
pub trait PutText {
    ghost spelling: { Self → List ℕ };

    ghost in_range: { Self → Type 0 };

    /// Appends its text. It is in range, and `out` has 1,100 free places. It takes no memory.
    fn put_text(&self, out: &mut Line)
        requires valid { in_range self.now }
        requires room { array_vec_len out.old + 1100 ≤ 2048 }
        ensures text { out.new.items ≡ out.old.items ++ spelling self.now }
        ensures room { array_vec_len out.new ≤ array_vec_len out.old + 1034 };
}

impl PutText for Key {
    ghost spelling = { λ key. key };

    ghost in_range = { λ _. ⊤ };

    fn put_text(&self, out: &mut Line) {
        self.put(out);
    }
}

impl PutText for Stamp {
    ghost spelling = { stamp_text };

    ghost in_range = { λ _. ⊤ };

    fn put_text(&self, out: &mut Line) {
        self.put(out);
    }
}

impl PutText for Input {
    ghost spelling = { input_text };

    ghost in_range = { IsInput };

    fn put_text(&self, out: &mut Line) {
        put_input(self, out);
    }
}

impl PutText for UnlockLine {
    ghost spelling = { unlock_line_text };

    ghost in_range = { IsUnlockLine };

    fn put_text(&self, out: &mut Line) {
        put_unlock(self, out);
    }
}

impl PutText for Output {
    ghost spelling = { output_text };

    ghost in_range = { IsOutput };

    fn put_text(&self, out: &mut Line) {
        put_output(self, out);
    }
}
