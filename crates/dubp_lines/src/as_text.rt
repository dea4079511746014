ghost use Rattle.std.specs.Prelude.{◌≡◌, ◌≤◌, List, ℕ, length};

use dubp_atoms::{Currency, Hash, Key, Sig, Uid};

/// A value that has its text at hand.
pub trait AsText {
    ghost text_of: { Self → List ℕ };

    /// Its text, of at most 100 bytes.
    fn as_text(&self) -> &[u8]
        ensures text { result.now ≡ text_of self.now }
        ensures fits { length result.now ≤ 100 };
}

impl AsText for Currency {
    ghost text_of = { λ currency. currency };

    fn as_text(&self) -> &[u8] {
        self.as_bytes()
    }
}

impl AsText for Hash {
    ghost text_of = { λ hash. hash };

    fn as_text(&self) -> &[u8] {
        self.as_bytes()
    }
}

impl AsText for Key {
    ghost text_of = { λ key. key };

    fn as_text(&self) -> &[u8] {
        self.as_bytes()
    }
}

impl AsText for Sig {
    ghost text_of = { λ sig. sig };

    fn as_text(&self) -> &[u8] {
        self.as_bytes()
    }
}

impl AsText for Uid {
    ghost text_of = { λ uid. uid };

    fn as_text(&self) -> &[u8] {
        self.as_bytes()
    }
}
