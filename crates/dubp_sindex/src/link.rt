ghost use Rattle.std.specs.Prelude.{◌≡◌, None};
ghost use Rattle.dubp_sindex.specs.Links.{place_in};

use std::marker::Model;

/// The place of a source, or none, in one word: contracts see the `Option` of it.
#[derive(Clone, Copy, Debug, PartialEq, Eq)]
pub struct Link {
    // the greatest number stands for none
    word: usize,
}

impl Model for Link {
    ghost use Rattle.std.specs.Prelude.{ℕ, Option};
    ghost use Rattle.dubp_sindex.specs.Links.{place_in, word_of, word_of_place_in};

    ghost Value = { Option ℕ };

    ghost view = { λ l. place_in l.word };

    ghost inverse = { λ o. record { word = word_of o } };

    ghost inverse_ok = { λ l h i. record { word = word_of_place_in l.word i } };
}

impl Link {
    /// No place.
    pub fn none() -> Link
        ensures { result ≡ None }
    {
        Link { word: usize::MAX }
    }

    /// This place. The greatest number is none.
    pub fn to(place: usize) -> Link
        ensures { result ≡ place_in place }
    {
        Link { word: place }
    }

    /// The place, where there is one.
    pub fn place(self) -> Option<usize>
        ensures { result ≡ self }
    {
        if self.word == usize::MAX {
            None
        } else {
            Some(self.word)
        }
    }
}
