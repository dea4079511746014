//! The line that is refused, found by places.
//!
//! `specs/Places` has a table of the places of a block's text, and which lines each takes. The first line that is not taken at its place is the
//! first with which the lines begin no block any more, which is how `dubp_block` says which line is refused: the two name one line. Protocol:
//! commands and answers.
#![tactic(auto)]

ghost use Rattle.dubp_places.specs.Places.{PlacesNameTheLine};

/// The line that is refused is the first that is not taken at its place.
pub fn places_name_the_line()
    ensures { PlacesNameTheLine }
{}
