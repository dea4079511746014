ghost use Rattle.std.specs.Prelude.{◌≡◌, ◌<◌};
ghost use Rattle.dubp_pow.specs.Ladder.{table_row};

use std::marker::Model;

/// The first `N` rows of the table of handicaps, which are T(0), T(1) and so on, in millionths.
///
/// Contracts see it as the list of its rows.
#[derive(Clone, Copy, Debug)]
pub struct Ladder<const N: usize> {
    pub(crate) rows: [u64; N],
}

impl<const N: usize> Model for Ladder<N> {
    ghost use Rattle.std.specs.Prelude.{◌≡◌, ℕ, List, true};
    ghost use Rattle.dubp_pow.specs.Ladder.{is_table};

    ghost Value = { List ℕ };

    ghost view = { λ a. a.rows };

    ghost invariant = { λ a. is_table a.rows ≡ true };

    ghost inverse = { λ rows. record { rows = rows } };
}

impl<const N: usize> Ladder<N> {
    /// T(`h`), the row of the handicap `h`, which is below `N`. It takes no memory.
    pub fn at(&self, h: usize) -> u64
        requires { h < N }
        ensures { result ≡ table_row h }
    {
        self.rows[h]
    }
}
