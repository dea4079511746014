ghost use Rattle.std.specs.Prelude.{◌≡◌, ◌+◌, ◌<◌, None, get_or, length};
ghost use Rattle.dubp_least.specs.Matches.{measure_at, play, winner_at, AreBelow, ArePlayedBut, IsTournament};

use crate::least::Measure;

/// What a place holds. A place behind the last slot holds nothing.
pub(crate) fn value_at<V: Copy>(values: &[Option<V>], place: usize) -> Option<V>
    ensures { result ≡ get_or values.now place None }
{
    if place < values.len() {
        values[place]
    } else {
        None
    }
}

/// The place that wins at a node: a node behind the matches is a place itself.
pub(crate) fn winner_at(winners: &[usize], node: usize) -> usize
    ensures { result ≡ winner_at winners.now node }
{
    if node < winners.len() {
        winners[node]
    } else {
        node - winners.len()
    }
}

/// The winner of two places.
fn play_two<V: Copy, M: Measure<V>>(values: &[Option<V>], i: usize, j: usize) -> usize
    ensures { result ≡ play (measure_at M.measure values.now) i j }
{
    match (value_at(values, i), value_at(values, j)) {
        (None, _) => j,
        (Some(_), None) => i,
        (Some(v), Some(w)) => {
            if M::is_below(&v, &w) {
                i
            } else if M::is_below(&w, &v) {
                j
            } else {
                i.min(j)
            }
        }
    }
}

/// Plays the matches above a place again, where what it holds has changed.
pub(crate) fn play_above<V: Copy, M: Measure<V>>(
    values: &[Option<V>],
    winners: &mut [usize],
    place: usize,
)
    requires place { place < length winners.old }
    requires places { AreBelow winners.old }
    requires others { ArePlayedBut (measure_at M.measure values.now) winners.old (length winners.old + place) }
    ensures { IsTournament (measure_at M.measure values.now) winners.new }
{
    let _len = winners.len();
    let mut k = winners.len() + place;
    while 1 < k {
        k /= 2;
        let (left, right) = (winner_at(winners, 2 * k), winner_at(winners, 2 * k + 1));
        winners[k] = play_two::<V, M>(values, left, right);
    }
}

/// Plays all matches, from the last node to the first.
pub(crate) fn play_all<V: Copy, M: Measure<V>>(values: &[Option<V>], winners: &mut [usize])
    ensures { IsTournament (measure_at M.measure values.now) winners.new }
{
    let _len = winners.len();
    let mut k = winners.len();
    while 1 < k {
        k -= 1;
        let (left, right) = (winner_at(winners, 2 * k), winner_at(winners, 2 * k + 1));
        winners[k] = play_two::<V, M>(values, left, right);
    }
}
