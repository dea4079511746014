ghost use Rattle.std.specs.Prelude.{◌≡◌, ℕ, List, IfOk, count_by, length, nat_eq, replicate};
ghost use Rattle.dubp_atoms.specs.Same.{Text};
ghost use Rattle.dubp_atoms.specs.Walks.{others};
ghost use Rattle.dubp_wot.specs.Known.{KnowIssuers};
ghost use Rattle.dubp_wot.specs.Numbers.{AreBelow};
ghost use Rattle.dubp_wot.specs.Sought.{AreCounts, AreSought};

use crate::known::KnownIssuers;
use crate::web::Web;
use dubp_atoms::{Key, NoMemory};
use std::alloc::Global;
use std::marker::Model;

/// Keys of which those that reach a target are counted, with the numbers of the members among them: for many targets in one web.
///
/// A key that stands among them twice counts twice.
#[derive(Drop)]
pub struct Sought<'a> {
    keys: &'a [Key],
    numbers: Vec<usize>,
    /// By number, how often the key with this number stands among them.
    counts: Vec<usize>,
}

impl<'a> Model for Sought<'a> {
    ghost use Rattle.dubp_wot.specs.Sought.{SoughtKeys, AreCounts};

    ghost Value = { SoughtKeys };

    ghost view = { λ s. record { keys = s.keys.now; numbers = s.numbers.items } };

    ghost invariant = { λ s. AreCounts s.numbers.items s.counts.items };
}

impl<'a> Sought<'a> {
    /// The keys, with numbers for the members among them in what is known of the web.
    ///
    /// `NoMemory` where there is no memory for the numbers; what is known is true then, too.
    pub fn new<W: Web>(
        alloc: Global,
        web: &W,
        known: &mut KnownIssuers,
        keys: &'a [Key],
    ) -> Result<Sought<'a>, NoMemory>
        requires known { (members : List Text) (pairs : List (Text × Text)) → W.shows web.now members pairs → KnowIssuers members pairs known.old }
        ensures known { (members : List Text) (pairs : List (Text × Text)) → W.shows web.now members pairs → KnowIssuers members pairs known.new }
        ensures keys { IfOk result (λ sought. sought.keys ≡ keys.now) }
        ensures sought { IfOk result (λ sought. (members : List Text) (pairs : List (Text × Text)) → W.shows web.now members pairs → AreSought members known.new sought) }
    {
        let numbers = known.number_members(alloc, web, keys)?;
        let counts = count_each(alloc, &numbers, known.len())?;
        Ok(Sought {
            keys,
            numbers,
            counts,
        })
    }

    /// How many of the keys are members.
    pub(crate) fn count_members(&self) -> usize
        ensures { result ≡ length self.now.numbers }
    {
        self.numbers.len()
    }

    /// How often the key with this number stands among the keys.
    pub(crate) fn count(&self, number: usize) -> usize
        ensures { result ≡ count_by (nat_eq number) self.now.numbers }
    {
        if number < self.counts.len() {
            self.counts[number]
        } else {
            0
        }
    }

    /// How many of the keys are others than the target.
    pub(crate) fn count_others(&self, target: Key) -> usize
        ensures { result ≡ length (others self.now.keys target) }
    {
        count_others(self.keys, target)
    }
}

/// By number, how often each of these numbers below `size` stands in the list.
fn count_each(alloc: Global, numbers: &[usize], size: usize) -> Result<Vec<usize>, NoMemory>
    requires { AreBelow size numbers.now }
    ensures { IfOk result (λ counts. AreCounts numbers.now counts.items) }
{
    let mut counts = zeros(alloc, size)?;
    for number in numbers {
        counts[*number] += 1;
    }
    Ok(counts)
}

/// So many zeros.
fn zeros(alloc: Global, size: usize) -> Result<Vec<usize>, NoMemory>
    ensures { IfOk result (λ counts. counts.items ≡ replicate size 0) }
{
    vec![in alloc; 0; size].map_err(|_| NoMemory)
}

/// How many of the keys are others than the target.
fn count_others(keys: &[Key], target: Key) -> usize
    ensures { result ≡ length (others keys.now target) }
{
    keys.iter().filter(|key| target != **key).count()
}
