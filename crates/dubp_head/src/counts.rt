ghost use Rattle.std.specs.Prelude.{◌≡◌, ◌+◌, ◌-◌, ◌<◌, ◌≤◌, ◌^◌, List, [], ◌∷◌, length, map, min, set, take, slice_index_or, vec_capacity, OnOk};
ghost use Rattle.std.specs.Set.{distinct_count, unique_keys};
ghost use Rattle.dubp_atoms.specs.Same.{Text, same_text};
ghost use Rattle.dubp_time.specs.Median.{count_of};
ghost use Rattle.dubp_chain.specs.Heads.{blocks_of, doubled_median as doubled};
ghost use Rattle.dubp_head.specs.LastBlocks.{last_place};
ghost use Rattle.dubp_head.specs.Counts.{AreCounted, AreCountedOfSome, MayCome, MayGo, IsEntered, IsLeft, IsFalling, IsRankedOf, IsFirstPlace, IsLastPlace, IsLastCounted};

use dubp_atoms::NoMemory;
use std::alloc::Global;
use std::marker::Model;

/// How many of the last blocks of a chain each issuer issued. Those blocks are the frame.
///
/// Contracts see a `CountsState`. Of which chain they are is said by `AreCounted`. Only `reserve` takes memory.
#[derive(Drop)]
pub(crate) struct Counts {
    // For each issuer, in the order of their first blocks in the chain, how many blocks of the frame he issued.
    counts: Vec<u64>,
    // For each block of the chain, oldest first, the number of its issuer.
    numbers: Vec<usize>,
    // The counts that are not 0, the greatest first.
    ranked: Vec<u64>,
    // How many blocks the frame has.
    blocks: usize,
}

impl Model for Counts {
    ghost use Rattle.std.specs.Prelude.{min, vec_capacity};
    ghost use Rattle.dubp_head.specs.Counts.{CountsState};

    ghost Value = { CountsState };

    ghost view = { λ c. record {
      counts = c.counts.items;
      numbers = c.numbers.items;
      ranked = c.ranked.items;
      blocks = c.blocks;
      room = min (vec_capacity c.counts) (min (vec_capacity c.numbers) (vec_capacity c.ranked));
    } };
}

impl Counts {
    /// Those of no block.
    pub(crate) fn new(alloc: Global) -> Counts
        ensures counted { AreCounted result [] }
        ensures blocks { result.blocks ≡ 0 }
    {
        Counts {
            counts: Vec::new(alloc),
            numbers: Vec::new(alloc),
            ranked: Vec::new(alloc),
            blocks: 0,
        }
    }

    /// Takes memory for so many blocks.
    pub(crate) fn reserve(&mut self, count: usize) -> Result<(), NoMemory>
        ensures counted { (issuers : List Text) → AreCounted self.old issuers → AreCounted self.new issuers }
        ensures blocks { self.new.blocks ≡ self.old.blocks }
        ensures reserved { OnOk result (count ≤ self.new.room) }
        ensures room { self.old.room ≤ self.new.room }
    {
        reserve_all(&mut self.counts, count)?;
        reserve_all(&mut self.numbers, count)?;
        reserve_all(&mut self.ranked, count)
    }

    /// One block more, which comes into the frame. `earlier` is the place of the block that its issuer issued before; none where it is
    /// his first. There is room for it.
    pub(crate) fn push(&mut self, earlier: Option<usize>)
        requires { MayCome self.old earlier }
        ensures counted { (issuers : List Text) (k : Text) → earlier ≡ last_place issuers k → AreCounted self.old issuers → AreCounted self.new (k ∷ issuers) }
        ensures room { self.new.room ≡ self.old.room }
    {
        let number = self.enter(earlier);
        self.numbers.push_reserved(number);
        self.raise(number);
        self.blocks += 1;
    }

    // The number of the issuer of a block that comes. Where it is his first, he gets the next one, and no block yet.
    fn enter(&mut self, earlier: Option<usize>) -> usize
        requires { MayCome self.old earlier }
        ensures entered { (issuers : List Text) (k : Text) → earlier ≡ last_place issuers k → AreCounted self.old issuers → IsEntered self.new result issuers k }
        ensures numbers { self.new.numbers ≡ self.old.numbers }
        ensures blocks { self.new.blocks ≡ self.old.blocks }
        ensures room { self.new.room ≡ self.old.room }
    {
        match earlier {
            Some(place) => self.numbers[place],
            None => {
                let number = self.counts.len();
                self.counts.push_reserved(0);
                number
            }
        }
    }

    /// The newest block goes. `earlier` is the place of the block that its issuer issued before; none where it was his first.
    pub(crate) fn pop(&mut self, earlier: Option<usize>)
        requires { MayGo self.old }
        ensures counted { (issuers : List Text) (k : Text) → earlier ≡ last_place issuers k → AreCounted self.old (k ∷ issuers) → AreCounted self.new issuers }
        ensures room { self.new.room ≡ self.old.room }
    {
        self.leave();
        if earlier.is_none() {
            self.counts.pop();
        }
    }

    // The newest block goes, out of the frame too where it is there. Its issuer stays.
    fn leave(&mut self)
        requires { MayGo self.old }
        ensures left { (issuers : List Text) (k : Text) → AreCounted self.old (k ∷ issuers) → IsLeft self.new issuers k }
        ensures room { self.new.room ≡ self.old.room }
    {
        let number = self.numbers.pop().unwrap_or(0);
        if self.blocks > 0 {
            self.lower(number);
            self.blocks -= 1;
        }
    }

    /// The frame gets so many blocks, or all where there are fewer. Each block that comes or goes costs a look among the counts.
    pub(crate) fn settle(&mut self, frame: u64)
        requires { AreCountedOfSome self.old }
        ensures counted { (issuers : List Text) → AreCounted self.old issuers → AreCounted self.new issuers }
        ensures blocks { self.new.blocks ≡ min frame (length self.old.numbers) }
        ensures room { self.new.room ≡ self.old.room }
    {
        self.shrink_to(frame);
        self.grow_to(frame);
    }

    // The frame gets at most so many blocks.
    fn shrink_to(&mut self, frame: u64)
        requires { AreCountedOfSome self.old }
        ensures counted { (issuers : List Text) → AreCounted self.old issuers → AreCounted self.new issuers }
        ensures numbers { self.new.numbers ≡ self.old.numbers }
        ensures blocks { self.new.blocks ≡ min frame self.old.blocks }
        ensures room { self.new.room ≡ self.old.room }
    {
        for _ in frame..self.blocks as u64 {
            self.shrink();
        }
    }

    // The frame gets at least so many blocks, or all where there are fewer.
    fn grow_to(&mut self, frame: u64)
        requires { AreCountedOfSome self.old }
        ensures counted { (issuers : List Text) → AreCounted self.old issuers → AreCounted self.new issuers }
        ensures blocks { self.old.blocks ≤ frame → self.new.blocks ≡ min frame (length self.old.numbers) }
        ensures room { self.new.room ≡ self.old.room }
    {
        let wanted = frame.min(self.numbers.len() as u64);
        for _ in self.blocks as u64..wanted {
            self.grow();
        }
    }

    // The block just behind the frame comes in.
    fn grow(&mut self)
        requires counted { AreCountedOfSome self.old }
        requires behind { self.old.blocks < length self.old.numbers }
        ensures counted { (issuers : List Text) → AreCounted self.old issuers → AreCounted self.new issuers }
        ensures numbers { self.new.numbers ≡ self.old.numbers }
        ensures blocks { self.new.blocks ≡ self.old.blocks + 1 }
        ensures room { self.new.room ≡ self.old.room }
    {
        let number = self.numbers[self.numbers.len() - 1 - self.blocks];
        self.raise(number);
        self.blocks += 1;
    }

    // The oldest block of the frame goes out.
    fn shrink(&mut self)
        requires counted { AreCountedOfSome self.old }
        requires some { 0 < self.old.blocks }
        ensures counted { (issuers : List Text) → AreCounted self.old issuers → AreCounted self.new issuers }
        ensures numbers { self.new.numbers ≡ self.old.numbers }
        ensures blocks { self.new.blocks + 1 ≡ self.old.blocks }
        ensures room { self.new.room ≡ self.old.room }
    {
        let number = self.numbers[self.numbers.len() - self.blocks];
        self.lower(number);
        self.blocks -= 1;
    }

    // One block more of this issuer.
    fn raise(&mut self, number: usize)
        requires within { number < length self.old.counts }
        requires few { slice_index_or self.old.counts number 0 < 2 ^ 63 }
        requires ranked { IsRankedOf self.old.ranked self.old.counts }
        requires room { length self.old.counts ≤ self.old.room }
        ensures counts { self.new.counts ≡ set self.old.counts number (slice_index_or self.old.counts number 0 + 1) }
        ensures ranked { IsRankedOf self.new.ranked self.new.counts }
        ensures numbers { self.new.numbers ≡ self.old.numbers }
        ensures blocks { self.new.blocks ≡ self.old.blocks }
        ensures room { self.new.room ≡ self.old.room }
    {
        let count = self.counts[number];
        self.counts[number] = count + 1;
        if count == 0 {
            self.ranked.push_reserved(1);
        } else {
            let place = first_place_of(&self.ranked, count);
            self.ranked[place] = count + 1;
        }
    }

    // One block less of this issuer, who has some.
    fn lower(&mut self, number: usize)
        requires within { number < length self.old.counts }
        requires some { 0 < slice_index_or self.old.counts number 0 }
        requires ranked { IsRankedOf self.old.ranked self.old.counts }
        ensures counts { self.new.counts ≡ set self.old.counts number (slice_index_or self.old.counts number 0 - 1) }
        ensures ranked { IsRankedOf self.new.ranked self.new.counts }
        ensures numbers { self.new.numbers ≡ self.old.numbers }
        ensures blocks { self.new.blocks ≡ self.old.blocks }
        ensures room { self.new.room ≡ self.old.room }
    {
        let count = self.counts[number];
        self.counts[number] = count - 1;
        if count == 1 {
            self.ranked.pop();
        } else {
            let place = last_place_of(&self.ranked, count);
            self.ranked[place] = count - 1;
        }
    }

    /// How many issuers the frame has.
    pub(crate) fn issuers(&self) -> u64
        ensures { (issuers : List Text) → AreCounted self.now issuers → result ≡ distinct_count same_text (take self.now.blocks issuers) }
    {
        self.ranked.len() as u64
    }

    /// How many blocks of the frame the issuer has whose last block stands at this place; 0 for none.
    pub(crate) fn of_last(&self, last: Option<usize>) -> u64
        requires { IsLastCounted self.now last }
        ensures { (issuers : List Text) (k : Text) → last ≡ last_place issuers k → AreCounted self.now issuers
            → result ≡ blocks_of (take self.now.blocks issuers) k }
    {
        match last {
            Some(place) => self.counts[self.numbers[place]],
            None => 0,
        }
    }

    /// Twice the median of the blocks per issuer of the frame: the sum of the middle two, which are one where their number is odd.
    pub(crate) fn doubled_median(&self) -> u64
        requires { AreCountedOfSome self.now }
        ensures { (issuers : List Text) → AreCounted self.now issuers
            → result ≡ doubled (map (blocks_of (take self.now.blocks issuers)) (unique_keys same_text (take self.now.blocks issuers))) }
    {
        let count = self.ranked.len();
        if count == 0 {
            return 0;
        }
        self.ranked[(count - 1) / 2] + self.ranked[count / 2]
    }
}

fn reserve_all<T>(list: &mut Vec<T>, count: usize) -> Result<(), NoMemory>
    ensures items { list.new.items ≡ list.old.items }
    ensures reserved { OnOk result (count ≤ vec_capacity list.new) }
    ensures capacity { vec_capacity list.old ≤ vec_capacity list.new }
{
    let more = count.saturating_sub(list.len());
    list.reserve(more).map_err(|_| NoMemory)
}

// The first place at which this number stands.
fn first_place_of(ranked: &[u64], count: u64) -> usize
    requires falling { IsFalling ranked.now }
    requires there { 0 < count_of count ranked.now }
    ensures { IsFirstPlace ranked.now count result }
{
    ranked.partition_point(|other| *other > count)
}

// The last place at which this number stands.
fn last_place_of(ranked: &[u64], count: u64) -> usize
    requires falling { IsFalling ranked.now }
    requires there { 0 < count_of count ranked.now }
    ensures { IsLastPlace ranked.now count result }
{
    ranked.partition_point(|other| *other >= count) - 1
}
