ghost use Rattle.std.specs.Prelude.{◌≡◌, [], ◌∷◌, ◌<◌, ◌≤◌, ◌^◌, length, reverse, take, map, slice_get, OnOk, OnErr, MatchOption, None, Some};
ghost use Rattle.std.specs.Option.{option_map};
ghost use Rattle.std.specs.Set.{distinct_count, unique_keys};
ghost use Rattle.dubp_params.specs.Ranges.{IsInRange};
ghost use Rattle.dubp_chain.specs.Heads.{newest, last_issued, blocks_of, doubled_median as doubled};
ghost use Rattle.dubp_atoms.specs.Same.{Text, same_text};
ghost use Rattle.dubp_head.specs.Frames.{frame_issuers, frame_of};
ghost use Rattle.dubp_head.specs.LastBlocks.{last_place, IsLastOfSome};
ghost use Rattle.dubp_head.specs.HeadsStates.{AreOver, KeepsRoom, median_over};
ghost use Rattle.dubp_head.specs.Totals.{total_of};

use crate::counts::Counts;
use crate::issuers::Issuers;
use crate::sizes::Sizes;
use crate::times::Times;
use dubp_atoms::{Key, NoMemory};
use dubp_chain::Head;
use dubp_params::Params;
use dubp_time::median_laws;
use std::alloc::Global;
use std::marker::Model;

/// The heads of a chain.
///
/// Contracts see a `HeadsState`: the list of heads, newest first, and how much comes back without memory.
#[derive(Drop)]
pub struct Heads {
    // Oldest first.
    heads: Vec<Head>,
    issuers: Issuers,
    counts: Counts,
    sizes: Sizes,
    // Those of the last `span` heads.
    times: Times,
    span: u64,
}

impl Model for Heads {
    ghost use Rattle.std.specs.Prelude.{reverse, min, vec_capacity};
    ghost use Rattle.dubp_head.specs.HeadsStates.{HeadsState};
    ghost use Rattle.dubp_head.specs.KeptHeads.{AreKept};

    ghost Value = { HeadsState };

    ghost view = { λ h. record {
      list = reverse h.heads.items;
      room = min (vec_capacity h.heads) (min h.issuers.room (min h.counts.room h.sizes.room));
      width = h.times.width;
      span = h.span;
    } };

    ghost invariant = { λ h. AreKept (reverse h.heads.items) h.issuers h.counts h.sizes h.times h.span };
}

impl Heads {
    /// No heads. It takes no memory.
    pub fn new(alloc: Global) -> Heads
        ensures { result.list ≡ [] }
    {
        Heads {
            heads: Vec::new(alloc),
            issuers: Issuers::new(alloc),
            counts: Counts::new(alloc),
            sizes: Sizes::new(alloc),
            times: Times::new(),
            span: 0,
        }
    }

    /// Puts a head behind the others. Its time is below 2^40, and the parameters are those of the chain with its block.
    ///
    /// `NoMemory` where there is no room for it; then the heads are as before. Neither `room` nor `width` falls.
    pub fn push(&mut self, head: Head, params: &Params) -> Result<(), NoMemory>
        requires time { head.time < 2 ^ 40 }
        requires valid { IsInRange params.now }
        requires over { AreOver self.old params.now }
        ensures pushed { OnOk result (self.new.list ≡ head ∷ self.old.list) }
        ensures span { OnOk result (self.new.span ≡ params.now.median_time_blocks) }
        ensures room { OnOk result (length self.new.list ≤ self.new.room) }
        ensures width { OnOk result (params.now.median_time_blocks ≤ self.new.width) }
        ensures keeps { KeepsRoom self.old self.new }
        ensures refused { OnErr result ((self.new.list ≡ self.old.list) × (self.new.span ≡ self.old.span)) }
    {
        self.reserve()?;
        self.widen(params)?;
        self.put_back(head, params);
        Ok(())
    }

    /// Takes the last head off and hands it out. There is one. It takes no memory.
    pub fn pop(&mut self) -> Head
        requires { 0 < length self.old.list }
        ensures popped { self.old.list ≡ result ∷ self.new.list }
        ensures span { self.new.span ≡ self.old.span }
        ensures keeps { KeepsRoom self.old self.new }
    {
        let come = self.time_before(self.span);
        let head = self.heads.pop().unwrap();
        let earlier = self.issuers.pop(&head.issuer);
        self.counts.pop(earlier);
        self.counts.settle(last_frame(&self.heads));
        self.sizes.pop();
        self.times.exchange(Some(head.time), come);
        head
    }

    /// Puts a head back behind the others, without memory: there are fewer heads than `room`, and medianTimeBlocks is at most
    /// `width`. Its time is below 2^40, and the parameters are those of the chain with its block.
    pub fn put_back(&mut self, head: Head, params: &Params)
        requires time { head.time < 2 ^ 40 }
        requires valid { IsInRange params.now }
        requires over { AreOver self.old params.now }
        requires room { length self.old.list < self.old.room }
        requires width { params.now.median_time_blocks ≤ self.old.width }
        ensures pushed { self.new.list ≡ head ∷ self.old.list }
        ensures span { self.new.span ≡ params.now.median_time_blocks }
        ensures keeps { KeepsRoom self.old self.new }
    {
        self.begin(params);
        self.put(head);
    }

    /// The last head. None exactly where there is none. It takes no memory.
    pub fn last(&self) -> Option<&Head>
        ensures { MatchOption result (newest self.now.list ≡ None) (λ h. newest self.now.list ≡ Some h.now) }
    {
        from_last(&self.heads, 0)
    }

    /// How many heads there are. It takes no memory.
    pub fn len(&self) -> usize
        ensures { result ≡ length self.now.list }
    {
        self.heads.len()
    }

    /// The head of the block that stands so many blocks before the last. None where there are not so many. It takes no memory.
    pub fn before(&self, count: u64) -> Option<&Head>
        ensures { MatchOption result (slice_get self.now.list count ≡ None) (λ h. slice_get self.now.list count ≡ Some h.now) }
    {
        from_last(&self.heads, count)
    }

    /// The size of the last so many blocks together, or of all where there are fewer. It takes no memory, and looks at no head.
    pub(crate) fn size_of_last(&self, count: u64) -> u128
        ensures { result ≡ total_of (take count self.now.list) }
    {
        self.sizes.of_last(count)
    }

    /// The median of the times of the last medianTimeBlocks blocks. None exactly where there is no head. It takes no memory, and
    /// looks at the middle of the times alone.
    pub fn median(&self) -> Option<u64>
        ensures { result ≡ median_over self.now }
    {
        median_laws();
        self.times.middle()
    }

    /// The head of the last block that the key issued. None exactly where it issued none. It takes no memory, and looks the key up.
    pub fn last_of(&self, key: &Key) -> Option<&Head>
        ensures { MatchOption result (last_issued self.now.list key.now ≡ None) (λ h. last_issued self.now.list key.now ≡ Some h.now) }
    {
        self.at_last(self.last_place(key))
    }

    /// The place of the last block that the key issued, counted from the oldest. None exactly where it issued none. It takes no
    /// memory, and looks the key up.
    pub(crate) fn last_place(&self, key: &Key) -> Option<usize>
        ensures { result ≡ last_place (map (λ h. h.issuer) self.now.list) key.now }
    {
        self.issuers.last_of(key)
    }

    /// The head of the last block that a key issued, from the place of that block. None exactly where there is no place. It takes no
    /// memory, and looks no key up.
    pub(crate) fn at_last(&self, last: Option<usize>) -> Option<&Head>
        requires { IsLastOfSome (map (λ h. h.issuer) self.now.list) last }
        ensures { (k : Text) → last ≡ last_place (map (λ h. h.issuer) self.now.list) k
            → MatchOption result (last_issued self.now.list k ≡ None) (λ h. last_issued self.now.list k ≡ Some h.now) }
    {
        match last {
            Some(place) => Some(&self.heads[place]),
            None => None,
        }
    }

    /// How many issuers the last frame has. It takes no memory.
    pub(crate) fn issuers_of_frame(&self) -> u64
        ensures { result ≡ distinct_count same_text (frame_issuers self.now.list) }
    {
        self.counts.issuers()
    }

    /// How many blocks of the last frame a key issued, from the place of its last block. It takes no memory, and looks no key up.
    pub(crate) fn blocks_of_last(&self, last: Option<usize>) -> u64
        requires { IsLastOfSome (map (λ h. h.issuer) self.now.list) last }
        ensures { (k : Text) → last ≡ last_place (map (λ h. h.issuer) self.now.list) k → result ≡ blocks_of (frame_issuers self.now.list) k }
    {
        self.counts.of_last(last)
    }

    /// Twice the median of the blocks per issuer of the last frame. It takes no memory, and looks at the middle of the counts alone.
    pub(crate) fn doubled_median(&self) -> u64
        ensures { result ≡ doubled (map (blocks_of (frame_issuers self.now.list)) (unique_keys same_text (frame_issuers self.now.list))) }
    {
        self.counts.doubled_median()
    }

    // Takes memory for one more head.
    fn reserve(&mut self) -> Result<(), NoMemory>
        ensures list { self.new.list ≡ self.old.list }
        ensures span { self.new.span ≡ self.old.span }
        ensures reserved { OnOk result (length self.new.list < self.new.room) }
        ensures keeps { KeepsRoom self.old self.new }
    {
        self.heads.reserve(1).map_err(|_| NoMemory)?;
        let count = self.heads.len() + 1;
        self.issuers.reserve(count)?;
        self.counts.reserve(count)?;
        self.sizes.reserve(count)
    }

    // Takes memory for as many times as these parameters ask for, where there is no head yet.
    fn widen(&mut self, params: &Params) -> Result<(), NoMemory>
        requires { AreOver self.old params.now }
        ensures list { self.new.list ≡ self.old.list }
        ensures span { self.new.span ≡ self.old.span }
        ensures room { self.new.room ≡ self.old.room }
        ensures wide { OnOk result (params.now.median_time_blocks ≤ self.new.width) }
        ensures width { self.old.width ≤ self.new.width }
    {
        if self.heads.is_empty() {
            let alloc = *self.heads.allocator();
            self.times.widen(alloc, params.median_time_blocks as usize)?;
        }
        Ok(())
    }

    // The median is taken over as many blocks as these parameters say, from the first head on.
    fn begin(&mut self, params: &Params)
        requires over { AreOver self.old params.now }
        requires width { params.now.median_time_blocks ≤ self.old.width }
        ensures list { self.new.list ≡ self.old.list }
        ensures span { self.new.span ≡ params.now.median_time_blocks }
        ensures room { self.new.room ≡ self.old.room }
        ensures width { self.new.width ≡ self.old.width }
    {
        if self.heads.is_empty() {
            self.span = params.median_time_blocks;
        }
    }

    // Puts a head behind the others. There is room for it.
    fn put(&mut self, head: Head)
        requires room { length self.old.list < self.old.room }
        requires span { 0 < self.old.span }
        ensures pushed { self.new.list ≡ head ∷ self.old.list }
        ensures span { self.new.span ≡ self.old.span }
        ensures room { self.new.room ≡ self.old.room }
        ensures width { self.new.width ≡ self.old.width }
    {
        let gone = self.time_before(self.span - 1);
        self.times.exchange(gone, Some(head.time));
        let earlier = self.issuers.push(head.issuer);
        self.counts.push(earlier);
        self.counts.settle(head.frame);
        self.sizes.push(head.size);
        self.heads.push_reserved(head);
    }

    // The time of the block that stands so many blocks before the last.
    fn time_before(&self, count: u64) -> Option<u64>
        ensures { result ≡ option_map (λ h. h.time) (slice_get self.now.list count) }
    {
        match self.before(count) {
            Some(head) => Some(head.time),
            None => None,
        }
    }
}

// How many blocks the last frame of these heads has, which stand oldest first.
fn last_frame(heads: &[Head]) -> u64
    ensures { result ≡ frame_of (reverse heads.now) }
{
    match from_last(heads, 0) {
        Some(last) => last.frame,
        None => 0,
    }
}

// The head so many places before the last.
fn from_last(heads: &[Head], count: u64) -> Option<&Head>
    ensures { MatchOption result (slice_get (reverse heads.now) count ≡ None) (λ h. slice_get (reverse heads.now) count ≡ Some h.now) }
{
    if count < heads.len() as u64 {
        Some(&heads[heads.len() - 1 - count as usize])
    } else {
        None
    }
}
