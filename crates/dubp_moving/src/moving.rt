ghost use Rattle.std.specs.Prelude.{◌≡◌, ℕ, ◌+◌, ◌<◌, ◌≤◌, List, [], ◌∷◌, length, OnOk, OnErr, Option};
ghost use Rattle.dubp_moving.specs.Others.{Others, but_last};

use dubp_costs::{NoMemory, Steps};
use std::sync::ledger::Ledger as StepBook;

/// Tables of a chain of blocks `B` that move as one: they keep their states at the last blocks, go back to them, and forth.
///
/// Contracts see the states as values. A chain is the list of its blocks, newest first:
/// - `now t`: the state that t has, and `count t`: how many keys were set to it from the last kept state;
/// - `others t`: the states that are kept, those ahead, and the one from which these go on, each with how many keys were set to
///   it from the one before it. What is written leaves them as they are;
/// - `names t`: what is told by number in a state of t. No move changes them, and what is written only adds to them;
/// - `is m n c`: by the names m the state n is that of the chain c; `at t c`: `now` of t is, by the names of t;
/// - `spare t`: how many calls of `hold` take no memory.
///
/// Only `mark` and `reserve` take memory. Where they are refused, all states are as before.
pub trait Tables<B>: Drop {
    ghost Now: { Type 0 };

    ghost Names: { Type 0 };

    ghost now: { Self → Now };

    ghost count: { Self → ℕ };

    ghost others: { Self → Others Now };

    ghost spare: { Self → ℕ };

    ghost names: { Self → Names };

    ghost is: { Names → Now → List B → Type 0 };

    ghost at: { Self → List B → Type 0 };

    /// How many states are kept.
    fn depth(&self) -> usize
        ensures { result ≡ length (others self.now).kept };

    /// Keeps the state as it is now.
    fn mark(&mut self) -> Result<(), NoMemory>
        ensures kept { OnOk result ((others self.new).kept ≡ (now self.old, count self.old) ∷ (others self.old).kept) }
        ensures count { OnOk result (count self.new ≡ 0) }
        ensures now { now self.new ≡ now self.old }
        ensures ahead { (others self.new).ahead ≡ (others self.old).ahead }
        ensures root { (others self.new).root ≡ (others self.old).root }
        ensures names { names self.new ≡ names self.old }

        ensures refused { OnErr result (others self.new ≡ others self.old) }
        ensures refused_count { OnErr result (count self.new ≡ count self.old) };

    /// Takes back a mark after which no key was set.
    fn unmark(&mut self)
        requires past { 0 < length (others self.old).kept }
        requires fresh { count self.old ≡ 0 }
        ensures kept { (others self.old).kept ≡ (now self.new, count self.new) ∷ (others self.new).kept }
        ensures ahead { (others self.new).ahead ≡ (others self.old).ahead }
        ensures root { (others self.new).root ≡ (others self.old).root }
        ensures names { names self.new ≡ names self.old };

    /// Makes `spare` at least k.
    fn reserve(&mut self, k: usize) -> Result<(), NoMemory>
        requires { k ≤ length (others self.old).kept }
        ensures spare { OnOk result (k ≤ spare self.new) }
        ensures spare_stays { spare self.old ≤ spare self.new }
        ensures now { now self.new ≡ now self.old }
        ensures count { count self.new ≡ count self.old }
        ensures others { others self.new ≡ others self.old }
        ensures names { names self.new ≡ names self.old };

    /// Goes back to the last kept state.
    fn back<L: StepBook>(&mut self, steps: &mut Steps<L>)
        requires { 0 < length (others self.old).kept }
        ensures kept { (others self.old).kept ≡ (now self.new, count self.new) ∷ (others self.new).kept }
        ensures ahead { (others self.new).ahead ≡ (others self.old).ahead }
        ensures root { (others self.new).root ≡ (others self.old).root }
        ensures steps { steps.new ≡ steps.old + count self.old }
        ensures names { names self.new ≡ names self.old };

    /// Goes back to the last kept state, and keeps the way forward.
    fn hold<L: StepBook>(&mut self, steps: &mut Steps<L>)
        requires past { 0 < length (others self.old).kept }
        requires spare { 1 ≤ spare self.old }
        requires begins { 0 < length (others self.old).ahead → (c : List B) × (is (names self.old) (now self.old) c × is (names self.old) (others self.old).root c) }
        ensures kept { (others self.old).kept ≡ (now self.new, count self.new) ∷ (others self.new).kept }
        ensures ahead { (others self.new).ahead ≡ (now self.old, count self.old) ∷ (others self.old).ahead }
        ensures root { (others self.new).root ≡ now self.new }
        ensures spare { spare self.new + 1 ≡ spare self.old }
        ensures steps { steps.new ≡ steps.old + count self.old }
        ensures names { names self.new ≡ names self.old };

    /// Goes forward to the first state ahead, and keeps the one that was.
    fn again<L: StepBook>(&mut self, steps: &mut Steps<L>)
        requires past { 0 < length (others self.old).ahead }
        requires begins { (c : List B) × (is (names self.old) (now self.old) c × is (names self.old) (others self.old).root c) }
        ensures kept { (others self.new).kept ≡ (now self.old, count self.old) ∷ (others self.old).kept }
        ensures ahead { (others self.old).ahead ≡ (now self.new, count self.new) ∷ (others self.new).ahead }
        ensures root { (others self.new).root ≡ now self.new }
        ensures steps { steps.new ≡ steps.old + count self.new }
        ensures names { names self.new ≡ names self.old };

    /// Forgets the oldest kept state.
    fn drop_oldest(&mut self)
        requires { 0 < length (others self.old).kept }
        ensures kept { (others self.new).kept ≡ but_last (others self.old).kept }
        ensures now { now self.new ≡ now self.old }
        ensures count { count self.new ≡ count self.old }
        ensures ahead { (others self.new).ahead ≡ (others self.old).ahead }
        ensures root { (others self.new).root ≡ (others self.old).root }
        ensures names { names self.new ≡ names self.old };

    /// Forgets what is ahead.
    fn drop_ahead(&mut self)
        ensures kept { (others self.new).kept ≡ (others self.old).kept }
        ensures now { now self.new ≡ now self.old }
        ensures count { count self.new ≡ count self.old }
        ensures ahead { (others self.new).ahead ≡ [] }
        ensures names { names self.new ≡ names self.old };

    ghost is_at: { (t : Self) (c : List B) → is (names t) (now t) c → at t c };

    ghost at_is: { (t : Self) (c : List B) → at t c → is (names t) (now t) c };
}

/// Tables of a chain of states `S` that show the newest of it.
pub trait Shows<S>: Tables<S> {
    ghost shown: { Self → S };

    /// What is shown is the newest state, and it does not matter which states stand behind it.
    fn show(&self)
        ensures shown { (state : S) (states : List S) → Self.at self.now (state ∷ states) → shown self.now ≡ state }
        ensures at { (state : S) (states others : List S) → Self.at self.now (state ∷ states) → Self.at self.now (state ∷ others) };
}

/// What a table has at each key, for each chain of blocks `B`.
pub trait Definition<B, K, V> {
    ghost at: { List B → K → Option V };
}
