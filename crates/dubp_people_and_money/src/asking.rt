ghost use Rattle.std.specs.Prelude.{◌≡◌, ◌∷◌, ◌++◌, ◌≤◌, [], IfOk, MatchOption, OnErr, OnOk, length, option_map, slice_get, take};
ghost use Rattle.std.specs.List.{AllByRecursion};
ghost use Rattle.dubp_block.specs.Text.{IsBlock};
ghost use Rattle.dubp_chain.specs.Chains.{Chain};
ghost use Rattle.dubp_chain.specs.Heads.{head_of};
ghost use Rattle.dubp_chain.specs.Live.{kick};
ghost use Rattle.dubp_chain.specs.Money.{sources_of};
ghost use Rattle.dubp_chain.specs.People.{identity};
ghost use Rattle.dubp_facts.specs.Facts.{first_at};
ghost use Rattle.dubp_validity.specs.Records.{records};
ghost use Rattle.dubp_validity.specs.Rules.{IsSound};
ghost use Rattle.dubp_replay.specs.Answers.{IsDistance, balance_answer, certs_answer, identity_answer, money_answer, none_answer, sources_answer, uid_answer};
ghost use Rattle.dubp_kept.specs.LeftBehind.{left_behind};
ghost use Rattle.dubp_answers.specs.SourceLines.{view_of};

use dubp_answers::SourceView;
use dubp_atoms::{Key, Line, NoMemory, Secret, Uid};
use dubp_block::Block;
use dubp_chain::Head;
use dubp_cond::CondText;
use dubp_facts::First;
use dubp_kept::{Judges, LeftBehind};
use dubp_moving::Tables;
use dubp_validity::Record;
use std::alloc::Global;

/// Tables of the people and the money of a chain, which a block is judged by and written into, and of which queries are asked.
///
/// What stands on a ledger is proved over any such tables. Each answer is that of the chain that they stand for. What a line is put into
/// is empty.
pub trait PeopleAndMoney: Judges {
    /// Those of the empty chain. What strangers choose is hashed by the secret. It takes no memory.
    fn empty(alloc: Global, secret: Secret) -> Self
        ensures at { Self.at result [] }
        ensures count { Self.count result ≡ 0 }
        ensures kept { (Self.others result).kept ≡ [] }
        ensures ahead { (Self.others result).ahead ≡ [] };

    /// What keys and conditions are hashed by, for sets that live as long as a block.
    fn secret(&self) -> Secret;

    /// The parameters and the currency of the chain. None exactly where it is empty. It takes no memory.
    fn first(&self) -> Option<First>
        ensures { (c : Chain) → Self.at self.now c → result ≡ first_at c tt };

    /// The keys that the chain has to exclude, by key. `NoMemory` where there is none for the list.
    fn kicked(&self, alloc: Global) -> Result<Vec<Key>, NoMemory>
        ensures { IfOk result (λ keys. (c : Chain) → Self.at self.now c → IsSound c → keys.items ≡ kick c) };

    /// Appends the records of a block of the chain, in the order of the protocol, from the block, its head and what it left behind.
    ///
    /// `NoMemory` where there is no room for them; some may have been appended then, behind what was there.
    fn put_records(
        &self,
        alloc: Global,
        block: &Block,
        head: &Head,
        left: &LeftBehind,
        out: &mut Vec<Record>,
    ) -> Result<(), NoMemory>
        requires { IsBlock block.now }
        ensures appended { OnOk result ((d c : Chain) → Self.at self.now (d ++ block.now ∷ c) → IsSound (d ++ block.now ∷ c) → AllByRecursion IsBlock (d ++ block.now ∷ c)
            → head_of (block.now ∷ c) ≡ Some head.now → left.now ≡ left_behind c block.now → out.new.items ≡ out.old.items ++ records c block.now) }
        ensures begins { take (length out.old.items) out.new.items ≡ out.old.items };

    /// Puts the answer to MONEY into an empty line. It takes no memory.
    fn put_money(&self, line: &mut Line)
        requires { line.old.items ≡ [] }
        ensures { (c : Chain) → Self.at self.now c → line.new.items ≡ money_answer c };

    /// Puts the answer to BALANCE into an empty line: the units that the condition of this text has. It takes no memory.
    fn put_balance(&self, cond: &CondText, line: &mut Line)
        requires { line.old.items ≡ [] }
        ensures { (c : Chain) → Self.at self.now c → line.new.items ≡ balance_answer c cond.now.items };

    /// Puts the answer to IDENTITY into an empty line. It takes no memory.
    fn put_identity(&self, key: Key, line: &mut Line)
        requires { line.old.items ≡ [] }
        ensures { (c : Chain) → Self.at self.now c → IsSound c → line.new.items ≡ identity_answer c key };

    /// Puts the answer to UID into an empty line. It takes no memory.
    fn put_uid(&self, uid: Uid, line: &mut Line)
        requires { line.old.items ≡ [] }
        ensures { (c : Chain) → Self.at self.now c → IsSound c → line.new.items ≡ uid_answer c uid };

    /// Puts the answer to DISTANCE into an empty line: how many of the sentries reach the key, or `NONE` where the key has no identity.
    ///
    /// `NoMemory` where there is no room for the search, and leaves the line empty.
    fn put_distance(&self, alloc: Global, key: Key, line: &mut Line) -> Result<(), NoMemory>
        requires { line.old.items ≡ [] }
        ensures told { OnOk result ((c : Chain) → Self.at self.now c → IsSound c → MatchOption (identity c key) (line.new.items ≡ none_answer) (λ _. IsDistance c key line.new.items)) }
        ensures refused { OnErr result (line.new.items ≡ []) };

    /// The answer to CERTS. `NoMemory` where there is no room for it.
    fn certs(&self, alloc: Global, key: Key) -> Result<Vec<u8>, NoMemory>
        ensures { IfOk result (λ text. (c : Chain) → Self.at self.now c → IsSound c → text.items ≡ certs_answer c key) };

    /// The answer to SOURCES, of the condition of this text. `NoMemory` where there is no room for it.
    fn sources(&self, alloc: Global, cond: &CondText) -> Result<Vec<u8>, NoMemory>
        ensures { IfOk result (λ text. (c : Chain) → Self.at self.now c → IsSound c → text.items ≡ sources_answer c cond.now.items) };

    /// The first unspent source of the condition of this text, in the order of making, or None where it has none. It takes no memory.
    fn first_source(&self, cond: &CondText) -> Option<SourceView>
        ensures { (c : Chain) → Self.at self.now c → IsSound c → result ≡ option_map view_of (slice_get (sources_of c cond.now.items) 0) };
}
