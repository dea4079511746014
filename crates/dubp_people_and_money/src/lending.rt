ghost use Rattle.dubp_chain.specs.Chains.{Chain};
ghost use Rattle.dubp_kept.specs.KeptChain.{KeptChain, AreStates};

use crate::asking::PeopleAndMoney;
use dubp_block::Block;
use dubp_moving::Tables;

/// Tables of the people and the money of a chain that lend both.
///
/// Where their states are those of a chain, so are those of the people and of the money.
pub trait LendsPeopleAndMoney: PeopleAndMoney {
    /// The tables of the people.
    type People: Tables<Block>;

    /// The tables of the money.
    type Money: Tables<Block>;

    /// The people.
    fn people(&self) -> &Self::People
        ensures at { (c : Chain) → Self.at self.now c → Self.People.at result.now c }
        ensures states { (s : KeptChain) → AreStates (Self.is (Self.names self.now)) (Self.now self.now) (Self.count self.now) (Self.others self.now) s → AreStates (Self.People.is (Self.People.names result.now)) (Self.People.now result.now) (Self.People.count result.now) (Self.People.others result.now) s };

    /// The money.
    fn money(&self) -> &Self::Money
        ensures at { (c : Chain) → Self.at self.now c → Self.Money.at result.now c }
        ensures states { (s : KeptChain) → AreStates (Self.is (Self.names self.now)) (Self.now self.now) (Self.count self.now) (Self.others self.now) s → AreStates (Self.Money.is (Self.Money.names result.now)) (Self.Money.now result.now) (Self.Money.count result.now) (Self.Money.others result.now) s };
}
