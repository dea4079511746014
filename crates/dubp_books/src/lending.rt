use crate::books::Books;
use dubp_money_rules::Money;
use dubp_people::People;
use dubp_people_after::RulesOnPeople;
use dubp_people_and_money::LendsPeopleAndMoney;

impl<R: RulesOnPeople> LendsPeopleAndMoney for Books<R> {
    type People = People;

    type Money = Money;

    fn people(&self) -> &People {
        &self.tables.first
    }

    fn money(&self) -> &Money {
        &self.tables.second
    }
}
