//! People and money of a chain as one: its tables, behind which a block is written, and the rules that are asked of them.
//!
//! `Books` moves people and money together, as one pair of tables. It judges a block by the rules on people and then by those on money,
//! and writes one into both: the records of people come first. Of the records it hands out those that tell what ended and what was
//! cleared, and beside them who was paid and by which hashes the transactions are named. Which type has the rules on people is a
//! parameter (`RulesOnPeople`): `PeopleRules` of `dubp_people_checks` are those that there are. Contracts see the chain that the tables
//! stand for.
//!
//! ```text
//! let mut books = Books::<PeopleRules>::new(alloc);
//! let broken = books.first_broken(alloc, &block, &head, &params, &verdicts)?;
//! let left = books.write(alloc, &block, &head, hashes, &mut steps)?;
//! ```
#![tactic(auto)]

mod answering;
mod books;
mod judging;
mod leaving;
mod lending;
mod writing;

pub use books::Books;
pub use dubp_money_rules::Money;
pub use dubp_people::People;
pub use dubp_people_after::RulesOnPeople;
pub use dubp_people_and_money::{Judges, LendsPeopleAndMoney, PeopleAndMoney};
