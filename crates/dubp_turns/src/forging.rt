//! The answer to FORGE, by the branches and the documents that wait.
ghost use Rattle.dubp_atoms.specs.Spelling.{IsNumber};
ghost use Rattle.std.specs.Prelude.{◌≡◌, []};
ghost use Rattle.dubp_turns.specs.Acting.{Forges};
ghost use Rattle.dubp_turns.specs.Told.{told_text};

use crate::branches::Branches;
use crate::stating::put_no_memory;
use crate::told::{Told, tell};
use dubp_atoms::{Key, Line};
use dubp_forge::forge_answer;
use dubp_forks::PeopleAndMoney;
use dubp_pool::Pool;
use std::alloc::Global;

/// Tells the answer to FORGE: the block that this key can issue at this time, of the documents that wait; nothing changes. The time is below 2^53.
pub(crate) fn forge_on<T: PeopleAndMoney>(
    alloc: Global,
    branches: &Branches<T>,
    pool: &Pool,
    key: Key,
    time: u64,
    line: &mut Line,
) -> Told
    requires time { IsNumber time }
    requires empty { line.old.items ≡ [] }
    ensures { Forges branches.now pool.now key time (told_text line.new.items result) }
{
    match forge_answer(
        alloc,
        branches.ledger(),
        pool,
        branches.verdicts(),
        key,
        time,
    ) {
        Ok(answer) => tell(answer, line),
        Err(_) => {
            put_no_memory(line);
            Told::InLine
        }
    }
}
