ghost use Rattle.std.specs.Prelude.{◌≡◌, ◌<◌};

use dubp_atoms::{Hash, Key, NoMemory, Steps};
use dubp_cond::SourceId;
use dubp_sindex::{SIndex, SourceRow};
use dubp_undo::Tables;
use std::alloc::Global;
use std::marker::Brand;
use std::mem::forget;
use std::sync::ledger::{Blank, Ledger as StepBook};

// 10 units of 10^1, of the account 0.
const OF_DIVIDEND: SourceRow = SourceRow {
    amount: 10,
    base: 1,
    account: 0,
    made_at: 1_000,
    order: 0,
};

// 40 units of the account 1.
const OF_OUTPUT: SourceRow = SourceRow {
    amount: 40,
    base: 0,
    account: 1,
    made_at: 1_000,
    order: 1,
};

#[derive(Clone, Copy)]
enum Source {
    Dividend,
    Output,
}

// A dividend and an output.
#[derive(Clone, Copy)]
struct Made {
    dividend: SourceId,
    output: SourceId,
}

fn two_sources() -> Option<Made> {
    Some(Made {
        dividend: SourceId::D {
            key: Key::read(b"HnFcSms8jzwngtVomTTnzudZx7SHUQY8sVE1y8yBmULk")?,
            block: 3,
        },
        output: SourceId::T {
            tx: Hash::read(b"E3B0C44298FC1C149AFBF4C8996FB92427AE41E4649B934CA495991B7852B855")?,
            index: 0,
        },
    })
}

fn id_of(made: &Made, source: Source) -> SourceId {
    match source {
        Source::Dividend => made.dividend,
        Source::Output => made.output,
    }
}

// A question, and its answer.
#[derive(Clone, Copy)]
enum Answer {
    Unspent(Source, Option<SourceRow>),
    Balance(usize, u128),
    Lowest(Option<(u128, usize)>),
}

fn is_told(index: &SIndex, made: &Made, answer: Answer) -> bool {
    match answer {
        Answer::Unspent(source, row) => index.unspent(id_of(made, source)) == row,
        Answer::Balance(account, units) => index.balance(account) == units,
        Answer::Lowest(lowest) => index.lowest() == lowest,
    }
}

#[derive(Clone, Copy)]
enum Call {
    Mark,
    Make(Source, SourceRow),
    Spend(Source),
    Back,
}

fn make<L: StepBook>(
    index: &mut SIndex,
    made: &Made,
    call: Call,
    steps: &mut Steps<L>,
) -> Result<(), NoMemory> {
    match call {
        Call::Mark => return index.mark(),
        Call::Make(source, row) => return index.make(id_of(made, source), row, steps),
        Call::Spend(source) => return index.spend(id_of(made, source), steps),
        Call::Back => {
            if index.depth() > 0 {
                index.back(steps);
            }
        }
    }
    Ok(())
}

// Both sources, the balances of their accounts, and the lowest of these.
static BOTH: [Answer; 6] = [
    Answer::Unspent(Source::Dividend, Some(OF_DIVIDEND)),
    Answer::Unspent(Source::Output, Some(OF_OUTPUT)),
    Answer::Balance(0, 100),
    Answer::Balance(1, 40),
    Answer::Balance(2, 0),
    Answer::Lowest(Some((40, 1))),
];

// The output is spent, so the other account has the lowest balance.
static ONE_IS_SPENT: [Answer; 4] = [
    Answer::Unspent(Source::Output, None),
    Answer::Unspent(Source::Dividend, Some(OF_DIVIDEND)),
    Answer::Balance(1, 0),
    Answer::Lowest(Some((100, 0))),
];

static NOTHING: [Answer; 3] = [
    Answer::Unspent(Source::Dividend, None),
    Answer::Balance(0, 0),
    Answer::Lowest(None),
];

// What is told behind a call.
#[derive(Clone, Copy)]
enum Told {
    Nothing,
    Both,
    OneIsSpent,
    Unasked,
}

fn answers_of(told: Told) -> &'static [Answer] {
    match told {
        Told::Nothing => &NOTHING,
        Told::Both => &BOTH,
        Told::OneIsSpent => &ONE_IS_SPENT,
        Told::Unasked => &[],
    }
}

// A call, and what is told behind it.
type Row = (Call, Told);

static BOTH_ARE_MADE: [Row; 3] = [
    (Call::Mark, Told::Nothing),
    (Call::Make(Source::Dividend, OF_DIVIDEND), Told::Unasked),
    (Call::Make(Source::Output, OF_OUTPUT), Told::Both),
];

// One is spent, and the index goes back over this and over both.
static SPENT_AND_BACK: [Row; 4] = [
    (Call::Mark, Told::Both),
    (Call::Spend(Source::Output), Told::OneIsSpent),
    (Call::Back, Told::Both),
    (Call::Back, Told::Nothing),
];

fn goes_through<L: StepBook>(
    index: &mut SIndex,
    made: &Made,
    rows: &[Row],
    steps: &mut Steps<L>,
) -> Result<bool, NoMemory> {
    let mut good = true;
    for (call, told) in rows {
        make(index, made, *call, steps)?;
        for answer in answers_of(*told) {
            good = good && is_told(index, made, *answer);
        }
    }
    Ok(good)
}

fn sources_are_listed(index: &SIndex, alloc: Global, made: &Made) -> Result<bool, NoMemory> {
    let found = index.sources(alloc, 0)?;
    Ok(found.as_slice() == [(made.dividend, OF_DIVIDEND)].as_slice())
}

fn passes<L: StepBook>(
    index: &mut SIndex,
    alloc: Global,
    made: &Made,
    steps: &mut Steps<L>,
) -> Result<bool, NoMemory> {
    let there = goes_through(index, made, &BOTH_ARE_MADE, steps)?;
    let listed = sources_are_listed(index, alloc, made)?;
    Ok(there && listed && goes_through(index, made, &SPENT_AND_BACK, steps)?)
}

fn counts_steps<L: StepBook>(alloc: Global, blank: Blank, made: &Made) -> Result<bool, NoMemory>
    requires name { blank.name ≡ L.name }
    requires parts { blank.parts ≡ L.parts }
    requires some { 0 < blank.parts }
{
    let mut steps = Steps::<L>::open(blank);
    let mut index = SIndex::new(alloc);
    let good = passes(&mut index, alloc, made, &mut steps);
    forget(index);
    good
}

#[test]
fn a_spent_source_comes_back(rt: HostRuntime) {
    match two_sources() {
        None => assert!(rt; false),
        Some(made) => {
            let good = counts_steps::<Brand>(rt.alloc(), Blank::new(1), &made);
            assert!(rt; good == Ok(true));
        }
    }
}
