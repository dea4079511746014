ghost use Rattle.std.specs.Prelude.{◌≡◌, ◌<◌};

use dubp_atoms::{Key, NoMemory, Steps};
use dubp_cindex::{CIndex, CertRow, IssuerRow};
use dubp_undo::Tables;
use std::alloc::Global;
use std::marker::Brand;
use std::mem::forget;
use std::sync::ledger::{Blank, Ledger as StepBook};

// Three people, in the order of their keys.
#[derive(Clone, Copy)]
enum Person {
    Anna,
    Bert,
    Cleo,
}

#[derive(Clone, Copy)]
struct People {
    anna: Key,
    bert: Key,
    cleo: Key,
}

const ANNA_TO_BERT: CertRow = CertRow {
    made: 1_000,
    written: 1,
    live: true,
};

const CLEO_TO_BERT: CertRow = CertRow {
    made: 2_000,
    written: 2,
    live: true,
};

const CLEO_TO_ANNA: CertRow = CertRow {
    made: 3_000,
    written: 3,
    live: true,
};

// That of Cleo to Bert, which has ended.
const ENDED: CertRow = CertRow {
    made: 2_000,
    written: 2,
    live: false,
};

fn three_people() -> Option<People> {
    Some(People {
        anna: Key::read(b"4tsFXtKofD6jK8zwLymgXWAoMBzhFx7KNANhtK86mKzA")?,
        bert: Key::read(b"D9D2zaJoWYWveii1JRYLVK3J4Z7ZH3QczoKrnQeiM6mx")?,
        cleo: Key::read(b"HnFcSms8jzwngtVomTTnzudZx7SHUQY8sVE1y8yBmULk")?,
    })
}

fn key_of(people: &People, person: Person) -> Key {
    match person {
        Person::Anna => people.anna,
        Person::Bert => people.bert,
        Person::Cleo => people.cleo,
    }
}

fn some_key(people: &People, person: Option<Person>) -> Option<Key> {
    match person {
        Some(person) => Some(key_of(people, person)),
        None => None,
    }
}

// A question, and its answer.
#[derive(Clone, Copy)]
enum Answer {
    Row(Person, Person, Option<CertRow>),
    // Who has certified the first behind the second.
    Next(Person, Option<Person>, Option<Person>),
    Received(Person, u64),
    Issuer(Person, Option<IssuerRow>),
}

fn is_told(index: &CIndex, people: &People, answer: Answer) -> bool {
    match answer {
        Answer::Row(from, to, row) => index.row(key_of(people, from), key_of(people, to)) == row,
        Answer::Next(to, after, next) => {
            index.next_received(key_of(people, to), some_key(people, after))
                == some_key(people, next)
        }
        Answer::Received(to, count) => index.received(key_of(people, to)) == count,
        Answer::Issuer(from, row) => index.issuer(key_of(people, from)) == row,
    }
}

#[derive(Clone, Copy)]
enum Call {
    Mark,
    Put(Person, Person, CertRow),
    Back,
}

fn make<L: StepBook>(
    index: &mut CIndex,
    people: &People,
    call: Call,
    steps: &mut Steps<L>,
) -> Result<(), NoMemory> {
    match call {
        Call::Mark => return index.mark(),
        Call::Put(from, to, row) => {
            return index.put_row(key_of(people, from), key_of(people, to), row, steps);
        }
        Call::Back => {
            if index.depth() > 0 {
                index.back(steps);
            }
        }
    }
    Ok(())
}

const ONE_OF_ANNA: Option<IssuerRow> = Some(IssuerRow {
    stock: 1,
    written: 1,
});

const TWO_OF_CLEO: Option<IssuerRow> = Some(IssuerRow {
    stock: 2,
    written: 3,
});

const ONE_OF_CLEO: Option<IssuerRow> = Some(IssuerRow {
    stock: 1,
    written: 3,
});

// What is told while all certifications live.
static ALL_LIVE: [Answer; 11] = [
    Answer::Row(Person::Anna, Person::Bert, Some(ANNA_TO_BERT)),
    Answer::Row(Person::Cleo, Person::Bert, Some(CLEO_TO_BERT)),
    Answer::Row(Person::Bert, Person::Anna, None),
    Answer::Next(Person::Bert, None, Some(Person::Anna)),
    Answer::Next(Person::Bert, Some(Person::Anna), Some(Person::Cleo)),
    Answer::Next(Person::Bert, Some(Person::Cleo), None),
    Answer::Received(Person::Bert, 2),
    Answer::Received(Person::Cleo, 0),
    Answer::Issuer(Person::Anna, ONE_OF_ANNA),
    Answer::Issuer(Person::Cleo, TWO_OF_CLEO),
    Answer::Issuer(Person::Bert, None),
];

// What is told behind the end of Cleo's certification of Bert.
static ONE_HAS_ENDED: [Answer; 9] = [
    Answer::Row(Person::Anna, Person::Bert, Some(ANNA_TO_BERT)),
    Answer::Row(Person::Cleo, Person::Bert, Some(ENDED)),
    Answer::Row(Person::Bert, Person::Anna, None),
    Answer::Next(Person::Bert, Some(Person::Anna), None),
    Answer::Received(Person::Bert, 1),
    Answer::Received(Person::Cleo, 0),
    Answer::Issuer(Person::Anna, ONE_OF_ANNA),
    Answer::Issuer(Person::Cleo, ONE_OF_CLEO),
    Answer::Issuer(Person::Bert, None),
];

static NOTHING: [Answer; 4] = [
    Answer::Row(Person::Anna, Person::Bert, None),
    Answer::Received(Person::Bert, 0),
    Answer::Issuer(Person::Cleo, None),
    Answer::Next(Person::Bert, None, None),
];

// What is told behind a call.
#[derive(Clone, Copy)]
enum Told {
    Nothing,
    AllLive,
    OneHasEnded,
    Unasked,
}

fn answers_of(told: Told) -> &'static [Answer] {
    match told {
        Told::Nothing => &NOTHING,
        Told::AllLive => &ALL_LIVE,
        Told::OneHasEnded => &ONE_HAS_ENDED,
        Told::Unasked => &[],
    }
}

// A call, and what is told behind it.
type Row = (Call, Told);

// Anna and Cleo certify Bert, and Cleo certifies Anna.
static WRITTEN: [Row; 4] = [
    (Call::Mark, Told::Nothing),
    (
        Call::Put(Person::Cleo, Person::Bert, CLEO_TO_BERT),
        Told::Unasked,
    ),
    (
        Call::Put(Person::Anna, Person::Bert, ANNA_TO_BERT),
        Told::Unasked,
    ),
    (
        Call::Put(Person::Cleo, Person::Anna, CLEO_TO_ANNA),
        Told::AllLive,
    ),
];

// One ends, and the index goes back over the end and the beginning.
static ENDED_AND_BACK: [Row; 4] = [
    (Call::Mark, Told::AllLive),
    (
        Call::Put(Person::Cleo, Person::Bert, ENDED),
        Told::OneHasEnded,
    ),
    (Call::Back, Told::AllLive),
    (Call::Back, Told::Nothing),
];

fn goes_through<L: StepBook>(
    index: &mut CIndex,
    people: &People,
    rows: &[Row],
    steps: &mut Steps<L>,
) -> Result<bool, NoMemory> {
    let mut good = true;
    for (call, told) in rows {
        make(index, people, *call, steps)?;
        for answer in answers_of(*told) {
            good = good && is_told(index, people, *answer);
        }
    }
    Ok(good)
}

// The certifications of Anna are those that she has received, and then those that she has issued.
fn rows_are_listed(index: &CIndex, alloc: Global, people: &People) -> Result<bool, NoMemory> {
    let found = index.rows_of(alloc, people.anna)?;
    let wanted = [
        (people.cleo, people.anna, CLEO_TO_ANNA),
        (people.anna, people.bert, ANNA_TO_BERT),
    ];
    Ok(found.as_slice() == wanted.as_slice())
}

fn passes<L: StepBook>(
    index: &mut CIndex,
    alloc: Global,
    people: &People,
    steps: &mut Steps<L>,
) -> Result<bool, NoMemory> {
    let written = goes_through(index, people, &WRITTEN, steps)?;
    let listed = rows_are_listed(index, alloc, people)?;
    Ok(written && listed && goes_through(index, people, &ENDED_AND_BACK, steps)?)
}

fn counts_steps<L: StepBook>(alloc: Global, blank: Blank, people: &People) -> Result<bool, NoMemory>
    requires name { blank.name ≡ L.name }
    requires parts { blank.parts ≡ L.parts }
    requires some { 0 < blank.parts }
{
    let mut steps = Steps::<L>::open(blank);
    let mut index = CIndex::new(alloc);
    let good = passes(&mut index, alloc, people, &mut steps);
    forget(index);
    good
}

#[test]
fn a_certification_is_found_counted_and_ended(rt: HostRuntime) {
    match three_people() {
        None => assert!(rt; false),
        Some(people) => {
            let good = counts_steps::<Brand>(rt.alloc(), Blank::new(1), &people);
            assert!(rt; good == Ok(true));
        }
    }
}
