ghost use Rattle.std.specs.Prelude.{◌≡◌, ◌<◌, [], IfSome, IsTrue, MatchOption};
ghost use Rattle.std.specs.List.{Contains};
ghost use Rattle.std.specs.Option.{IsSomeAnd};
ghost use Rattle.dubp_entries.specs.Remembered.{Remembers, SaysNoRoom, reply};

use std::alloc::Global;
use std::marker::Model;

/// How many answers are remembered at most.
const MOST: usize = 1_024;

/// How many letters a line has at most whose answer is remembered.
const LONGEST_ASKED: usize = 128;

/// How many bytes an answer has at most that is remembered.
const LONGEST_ANSWER: usize = 65_536;

/// How many bytes are remembered at most, of lines and answers together.
const MOST_HELD: usize = 4_194_304;

/// How many letters at the end of a line decide its place.
const TELLING: usize = 16;

// A line and its answer, one behind the other.
#[derive(Drop)]
struct Kept {
    bytes: Vec<u8>,
    asked: usize,
}

impl Model for Kept {
    ghost use Rattle.std.specs.Prelude.{◌≤◌, length, take, drop};
    ghost use Rattle.dubp_entries.specs.Remembered.{Reply, SaysNoRoom, reply};

    ghost Value = { Reply };

    ghost view = { λ k. reply (take k.asked k.bytes.items) (drop k.asked k.bytes.items) };

    ghost invariant = { λ k. (k.asked ≤ length k.bytes.items) × ¬ (SaysNoRoom (drop k.asked k.bytes.items)) };
}

impl Kept {
    // `None` where there is no room.
    fn new(alloc: Global, asked: &[u8], answer: &[u8]) -> Option<Kept>
        requires { ¬ (SaysNoRoom answer.now) }
        ensures { IfSome result (λ kept. kept ≡ reply asked.now answer.now) }
    {
        let mut bytes = Vec::with_capacity(alloc, asked.len() + answer.len()).ok()?;
        bytes.extend_from_slice(asked).ok()?;
        bytes.extend_from_slice(answer).ok()?;
        Some(Kept {
            bytes,
            asked: asked.len(),
        })
    }

    // The answer, where this is the line.
    fn answer_to(&self, asked: &[u8]) -> Option<&[u8]>
        ensures reply { IfSome result (λ answer. self.now ≡ reply asked.now answer.now) }
        ensures room { IfSome result (λ answer. ¬ (SaysNoRoom answer.now)) }
    {
        let (line, answer) = self.bytes.as_slice().split_at(self.asked);
        if line == asked { Some(answer) } else { None }
    }
}

/// What lines were answered since the state last changed: at most 1,024 lines of at most 128 letters, with answers of at most 64 KiB, and 4 MiB of
/// both together.
///
/// Contracts see it as the list of replies, the oldest first. It is a help alone: whether an answer is found again is not promised.
#[derive(Drop)]
pub struct Remembered {
    alloc: Global,
    replies: Vec<Kept>,
    // how many bytes they have; nothing rests on it but how much is kept
    held: usize,
    // where in the list the last reply stands whose line has this place; nothing rests on it, since the line is compared
    places: [u16; MOST],
}

impl Model for Remembered {
    ghost use Rattle.std.specs.Prelude.{List};
    ghost use Rattle.dubp_entries.specs.Remembered.{Reply};

    ghost Value = { List Reply };

    ghost view = { λ r. r.replies.items };
}

impl Remembered {
    /// Nothing is remembered. It takes no memory.
    pub fn new(alloc: Global) -> Remembered
        ensures { result ≡ [] }
    {
        Remembered {
            alloc,
            replies: Vec::new(alloc),
            held: 0,
            places: [0; MOST],
        }
    }

    /// Forgets all replies. It takes no memory.
    pub fn clear(&mut self)
        ensures { self.new ≡ [] }
    {
        self.replies.clear();
        self.held = 0;
    }

    /// The answer that is remembered for this line, where there is one. It takes no memory, and never says that there was no room.
    pub fn answer_to(&self, asked: Option<&[u8]>) -> Option<&[u8]>
        ensures answers { IfSome result (λ answer. IsSomeAnd asked.entry (λ line. Contains self.now (reply line.now answer.now))) }
        ensures room { IfSome result (λ answer. ¬ (SaysNoRoom answer.now)) }
    {
        let asked = asked?;
        let place = self.places[place_of(asked)] as usize;
        if place < self.replies.len() {
            self.replies[place].answer_to(asked)
        } else {
            None
        }
    }

    /// Remembers what a line was answered, unless one of them is long, the answer says that there was no room or that the line is no command, or there
    /// is no room.
    pub fn put(&mut self, asked: Option<&[u8]>, answer: &[u8])
        ensures { MatchOption asked.entry (self.new ≡ self.old) (λ line. Remembers self.old (reply line.now answer.now) self.new) }
    {
        if let Some(asked) = asked {
            if asked.len() <= LONGEST_ASKED && answer.len() <= LONGEST_ANSWER && tells(answer) {
                self.keep(asked, answer);
            }
        }
    }

    // Remembers what the line was answered, unless there is no room.
    fn keep(&mut self, asked: &[u8], answer: &[u8])
        requires { ¬ (SaysNoRoom answer.now) }
        ensures { Remembers self.old (reply asked.now answer.now) self.new }
    {
        let Some(kept) = Kept::new(self.alloc, asked, answer) else {
            return;
        };
        let size = asked.len().saturating_add(answer.len());
        if self.replies.len() >= MOST || self.held.saturating_add(size) > MOST_HELD {
            self.clear();
        }
        let place = self.replies.len();
        if let Ok(()) = self.replies.push(kept) {
            self.places[place_of(asked)] = place as u16;
            self.held = self.held.saturating_add(size);
        }
    }
}

// Whether the answer is neither that there was no room nor that the line is no command.
fn tells(answer: &[u8]) -> bool
    ensures { IsTrue result → ¬ (SaysNoRoom answer.now) }
{
    answer != b"NOMEM\n".as_slice() && answer != b"BAD\n".as_slice()
}

// The place of a line.
fn place_of(asked: &[u8]) -> usize
    ensures { result < 1024 }
{
    let from = asked.len().saturating_sub(TELLING);
    let mut sum = asked.len();
    for letter in &asked[from..] {
        sum = sum.wrapping_mul(31).wrapping_add(*letter as usize);
    }
    if let Some(first) = asked.first() {
        sum = sum.wrapping_mul(31).wrapping_add(*first as usize);
    }
    sum % MOST
}
