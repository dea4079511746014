ghost use Rattle.std.specs.Prelude.{◌≡◌, ◌+◌, ◌-◌, ◌≤◌, ◌++◌, [], IsFalse, IsTrue, List, ℕ, length, drop, IfOk, OnOk, OnErr, ◌<◌, MatchOption};
ghost use Rattle.dubp_outside.specs.Causes.{HasCause};
ghost use Rattle.dubp_entries.specs.Cut.{BeginsNone, lacking};
ghost use Rattle.dubp_validity.specs.Rules.{longest_block};
ghost use Rattle.dubp_entries.specs.Entries.{Entry, Frame as frame_entry, HeadsFrame, IsWhole, Line as line_entry, longest_line};
ghost use Rattle.dubp_entries.specs.Turns.{EntryServed, EntryTurn};
ghost use Rattle.dubp_script.specs.Framed.{framed_command, framed_len};
ghost use Rattle.dubp_script.specs.Spelling.{Says};
ghost use Rattle.dubp_replay.specs.Turns.{State};
ghost use Rattle.dubp_turns.specs.Told.{told_text};
ghost use Rattle.dubp_entries.specs.Session.{Broke};
ghost use Rattle.dubp_entries.specs.Reading.{IsShown, Shows, Stands, StandsSomewhere, most_at_hand};
ghost use Rattle.dubp_entries.specs.Asking.{ShowsQuestion};
ghost use Rattle.dubp_entries.specs.Gathering.{TurnOwed, TurnOwedBroke};
ghost use Rattle.dubp_entries.specs.Remembered.{AreReplies, IsSettled};
ghost use Rattle.dubp_entries.specs.Serving.{TurnWritten, TurnBroke, ServedAll, Finished};

use crate::texts::put_bad;
use arrayvec::ArrayVec;
use dubp_atoms::{Line, Steps};
use dubp_entries::{
    Found, Gathered, InputEnd, Item, LONGEST_LINE, Phase, Remembered, flush, frame_head,
    is_question, keep, line_end, take_one,
};
use dubp_gen::PeopleAndMoney;
use dubp_laws::conserved;
use dubp_outside::{Failed, Sink, write_whole};
use dubp_script::{Framed, begins_command, read_asked, read_command};
use dubp_turns::{Node, Told, put_refused};
use std::alloc::Global;
use std::sync::ledger::Ledger as StepBook;

/// What a run answers with: a place for an answer of one line, since such a place is cleared whole where it is made; the answers that are still to be
/// written; and what lines were answered since the state last changed.
#[derive(Drop)]
pub struct AnswerBuffers {
    gathered: Gathered,
    line: Line,
    remembered: Remembered,
}

impl AnswerBuffers {
    /// Nothing is to be written, and nothing is remembered. It takes no memory.
    pub fn new(alloc: Global) -> AnswerBuffers
        ensures { (state : State) → IsSettled state result.gathered result.remembered }
    {
        AnswerBuffers {
            gathered: Gathered::new(),
            line: ArrayVec::new(),
            remembered: Remembered::new(alloc),
        }
    }
}

// An entry takes its turn. The answer of one that is sure to change nothing is gathered; before any other, what was gathered is written and what was
// remembered is forgotten, and its own answer is written behind its turn.
fn take_turn<T: PeopleAndMoney, K: Sink, L: StepBook>(
    node: &mut Node<T>,
    sink: &mut K,
    answers: &mut AnswerBuffers,
    item: Item<'_>,
    steps: &mut Steps<L>,
) -> Result<(), Failed>
    requires shown { IsShown item }
    requires replies { AreReplies node.old answers.old.remembered }
    ensures owed { OnOk result (TurnOwed node.old node.new (K.held sink.old) (K.held sink.new) answers.old.gathered answers.new.gathered item.entry) }
    ensures replies { OnOk result (AreReplies node.new answers.new.remembered) }
    ensures broke { OnErr result (TurnOwedBroke node.old node.new (K.held sink.old) (K.held sink.new) answers.old.gathered item.entry) }
    ensures cause { HasCause (K.faults sink.old) (K.faults sink.new) result }
{
    answers.line.clear();
    if is_question(&item) {
        return gather_turn(node, sink, answers, item, steps);
    }
    answers.remembered.clear();
    if let Err(failed) = flush(sink, &mut answers.gathered) {
        return Err(failed);
    }
    write_turn(node, sink, &mut answers.line, item, steps)
}

// An entry that is sure to change nothing takes its turn, and its answer is gathered: that which is remembered, or else it is asked for. Most are answered
// in one line.
fn gather_turn<T: PeopleAndMoney, K: Sink, L: StepBook>(
    node: &mut Node<T>,
    sink: &mut K,
    answers: &mut AnswerBuffers,
    item: Item<'_>,
    steps: &mut Steps<L>,
) -> Result<(), Failed>
    requires shown { IsShown item }
    requires question { ShowsQuestion item }
    requires empty { answers.old.line.items ≡ [] }
    requires replies { AreReplies node.old answers.old.remembered }
    ensures owed { OnOk result (TurnOwed node.old node.new (K.held sink.old) (K.held sink.new) answers.old.gathered answers.new.gathered item.entry) }
    ensures replies { OnOk result (AreReplies node.new answers.new.remembered) }
    ensures broke { OnErr result (TurnOwedBroke node.old node.new (K.held sink.old) (K.held sink.new) answers.old.gathered item.entry) }
    ensures cause { HasCause (K.faults sink.old) (K.faults sink.new) result }
{
    let asked = item.line();
    if let Some(answer) = answers.remembered.answer_to(asked) {
        return keep(sink, &mut answers.gathered, answer);
    }
    if tell_entry(node, &item, &mut answers.line) {
        answers.remembered.put(asked, answers.line.as_slice());
        return keep(sink, &mut answers.gathered, answers.line.as_slice());
    }
    gather_answer(node, sink, answers, item, steps)
}

// The same of an entry whose answer may be of many lines.
fn gather_answer<T: PeopleAndMoney, K: Sink, L: StepBook>(
    node: &mut Node<T>,
    sink: &mut K,
    answers: &mut AnswerBuffers,
    item: Item<'_>,
    steps: &mut Steps<L>,
) -> Result<(), Failed>
    requires shown { IsShown item }
    requires question { ShowsQuestion item }
    requires empty { answers.old.line.items ≡ [] }
    requires replies { AreReplies node.old answers.old.remembered }
    ensures owed { OnOk result (TurnOwed node.old node.new (K.held sink.old) (K.held sink.new) answers.old.gathered answers.new.gathered item.entry) }
    ensures replies { OnOk result (AreReplies node.new answers.new.remembered) }
    ensures broke { OnErr result (TurnOwedBroke node.old node.new (K.held sink.old) (K.held sink.new) answers.old.gathered item.entry) }
    ensures cause { HasCause (K.faults sink.old) (K.faults sink.new) result }
{
    node.laws();
    let asked = item.line();
    let told = answer_item(node, item, &mut answers.line, steps);
    let answer = told.bytes(&answers.line);
    answers.remembered.put(asked, answer);
    keep(sink, &mut answers.gathered, answer)
}

// Puts the answer to an entry into the line, where it is a query that is answered in one line, or a line that is sure to be no command; and behind it
// the money adds up. False of any other entry, which leaves the line empty.
fn tell_entry<T: PeopleAndMoney>(node: &Node<T>, item: &Item<'_>, line: &mut Line) -> bool
    requires { line.old.items ≡ [] }
    ensures empty { IsFalse result → line.new.items ≡ [] }
    ensures told { IsTrue result → (entry : Entry) → IsWhole entry → Shows item.now entry → EntryTurn node.now entry line.new.items node.now }
{
    node.ledger().laws();
    conserved();
    tell_item(node, item, line)
}

// Puts the answer to such an entry into the line.
fn tell_item<T: PeopleAndMoney>(node: &Node<T>, item: &Item<'_>, line: &mut Line) -> bool
    requires { line.old.items ≡ [] }
    ensures empty { IsFalse result → line.new.items ≡ [] }
    ensures told { IsTrue result → (entry : Entry) → IsWhole entry → Shows item.now entry → EntryServed node.now entry line.new.items node.now }
{
    match item {
        Item::LongLine => {
            put_bad(line);
            true
        }
        Item::Line(text) => tell_line(node, text, line),
        Item::Frame(_, _, _) => false,
        Item::LongFrame(_) => false,
    }
}

// The same of a line.
fn tell_line<T: PeopleAndMoney>(node: &Node<T>, text: &[u8], line: &mut Line) -> bool
    requires { line.old.items ≡ [] }
    ensures empty { IsFalse result → line.new.items ≡ [] }
    ensures told { IsTrue result → IsWhole (line_entry text.now) → EntryServed node.now (line_entry text.now) line.new.items node.now }
{
    if text.len() > LONGEST_LINE {
        put_bad(line);
        return true;
    }
    if begins_command(text) {
        return tell_query(node, text, line);
    }
    put_bad(line);
    true
}

// The same of a line that is not too long and begins with the word of a command.
fn tell_query<T: PeopleAndMoney>(node: &Node<T>, text: &[u8], line: &mut Line) -> bool
    requires fits { length text.now ≤ longest_line }
    requires empty { line.old.items ≡ [] }
    ensures empty { IsFalse result → line.new.items ≡ [] }
    ensures told { IsTrue result → IsWhole (line_entry text.now) → EntryServed node.now (line_entry text.now) line.new.items node.now }
{
    match read_asked(text) {
        Some(asked) => {
            node.tell(&asked, line);
            true
        }
        None => false,
    }
}

/// The node takes its turn, and the answer is written.
fn write_turn<T: PeopleAndMoney, K: Sink, L: StepBook>(
    node: &mut Node<T>,
    sink: &mut K,
    line: &mut Line,
    item: Item<'_>,
    steps: &mut Steps<L>,
) -> Result<(), Failed>
    requires { line.old.items ≡ [] }
    ensures written { OnOk result (TurnWritten node.old node.new (K.held sink.old) (K.held sink.new) item.entry) }
    ensures broke { OnErr result (TurnBroke node.old node.new (K.held sink.old) (K.held sink.new) item.entry) }
    ensures cause { HasCause (K.faults sink.old) (K.faults sink.new) result }
{
    let told = answer_item(node, item, line, steps);
    write_whole(sink, told.bytes(line))
}

// Tells the answer to an entry, and behind it the money adds up.
fn answer_item<T: PeopleAndMoney, L: StepBook>(
    node: &mut Node<T>,
    item: Item<'_>,
    line: &mut Line,
    steps: &mut Steps<L>,
) -> Told
    requires { line.old.items ≡ [] }
    ensures { (entry : Entry) → IsWhole entry → Shows item.entry entry → EntryTurn node.old entry (told_text line.new.items result) node.new }
{
    let told = answer_of(node, item, line, steps);
    node.ledger().laws();
    conserved();
    told
}

// Tells the answer to an entry.
fn answer_of<T: PeopleAndMoney, L: StepBook>(
    node: &mut Node<T>,
    item: Item<'_>,
    line: &mut Line,
    steps: &mut Steps<L>,
) -> Told
    requires { line.old.items ≡ [] }
    ensures { (entry : Entry) → IsWhole entry → Shows item.entry entry → EntryServed node.old entry (told_text line.new.items result) node.new }
{
    match item {
        Item::Line(text) => answer_line(node, text, line, steps),
        Item::Frame(framed, frame, last) => answer_frame(node, framed, frame, last, line, steps),
        Item::LongLine => {
            put_bad(line);
            Told::InLine
        }
        Item::LongFrame(last) => {
            answer_long_frame(node, last, line);
            Told::InLine
        }
    }
}

fn answer_line<T: PeopleAndMoney, L: StepBook>(
    node: &mut Node<T>,
    text: &[u8],
    line: &mut Line,
    steps: &mut Steps<L>,
) -> Told
    requires { line.old.items ≡ [] }
    ensures { IsWhole (line_entry text.now) → EntryServed node.old (line_entry text.now) (told_text line.new.items result) node.new }
{
    if text.len() > LONGEST_LINE {
        put_bad(line);
        return Told::InLine;
    }
    match read_command(text) {
        Some(command) => node.take_turn(&command, b"".as_slice(), line, steps),
        None => {
            put_bad(line);
            Told::InLine
        }
    }
}

fn answer_frame<T: PeopleAndMoney, L: StepBook>(
    node: &mut Node<T>,
    framed: Framed,
    frame: &[u8],
    last: u8,
    line: &mut Line,
    steps: &mut Steps<L>,
) -> Told
    requires { line.old.items ≡ [] }
    ensures { (head : List ℕ) → Says head (framed_command framed) → framed_len framed ≡ length frame.now → EntryServed node.old (frame_entry head frame.now last) (told_text line.new.items result) node.new }
{
    if last != b'\n' {
        put_bad(line);
        return Told::InLine;
    }
    node.take_turn(&framed.command(), frame, line, steps)
}

// The frame was read past, and the node is left as it is.
fn answer_long_frame<T: PeopleAndMoney>(node: &Node<T>, last: u8, line: &mut Line)
    requires { line.old.items ≡ [] }
    ensures { (head payload : List ℕ) → HeadsFrame head (length payload) → longest_block < length payload → EntryServed node.now (frame_entry head payload last) line.new.items node.now }
{
    node.laws();
    if last == b'\n' {
        return put_refused(b"X01", line);
    }
    put_bad(line);
}

fn skip(bytes: &[u8], count: usize) -> &[u8]
    requires { count ≤ length bytes.now }
    ensures { result.now ≡ drop count bytes.now }
{
    &bytes[count..]
}

/// Answers each whole command at hand, and writes all the answers. Gives how the bytes go on, and how many are left at hand.
pub fn serve<T: PeopleAndMoney, K: Sink, L: StepBook>(
    node: &mut Node<T>,
    sink: &mut K,
    answers: &mut AnswerBuffers,
    phase: Phase,
    hand: &[u8],
    steps: &mut Steps<L>,
) -> Result<(Phase, usize), Failed>
    requires stands { StandsSomewhere phase hand.now }
    requires settled { IsSettled node.old answers.old.gathered answers.old.remembered }
    ensures settled { OnOk result (IsSettled node.new answers.new.gathered answers.new.remembered) }
    ensures served { IfOk result (λ r. (bytes : List ℕ) → Stands phase hand.now bytes →
        ServedAll node.old node.new (K.held sink.old) (K.held sink.new) bytes r.0 (drop (length hand.now - r.1) hand.now)) }
    ensures left { IfOk result (λ r. (r.1 ≤ length hand.now) × (r.1 ≤ most_at_hand)) }
    ensures broke { OnErr result ((bytes : List ℕ) → Stands phase hand.now bytes →
        Broke node.old node.new (K.held sink.old) (K.held sink.new) bytes) }
    ensures cause { HasCause (K.faults sink.old) (K.faults sink.new) result }
{
    let mut phase = phase;
    let mut rest = hand;
    'commands: loop {
        match take_one(phase, rest) {
            Found::Wait => {
                if let Err(failed) = flush(sink, &mut answers.gathered) {
                    return Err(failed);
                }
                return Ok((phase, rest.len()));
            }
            Found::Pass(used, next) => {
                phase = next;
                rest = skip(rest, used);
            }
            Found::Got(used, item) => {
                if let Err(failed) = take_turn(node, sink, answers, item, steps) {
                    return Err(failed);
                }
                phase = Phase::Start;
                rest = skip(rest, used);
            }
        }
    }
}

/// Answers the last line where it lacks its LF, at the end of the input.
pub fn finish<T: PeopleAndMoney, K: Sink, L: StepBook>(
    node: &mut Node<T>,
    sink: &mut K,
    phase: Phase,
    hand: &[u8],
    steps: &mut Steps<L>,
) -> Result<InputEnd, Failed>
    ensures finished { IfOk result (λ end. (bytes : List ℕ) → Stands phase hand.now bytes → BeginsNone bytes →
        Finished node.old node.new (K.held sink.old) (K.held sink.new) bytes end) }
    ensures broke { OnErr result ((bytes : List ℕ) → Stands phase hand.now bytes → BeginsNone bytes →
        Broke node.old node.new (K.held sink.old) (K.held sink.new) (bytes ++ lacking bytes)) }
    ensures cause { HasCause (K.faults sink.old) (K.faults sink.new) result }
{
    match phase {
        Phase::LongFrame(_) => Ok(InputEnd::InsideFrame),
        Phase::LongLine => {
            let mut line: Line = ArrayVec::new();
            if let Err(failed) = write_turn(node, sink, &mut line, Item::LongLine, steps) {
                return Err(failed);
            }
            Ok(InputEnd::OnBoundary)
        }
        Phase::Start => finish_line(node, sink, hand, steps),
    }
}

fn finish_line<T: PeopleAndMoney, K: Sink, L: StepBook>(
    node: &mut Node<T>,
    sink: &mut K,
    hand: &[u8],
    steps: &mut Steps<L>,
) -> Result<InputEnd, Failed>
    ensures finished { IfOk result (λ end. BeginsNone hand.now →
        Finished node.old node.new (K.held sink.old) (K.held sink.new) hand.now end) }
    ensures broke { OnErr result (Broke node.old node.new (K.held sink.old) (K.held sink.new) (hand.now ++ lacking hand.now)) }
    ensures cause { HasCause (K.faults sink.old) (K.faults sink.new) result }
{
    if hand.is_empty() {
        return Ok(InputEnd::OnBoundary);
    }
    if let Some(_) = line_end(hand) {
        return Ok(InputEnd::InsideFrame);
    }
    match last_item(hand) {
        None => Ok(InputEnd::InsideFrame),
        Some(item) => finish_item(node, sink, item, hand, steps),
    }
}

// The line as an item, unless it heads a frame.
fn last_item<'a>(line: &'a [u8]) -> Option<Item<'a>>
    ensures { MatchOption result ((len : ℕ) × HeadsFrame line.now len) (λ item. ((len : ℕ) → HeadsFrame line.now len → ⊥) × Shows item (line_entry line.now)) }
{
    match frame_head(line) {
        None => Some(Item::Line(line)),
        Some(_) => None,
    }
}

fn finish_item<T: PeopleAndMoney, K: Sink, L: StepBook>(
    node: &mut Node<T>,
    sink: &mut K,
    item: Item<'_>,
    hand: &[u8],
    steps: &mut Steps<L>,
) -> Result<InputEnd, Failed>
    requires some { 0 < length hand.now }
    requires whole { IsWhole (line_entry hand.now) }
    requires shows { Shows item (line_entry hand.now) }
    ensures finished { IfOk result (λ end. Finished node.old node.new (K.held sink.old) (K.held sink.new) hand.now end) }
    ensures broke { OnErr result (Broke node.old node.new (K.held sink.old) (K.held sink.new) (hand.now ++ lacking hand.now)) }
    ensures cause { HasCause (K.faults sink.old) (K.faults sink.new) result }
{
    let mut line: Line = ArrayVec::new();
    match write_turn(node, sink, &mut line, item, steps) {
        Ok(()) => Ok(InputEnd::OnBoundary),
        Err(failed) => Err(failed),
    }
}
