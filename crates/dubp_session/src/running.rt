ghost use Rattle.std.specs.Prelude.{◌≡◌, ◌⊎◌, ◌↔◌, ◌<◌, ◌≤◌, [], List, ℕ, Option, length, IfOk, OnOk, OnErr, true};
ghost use Rattle.dubp_outside.specs.Causes.{HasCause};
ghost use Rattle.dubp_laws.specs.Laws.{IsConserved};
ghost use Rattle.dubp_validity.specs.Rules.{IsValid};
ghost use Rattle.dubp_entries.specs.Ends.{Ends, Faults, LastEnds};
ghost use Rattle.dubp_entries.specs.Run.{at, AnsweredSome, AnsweredMost, AnsweredToEnd, BrokeOff, IsRun};
ghost use Rattle.dubp_entries.specs.Cut.{BeginsNone};
ghost use Rattle.dubp_entries.specs.Session.{Broke};
ghost use Rattle.dubp_entries.specs.Reading.{Stands, StandsSomewhere, most_at_hand};
ghost use Rattle.dubp_entries.specs.Remembered.{IsSettled};
ghost use Rattle.dubp_entries.specs.Serving.{ServedAll};
ghost use Rattle.dubp_session.specs.Statuses.{GenStatus, IsStatus, StatusFaults};
ghost use Rattle.dubp_session.specs.Forms.{GenEnds, GenFaults};
ghost use Rattle.dubp_session.specs.Generating.{AsksFor, GeneratedAll, GeneratedNone, GeneratedPart, IsGen};
ghost use Rattle.dubp_entries.specs.declared.ends.InputEnd.TheVariants.{OnBoundary, InsideFrame};

use crate::form::{Form, form_of};
use crate::generating::{GenEnding, generate};
use crate::serving::{AnswerBuffers, finish, serve};
use dubp_atoms::Steps;
use dubp_entries::{Buffer, Ending, InputEnd, Phase};
use dubp_gen::PeopleAndMoney;
use dubp_laws::conserved;
use dubp_outside::{Failed, Sink, Source};
use dubp_turns::Node;
use std::alloc::Global;
use std::marker::Brand;
use std::sync::ledger::{Blank, Ledger as StepBook};

/// The status where the input was read to its end, on the boundary of an entry, or what was generated was written.
pub const ENDED: u8 = 0;

/// The status where the words have no form of the program's.
pub const USAGE: u8 = 2;

/// The status where a read failed.
pub const READ_FAULT: u8 = 3;

/// The status where the input ended inside a frame.
pub const CUT_SHORT: u8 = 4;

/// The status where a write failed.
pub const WRITE_FAULT: u8 = 5;

/// The status where there was no room to begin, or to generate a chain.
pub const NO_ROOM: u8 = 6;

/// The status where as many bytes were taken as a run takes at most, and more would be needed.
pub const TOO_MUCH: u8 = 7;

/// How many bytes a run takes at most.
const MOST_TAKEN: u64 = 1 << 40;

/// The whole program, given its words: with `run` it reads commands from the source and writes their answers to the sink; with `gen N START` it
/// makes a chain of N blocks, from 1 to 5,000, from the number START, gives it to the node, and writes the words, the head and the money, or
/// at which block the making ends. Then the source is not read.
///
/// The status is 0 where the input was read to its end on the boundary of an entry, or what was asked for was written; 2 where the words
/// have neither form, 3 where a read failed, 4 where the input ended inside a frame, 5 where a write failed, 6 where there was no room to begin,
/// or none for the chain, and 7 where 2^40 bytes were taken and more would be needed.
pub fn run<T: PeopleAndMoney, S: Source, K: Sink>(
    alloc: Global,
    words: &[&str],
    source: &mut S,
    sink: &mut K,
    node: &mut Node<T>,
) -> u8
    ensures usage { (result ≡ USAGE) ↔ ¬ (IsRun words.now ⊎ IsGen words.now) }
    ensures statuses { IsStatus result }
    ensures unread { result ≡ USAGE → at node.new (S.left source.new) (K.held sink.new) ≡ at node.old (S.left source.old) (K.held sink.old) }
    ensures no_room { IsRun words.now → result ≡ NO_ROOM → at node.new (S.left source.new) (K.held sink.new) ≡ at node.old (S.left source.old) (K.held sink.old) }
    ensures ended { IsRun words.now → result ≡ ENDED → AnsweredToEnd OnBoundary (at node.old (S.left source.old) (K.held sink.old)) (at node.new (S.left source.new) (K.held sink.new)) }
    ensures cut_short { result ≡ CUT_SHORT → AnsweredToEnd InsideFrame (at node.old (S.left source.old) (K.held sink.old)) (at node.new (S.left source.new) (K.held sink.new)) }
    ensures read_fault { result ≡ READ_FAULT → AnsweredSome (at node.old (S.left source.old) (K.held sink.old)) (at node.new (S.left source.new) (K.held sink.new)) }
    ensures write_fault { IsRun words.now → result ≡ WRITE_FAULT → BrokeOff (at node.old (S.left source.old) (K.held sink.old)) (at node.new (S.left source.new) (K.held sink.new)) }
    ensures too_much { result ≡ TOO_MUCH → AnsweredMost (at node.old (S.left source.old) (K.held sink.old)) (at node.new (S.left source.new) (K.held sink.new)) }
    ensures faults { StatusFaults (S.faults source.old) (S.faults source.new) (K.faults sink.old) (K.faults sink.new) result }
    ensures last_read { result ≡ READ_FAULT → S.failing source.new ≡ true }
    ensures generates { IsGen words.now → GenStatus result }
    ensures generated { (n start : ℕ) → AsksFor words.now n start → result ≡ ENDED → GeneratedAll n start (at node.old (S.left source.old) (K.held sink.old)) (at node.new (S.left source.new) (K.held sink.new)) }
    ensures generated_part { (n start : ℕ) → AsksFor words.now n start → result ≡ WRITE_FAULT → GeneratedPart n start (at node.old (S.left source.old) (K.held sink.old)) (at node.new (S.left source.new) (K.held sink.new)) }
    ensures generated_none { (n start : ℕ) → AsksFor words.now n start → result ≡ NO_ROOM → GeneratedNone n start (at node.old (S.left source.old) (K.held sink.old)) (at node.new (S.left source.new) (K.held sink.new)) }
    ensures conserved { IsConserved node.new.chain }
    ensures valid { IsValid node.new.verdicts node.new.chain }
{
    let status = run_words(alloc, words, source, sink, node);
    node.ledger().laws();
    conserved();
    node.laws();
    status
}

// The same, of which the chain that it leaves needs no law.
fn run_words<T: PeopleAndMoney, S: Source, K: Sink>(
    alloc: Global,
    words: &[&str],
    source: &mut S,
    sink: &mut K,
    node: &mut Node<T>,
) -> u8
    ensures usage { (result ≡ USAGE) ↔ ¬ (IsRun words.now ⊎ IsGen words.now) }
    ensures statuses { IsStatus result }
    ensures unread { result ≡ USAGE → at node.new (S.left source.new) (K.held sink.new) ≡ at node.old (S.left source.old) (K.held sink.old) }
    ensures no_room { IsRun words.now → result ≡ NO_ROOM → at node.new (S.left source.new) (K.held sink.new) ≡ at node.old (S.left source.old) (K.held sink.old) }
    ensures ended { IsRun words.now → result ≡ ENDED → AnsweredToEnd OnBoundary (at node.old (S.left source.old) (K.held sink.old)) (at node.new (S.left source.new) (K.held sink.new)) }
    ensures cut_short { result ≡ CUT_SHORT → AnsweredToEnd InsideFrame (at node.old (S.left source.old) (K.held sink.old)) (at node.new (S.left source.new) (K.held sink.new)) }
    ensures read_fault { result ≡ READ_FAULT → AnsweredSome (at node.old (S.left source.old) (K.held sink.old)) (at node.new (S.left source.new) (K.held sink.new)) }
    ensures write_fault { IsRun words.now → result ≡ WRITE_FAULT → BrokeOff (at node.old (S.left source.old) (K.held sink.old)) (at node.new (S.left source.new) (K.held sink.new)) }
    ensures too_much { result ≡ TOO_MUCH → AnsweredMost (at node.old (S.left source.old) (K.held sink.old)) (at node.new (S.left source.new) (K.held sink.new)) }
    ensures faults { StatusFaults (S.faults source.old) (S.faults source.new) (K.faults sink.old) (K.faults sink.new) result }
    ensures last_read { result ≡ READ_FAULT → S.failing source.new ≡ true }
    ensures generates { IsGen words.now → GenStatus result }
    ensures generated { (n start : ℕ) → AsksFor words.now n start → result ≡ ENDED → GeneratedAll n start (at node.old (S.left source.old) (K.held sink.old)) (at node.new (S.left source.new) (K.held sink.new)) }
    ensures generated_part { (n start : ℕ) → AsksFor words.now n start → result ≡ WRITE_FAULT → GeneratedPart n start (at node.old (S.left source.old) (K.held sink.old)) (at node.new (S.left source.new) (K.held sink.new)) }
    ensures generated_none { (n start : ℕ) → AsksFor words.now n start → result ≡ NO_ROOM → GeneratedNone n start (at node.old (S.left source.old) (K.held sink.old)) (at node.new (S.left source.new) (K.held sink.new)) }
{
    match form_of(words) {
        Form::Other => USAGE,
        Form::Gen { n, start } => match generate_from::<T, K, Brand>(
            Blank::new(1),
            alloc,
            n,
            start,
            sink,
            node,
        ) {
            GenEnding::Written => ENDED,
            GenEnding::WriteFault => WRITE_FAULT,
            GenEnding::NoRoom => NO_ROOM,
        },
        Form::Run => {
            let Ok(mut buffer) = Buffer::new(alloc) else {
                return NO_ROOM;
            };
            let mut answers = AnswerBuffers::new(alloc);
            match session_from::<T, S, K, Brand>(
                Blank::new(1),
                &mut buffer,
                &mut answers,
                source,
                sink,
                node,
            ) {
                Ending::Ended(InputEnd::OnBoundary) => ENDED,
                Ending::Ended(InputEnd::InsideFrame) => CUT_SHORT,
                Ending::ReadFault => READ_FAULT,
                Ending::WriteFault => WRITE_FAULT,
                Ending::TooMuch => TOO_MUCH,
            }
        }
    }
}

fn generate_from<T: PeopleAndMoney, K: Sink, L: StepBook>(
    blank: Blank,
    alloc: Global,
    n: u64,
    start: u64,
    sink: &mut K,
    node: &mut Node<T>,
) -> GenEnding
    requires name { blank.name ≡ L.name }
    requires parts { blank.parts ≡ L.parts }
    requires some { 0 < blank.parts }
    requires few { n ≤ 5000 }
    ensures ends { (left : Option (List ℕ)) → GenEnds n start (at node.old left (K.held sink.old)) (at node.new left (K.held sink.new)) result }
    ensures faults { GenFaults (K.faults sink.old) (K.faults sink.new) result }
{
    let mut steps = Steps::<L>::open(blank);
    generate(alloc, n, start, sink, node, &mut steps)
}

fn session_from<T: PeopleAndMoney, S: Source, K: Sink, L: StepBook>(
    blank: Blank,
    buffer: &mut Buffer,
    answers: &mut AnswerBuffers,
    source: &mut S,
    sink: &mut K,
    node: &mut Node<T>,
) -> Ending
    requires name { blank.name ≡ L.name }
    requires parts { blank.parts ≡ L.parts }
    requires some { 0 < blank.parts }
    requires empty { buffer.old ≡ [] }
    requires settled { IsSettled node.old answers.old.gathered answers.old.remembered }
    ensures ends { Ends (at node.old (S.left source.old) (K.held sink.old)) (at node.new (S.left source.new) (K.held sink.new)) result }
    ensures faults { Faults (S.faults source.old) (S.faults source.new) (K.faults sink.old) (K.faults sink.new) result }
    ensures last_read { result ≡ Ending.ReadFault → S.failing source.new ≡ true }
{
    let mut steps = Steps::<L>::open(blank);
    session(buffer, answers, source, sink, node, &mut steps)
}

/// Reads entries and answers them, to the end of the input or the first fault.
pub fn session<T: PeopleAndMoney, S: Source, K: Sink, L: StepBook>(
    buffer: &mut Buffer,
    answers: &mut AnswerBuffers,
    source: &mut S,
    sink: &mut K,
    node: &mut Node<T>,
    steps: &mut Steps<L>,
) -> Ending
    requires empty { buffer.old ≡ [] }
    requires settled { IsSettled node.old answers.old.gathered answers.old.remembered }
    ensures ends { Ends (at node.old (S.left source.old) (K.held sink.old)) (at node.new (S.left source.new) (K.held sink.new)) result }
    ensures faults { Faults (S.faults source.old) (S.faults source.new) (K.faults sink.old) (K.faults sink.new) result }
    ensures last_read { result ≡ Ending.ReadFault → S.failing source.new ≡ true }
{
    let mut phase = Phase::Start;
    let mut taken = 0;
    'reads: loop {
        match answer_at_hand(buffer, answers, sink, node, phase, steps) {
            Ok(next) => phase = next,
            Err(_) => return Ending::WriteFault,
        }
        if taken >= MOST_TAKEN {
            return Ending::TooMuch;
        }
        match buffer.read_from(source, MOST_TAKEN - taken) {
            Err(_) => return Ending::ReadFault,
            Ok(0) => return end(buffer, sink, node, phase, steps),
            Ok(count) => taken += count as u64,
        }
    }
}

/// Answers each whole entry at hand, and keeps what is left.
fn answer_at_hand<T: PeopleAndMoney, K: Sink, L: StepBook>(
    buffer: &mut Buffer,
    answers: &mut AnswerBuffers,
    sink: &mut K,
    node: &mut Node<T>,
    phase: Phase,
    steps: &mut Steps<L>,
) -> Result<Phase, Failed>
    requires stands { StandsSomewhere phase buffer.old }
    requires settled { IsSettled node.old answers.old.gathered answers.old.remembered }
    ensures settled { OnOk result (IsSettled node.new answers.new.gathered answers.new.remembered) }
    ensures served { IfOk result (λ next. (bytes : List ℕ) → Stands phase buffer.old bytes →
        ServedAll node.old node.new (K.held sink.old) (K.held sink.new) bytes next buffer.new) }
    ensures left { OnOk result (length buffer.new ≤ most_at_hand) }
    ensures broke { OnErr result ((bytes : List ℕ) → Stands phase buffer.old bytes →
        Broke node.old node.new (K.held sink.old) (K.held sink.new) bytes) }
    ensures cause { HasCause (K.faults sink.old) (K.faults sink.new) result }
{
    match serve(node, sink, answers, phase, buffer.bytes(), steps) {
        Ok((next, left)) => {
            buffer.keep_last(left);
            Ok(next)
        }
        Err(failed) => Err(failed),
    }
}

fn end<T: PeopleAndMoney, K: Sink, L: StepBook>(
    buffer: &Buffer,
    sink: &mut K,
    node: &mut Node<T>,
    phase: Phase,
    steps: &mut Steps<L>,
) -> Ending
    ensures ends { (bytes : List ℕ) → Stands phase buffer.now bytes → BeginsNone bytes →
        LastEnds node.old node.new (K.held sink.old) (K.held sink.new) bytes result }
    ensures faults { (faults : ℕ) → Faults faults faults (K.faults sink.old) (K.faults sink.new) result }
{
    match finish(node, sink, phase, buffer.bytes(), steps) {
        Ok(end) => Ending::Ended(end),
        Err(_) => Ending::WriteFault,
    }
}
