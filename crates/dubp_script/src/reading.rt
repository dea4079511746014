ghost use Rattle.std.specs.Prelude.{◌≡◌, IfSome, Some, option_map};
ghost use Rattle.dubp_script.specs.Spelling.{IsCommand, command_text};
ghost use Rattle.std.specs.Option.{option_or};
ghost use Rattle.dubp_script.specs.Reading.{asking_of, command_of, many_lines_of, other_of, pending_of};
ghost use Rattle.dubp_replay.specs.declared.command.Command.{Command as CommandValue};
ghost use Rattle.dubp_replay.specs.declared.command.Command.TheVariants.{Ask as AskCommand};

use crate::asking::one_line;
use crate::words::{
    SaidForging, SaidVerdict, cond_behind, forging_behind, hash_behind, key_behind, number_behind,
    stamp_behind, verdict_behind,
};
use dubp_replay::{Command, Query, filled};

/// The command that this line is, without its LF. None exactly where it is none. It takes no memory.
pub fn read_command(line: &[u8]) -> Option<Command>
    ensures found { IfSome result (λ c. IsCommand c × (line.now ≡ command_text c)) }
    ensures only { (c : CommandValue) → IsCommand c → line.now ≡ command_text c → result ≡ Some c }
{
    command(line)
}

// A command has room for the longest condition, so it is made where its line has been told, and nowhere before. Verdicts, which are most of the lines
// that are read here, have a function of their own, since a function clears all that it has when it begins.
#[tactic(auto, unfolding(crate::specs::Reading::command_of))]
fn command(line: &[u8]) -> Option<Command>
    ensures { result ≡ command_of line.now }
{
    if let Some(SaidVerdict { key, hash, sig }) = verdict_behind(b"VERDICT ", line) {
        return Some(Command::Verdict { key, hash, sig });
    }
    other(line)
}

// What is said by a command that is no verdict.
#[tactic(auto, unfolding(crate::specs::Reading::other_of, crate::specs::Reading::change_of, crate::specs::Reading::choice_of, crate::specs::Reading::statement_of))]
fn other(line: &[u8]) -> Option<Command>
    ensures { result ≡ other_of line.now }
{
    if let Some(len) = number_behind(b"BLOCK ", line) {
        return Some(Command::Block { len });
    }
    if let Some(count) = number_behind(b"REVERT ", line) {
        return Some(Command::Revert { count });
    }
    if let Some(len) = number_behind(b"OFFER ", line) {
        return Some(Command::Offer { len });
    }
    if let Some(stamp) = stamp_behind(b"SWITCH ", line) {
        return Some(Command::Switch { stamp });
    }
    if let Some(stamp) = stamp_behind(b"FORGET ", line) {
        return Some(Command::Forget { stamp });
    }
    if line == b"AUTO ON".as_slice() {
        return Some(Command::Auto { on: true });
    }
    if line == b"AUTO OFF".as_slice() {
        return Some(Command::Auto { on: false });
    }
    if line == b"FAILED".as_slice() {
        return Some(Command::Failures);
    }
    if let Some(text) = cond_behind(b"STATEMENT ", line) {
        let cond = filled(text);
        return Some(Command::Statement { cond });
    }
    pending(line)
}

// What is said of documents that wait, or what is asked.
#[tactic(auto, unfolding(crate::specs::Reading::pending_of))]
fn pending(line: &[u8]) -> Option<Command>
    ensures { result ≡ option_or (pending_of line.now) (asking_of line.now) }
{
    if let Some(len) = number_behind(b"PEND ", line) {
        return Some(Command::Pend { len });
    }
    if let Some(hash) = hash_behind(b"UNPEND ", line) {
        return Some(Command::Unpend { hash });
    }
    if let Some(SaidForging { key, time }) = forging_behind(b"FORGE ", line) {
        return Some(Command::Forge { key, time });
    }
    query(line)
}

// What is asked.
fn query(line: &[u8]) -> Option<Command>
    ensures { result ≡ asking_of line.now }
{
    if let Some(asked) = one_line(line) {
        return Some(Command::Ask(asked.query()));
    }
    long_query(line)
}

// What is asked and answered in many lines.
#[tactic(auto, unfolding(crate::specs::Reading::many_lines_of))]
fn long_query(line: &[u8]) -> Option<Command>
    ensures { result ≡ option_map AskCommand (many_lines_of line.now) }
{
    if let Some(key) = key_behind(b"CERTS ", line) {
        return Some(Command::Ask(Query::Certs { key }));
    }
    if let Some(text) = cond_behind(b"SOURCES ", line) {
        let cond = filled(text);
        return Some(Command::Ask(Query::Sources { cond }));
    }
    if let Some(number) = number_behind(b"RECORDS ", line) {
        return Some(Command::Ask(Query::Records { number }));
    }
    let number = number_behind(b"SHOW ", line)?;
    Some(Command::Ask(Query::Show { number }))
}
