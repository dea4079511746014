ghost use Rattle.std.specs.Prelude.{◌∷◌, []};
ghost use Rattle.dubp_session.specs.Forms.{HasForm};

use dubp_atoms::read_number;

/// How many blocks are generated at most.
const MOST_BLOCKS: u64 = 5000;

/// What the words of the command line ask for.
#[derive(Clone, Copy, PartialEq, Eq)]
pub enum Form {
    /// `run`: to answer the commands of the input.
    Run,
    /// `gen N START`: to generate `n` blocks, from 1 to 5,000, from a number.
    Gen { n: u64, start: u64 },
    /// Nothing that the program does.
    Other,
}

/// The form of the words, which do not include the program's name.
pub fn form_of(words: &[&str]) -> Form
    ensures { HasForm words.now result }
{
    match words {
        [word] => run_form(word),
        [word, count, number] => gen_form(word, count, number),
        _ => Form::Other,
    }
}

fn run_form(word: &&str) -> Form
    ensures { HasForm (word.now ∷ []) result }
{
    if *word == "run" {
        Form::Run
    } else {
        Form::Other
    }
}

fn gen_form(word: &&str, count: &&str, number: &&str) -> Form
    ensures { HasForm (word.now ∷ (count.now ∷ (number.now ∷ []))) result }
{
    if *word != "gen" {
        return Form::Other;
    }
    let Some(n) = read_number(count.as_bytes()) else {
        return Form::Other;
    };
    let Some(start) = read_number(number.as_bytes()) else {
        return Form::Other;
    };
    if n == 0 || n > MOST_BLOCKS {
        return Form::Other;
    }
    Form::Gen { n, start }
}
