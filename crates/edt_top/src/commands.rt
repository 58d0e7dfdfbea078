//! The commands that the words of a run may give.
ghost use Rattle.std.specs.Prelude.{◌≡◌, ◌↔◌, map, IsTrue, IfSome};
ghost use Rattle.std.specs.Option.{option_map};
ghost use Rattle.std.specs.String.{string_bytes};
ghost use Rattle.run_input.specs.FileWords.{is_file_word};
ghost use Rattle.edt_top.specs.Commands.{IsSoundCommand, command_from, command_of, command_on, command_value};

use edt_text::read_number;
use run_input::is_file_word;

// What a run does, by its words.
#[derive(Clone, Copy)]
pub enum Command<'a> {
    // It solves the problem file of this name.
    Solve(&'a str),
    // It locates the events of the control file of this name.
    Locate(&'a str),
    // It makes the problem of a seed, in a cube with so many nodes on each axis, and searches it.
    Demo(u64, u32),
}

// The command of the words `solve PROBLEM`, `locate CONTROL` and `demo SEED SIDE`. Other words have no shape.
pub fn command_of(words: &[String]) -> Option<Command<'_>>
    ensures value { option_map command_value result ≡ command_of (map string_bytes words.now) }
    ensures sound { IfSome result (λ command. IsSoundCommand (command_value command)) }
{
    match words {
        [word, name] => {
            if is_file_word(name.as_str().as_bytes()) {
                command_on(word.as_str(), name.as_str())
            } else {
                None
            }
        }
        [word, seed, side] => command_from(word.as_str(), seed.as_str(), side.as_str()),
        _ => None,
    }
}

// The command of a word, on the file of a name.
fn command_on<'a>(word: &str, name: &'a str) -> Option<Command<'a>>
    requires file { IsTrue (is_file_word name.now) }
    ensures value { option_map command_value result ≡ command_on word.now name.now }
    ensures sound { IfSome result (λ command. IsSoundCommand (command_value command)) }
{
    match word {
        "solve" => Some(Command::Solve(name)),
        "locate" => Some(Command::Locate(name)),
        _ => None,
    }
}

// The command of a word, on a seed below 2^64 and a side from 1 to 64.
#[tactic(auto, unfolding(crate::specs::Commands::command_from))]
fn command_from<'a>(word: &str, seed: &str, side: &str) -> Option<Command<'a>>
    ensures value { option_map command_value result ≡ command_from word.now seed.now side.now }
    ensures sound { IfSome result (λ command. IsSoundCommand (command_value command)) }
{
    if word != "demo" {
        return None;
    }
    let seed = read_number(seed.as_bytes())?;
    let side = read_number(side.as_bytes())?;
    if 1 <= side && side <= 64 {
        Some(Command::Demo(seed, side as u32))
    } else {
        None
    }
}
