//! The command that the words of a run may give.
ghost use Rattle.std.specs.Prelude.{◌≡◌, map};
ghost use Rattle.std.specs.Option.{option_map};
ghost use Rattle.std.specs.String.{string_bytes};
ghost use Rattle.check_top.specs.Commands.{command_of, command_value};

use run_input::is_file_word;

// What a run checks: the report of a name, by the control file of a name.
#[derive(Clone, Copy)]
pub struct Command<'a> {
    pub control: &'a str,
    pub report: &'a str,
}

// The command of the words `CONTROL REPORT`. Other words have no shape.
pub fn command_of(words: &[String]) -> Option<Command<'_>>
    ensures { option_map command_value result ≡ command_of (map string_bytes words.now) }
{
    match words {
        [control, report]
            if is_file_word(control.as_str().as_bytes())
                && is_file_word(report.as_str().as_bytes()) => {
            Some(Command {
                control: control.as_str(),
                report: report.as_str(),
            })
        }
        _ => None,
    }
}
