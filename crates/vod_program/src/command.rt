//! The words of the program.
ghost use Rattle.std.specs.Prelude.{◌≡◌, ℕ, [], ◌∷◌, map, string_bytes, MatchOption};
ghost use Rattle.std.specs.Str.{bytes_eq};
ghost use Rattle.vod_program.specs.Command.{IsCommand, IsTime};
ghost use Rattle.vod_program.specs.declared.command.Command.{Command};

use vod_io::MAX_TIME;
use vod_text::decimal;
use vod_thin_window::Window;

/// What the program is asked for.
#[derive(Clone, Copy)]
pub enum Command {
    /// `record DESIGN LOG`
    Record,
    /// `window LOG A B`
    Window(Window),
    /// `dump DESIGN`
    Dump,
}

fn is(word: &str, text: &str) -> bool
    ensures { result ≡ bytes_eq word.now text.now }
{
    word == text
}

/// The time that 1 to 19 decimal digits write.
fn time_of(word: &str) -> Option<u64>
    ensures { MatchOption result ((time : ℕ) → IsTime word.now time → ⊥) (IsTime word.now) }
{
    decimal(word.as_bytes(), MAX_TIME).ok()
}

/// The window from one time to another.
fn window_of(from: &str, to: &str) -> Option<Window>
    ensures { MatchOption result ((a b : ℕ) → IsTime from.now a → IsTime to.now b → ⊥) (λ window. IsTime from.now window.from × IsTime to.now window.to) }
{
    let from = time_of(from)?;
    let to = time_of(to)?;
    Some(Window { from, to })
}

/// The command that the words are, if they are one.
pub fn command_of(words: &[String]) -> Option<Command>
    ensures { MatchOption result ((command : Command) → IsCommand (map string_bytes words.now) command → ⊥) (IsCommand (map string_bytes words.now)) }
{
    match words {
        [action, _] if is(action.as_str(), "dump") => Some(Command::Dump),
        [action, _, _] if is(action.as_str(), "record") => Some(Command::Record),
        [action, _, from, to] if is(action.as_str(), "window") => {
            match window_of(from.as_str(), to.as_str()) {
                Some(window) => Some(Command::Window(window)),
                None => None,
            }
        }
        _ => None,
    }
}
