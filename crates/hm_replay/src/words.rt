//! What a program's words ask for.

ghost use Rattle.std.specs.Prelude.{◌≡◌, ◌∷◌, [], IfSome, IfNone, Some, map, string_bytes};
ghost use Rattle.hm_replay.specs.Commands.{IsMade, IsCommand, command_words, made_words};
ghost use Rattle.hm_replay.specs.declared.words.Command.{Command};
ghost use Rattle.hm_replay.specs.declared.words.Made.{Made};

use hm_base::node::GroupKind;
use hm_base::spelling::read_number;
use hm_schedule::group_words::read_group_words;

/// A schedule that is made of a number, for a group.
#[derive(Clone, Copy, Debug, PartialEq, Eq)]
pub struct Made {
    pub number: u64,
    pub kind: GroupKind,
    pub size: u8,
}

/// What a program is told to do.
#[derive(Clone, Copy, Debug, PartialEq, Eq)]
pub enum Command {
    /// Run the schedule that is read.
    Replay,
    /// Write each packet of the frames that are read.
    Show,
    /// Write the schedule that is made.
    Schedule(Made),
    /// Run it and write a summary.
    Generate(Made),
}

/// The command that a program's words spell, without its name. None exactly where they spell none.
pub fn read_command(words: &[String]) -> Option<Command>
    ensures some { IfSome result (λ c. IsCommand c × (map string_bytes words.now ≡ command_words c)) }
    ensures only { (c : Command) → IsCommand c → map string_bytes words.now ≡ command_words c → result ≡ Some c }
{
    match words {
        [word] => plain_command(word.as_str()),
        [word, number, kind, size] => {
            let made = read_made(number.as_str(), kind.as_str(), size.as_str())?;
            made_command(word.as_str(), made)
        }
        _ => None,
    }
}

/// The command that is one word.
fn plain_command(word: &str) -> Option<Command>
    ensures some { IfSome result (λ c. IsCommand c × (word.now ∷ [] ≡ command_words c)) }
    ensures only { (c : Command) → IsCommand c → word.now ∷ [] ≡ command_words c → result ≡ Some c }
{
    match word {
        "replay" => Some(Command::Replay),
        "show" => Some(Command::Show),
        _ => None,
    }
}

/// The command that this word is before the words of a made schedule.
fn made_command(word: &str, made: Made) -> Option<Command>
    requires { IsMade made }
    ensures some { IfSome result (λ c. IsCommand c × (word.now ∷ made_words made ≡ command_words c)) }
    ensures only { (c : Command) → IsCommand c → word.now ∷ made_words made ≡ command_words c → result ≡ Some c }
{
    match word {
        "schedule" => Some(Command::Schedule(made)),
        "generate" => Some(Command::Generate(made)),
        _ => None,
    }
}

/// The schedule that a number, a protocol and a size ask for.
fn read_made(number: &str, kind: &str, size: &str) -> Option<Made>
    ensures some { IfSome result (λ made. IsMade made × (number.now ∷ kind.now ∷ size.now ∷ [] ≡ made_words made)) }
    ensures only { (made : Made) → IsMade made → number.now ∷ kind.now ∷ size.now ∷ [] ≡ made_words made → result ≡ Some made }
{
    let number = read_number(number.as_bytes())?;
    let (kind, size) = read_group_words(kind.as_bytes(), size.as_bytes())?;
    Some(Made { number, kind, size })
}
