ghost use Rattle.std.specs.Prelude.{◌≡◌};
ghost use Rattle.hm_schedule.specs.Names.{named, opening_named, rarely_named};

/// The first word of a line.
#[derive(Clone, Copy, Debug, PartialEq, Eq)]
pub enum Keyword {
    Group,
    Table,
    Life,
    Log,
    Write,
    Read,
    Resend,
    Deliver,
    Next,
    Drop,
    Tick,
    Stop,
    Remove,
    Timeout,
    Retire,
    Start,
}

impl Keyword {
    ghost use Rattle.hm_schedule.specs.Stages.{keyword_place};

    /// The place of its lines among the opening lines, or that behind them all.
    pub(crate) fn place(self) -> u8
        ensures { result ≡ keyword_place self }
    {
        match self {
            Keyword::Group => 0,
            Keyword::Table => 1,
            Keyword::Life => 2,
            Keyword::Log => 3,
            _ => 4,
        }
    }
}

/// The keyword that a word is. None exactly for any other word. Most lines of a schedule are the word that is compared first.
pub(crate) fn keyword_of(word: &[u8]) -> Option<Keyword>
    ensures { result ≡ named word.now }
{
    if word == b"next".as_slice() {
        Some(Keyword::Next)
    } else if word == b"write".as_slice() {
        Some(Keyword::Write)
    } else if word == b"read".as_slice() {
        Some(Keyword::Read)
    } else if word == b"resend".as_slice() {
        Some(Keyword::Resend)
    } else if word == b"deliver".as_slice() {
        Some(Keyword::Deliver)
    } else if word == b"drop".as_slice() {
        Some(Keyword::Drop)
    } else {
        rare_keyword_of(word)
    }
}

/// The keyword of any other line.
fn rare_keyword_of(word: &[u8]) -> Option<Keyword>
    ensures { result ≡ rarely_named word.now }
{
    if word == b"tick".as_slice() {
        Some(Keyword::Tick)
    } else if word == b"stop".as_slice() {
        Some(Keyword::Stop)
    } else if word == b"remove".as_slice() {
        Some(Keyword::Remove)
    } else if word == b"timeout".as_slice() {
        Some(Keyword::Timeout)
    } else if word == b"retire".as_slice() {
        Some(Keyword::Retire)
    } else if word == b"start".as_slice() {
        Some(Keyword::Start)
    } else {
        opening_keyword_of(word)
    }
}

/// The keyword of an opening line.
fn opening_keyword_of(word: &[u8]) -> Option<Keyword>
    ensures { result ≡ opening_named word.now }
{
    if word == b"group".as_slice() {
        Some(Keyword::Group)
    } else if word == b"table".as_slice() {
        Some(Keyword::Table)
    } else if word == b"life".as_slice() {
        Some(Keyword::Life)
    } else if word == b"log".as_slice() {
        Some(Keyword::Log)
    } else {
        None
    }
}
