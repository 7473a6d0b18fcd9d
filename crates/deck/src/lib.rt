// The commands of a deck, and how they are read from its text.
#![tactic(auto)]

ghost use Rattle.std.specs.Prelude.{◌≡◌, if◌then◌else◌, map, Some, None, Ok, Err, is_some, MatchResult};
ghost use Rattle.std.specs.Option.{option_map, ok_or};
ghost use Rattle.deck.specs.Deck.{meant, keyword_of, number_alone, asked_by, asked, with_line, Blames, lines, asked_from, hex_fault};
ghost use Rattle.deck.specs.Text.{hex_bytes};
ghost use Rattle.deck.specs.declared.LineFault.TheVariants.{Command, Digits, Memory};

use hex::FromHexError;
use std::alloc::{AllocError, AllocFailed, Global};
use thiserror::Error;

mod text;

// The first word of a line.
#[derive(Clone, Copy)]
enum Keyword {
    Message,
    Hex,
    Show,
    Room,
}

// What a line asks for.
#[derive(Drop)]
pub enum Command {
    // A message, written as text or in hexadecimal digits.
    Message(Vec<u8>),
    // A message that is only taken apart.
    Show(Vec<u8>),
    // How long the writer's buffer is from here on.
    Room(usize),
}

// Why a line is no command.
#[derive(Clone, Copy, Debug, PartialEq, Eq, Error)]
pub enum LineFault {
    // Its first word is none of the keywords.
    #[error("no command")]
    Command,
    // What follows are no pairs of hexadecimal digits.
    #[error("no pairs of hexadecimal digits")]
    Digits,
    // What follows is no number.
    #[error("no number of 1 to 18 digits")]
    Number,
    // There was no memory to keep it.
    #[error("no memory")]
    Memory,
}

// These are by hand, since contracts rest on which fault a `?` makes, and a derived `From` promises nothing. An allocation
// fails with the value that found no room, or without.
impl From<AllocError> for LineFault {
    ghost from_gives = { λ _ r. r ≡ Memory };

    fn from(_e: AllocError) -> LineFault {
        LineFault::Memory
    }
}

impl<T: Drop> From<AllocFailed<T>> for LineFault {
    ghost from_gives = { λ _ r. r ≡ Memory };

    fn from(_e: AllocFailed<T>) -> LineFault {
        LineFault::Memory
    }
}

impl From<FromHexError> for LineFault {
    ghost from_gives = { λ e r. r ≡ hex_fault e };

    fn from(e: FromHexError) -> LineFault {
        match e {
            FromHexError::OutOfMemory => LineFault::Memory,
            _ => LineFault::Digits,
        }
    }
}

// The first line of a deck that is no command, counted from 1.
#[derive(Clone, Copy, Debug, PartialEq, Eq, Error)]
#[error("line {line}: {fault}")]
pub struct DeckFault {
    pub line: usize,
    pub fault: LineFault,
}

impl TryFrom<&[u8]> for Keyword {
    type Error = LineFault;

    ghost try_from_gives = { λ word r. r ≡ ok_or (keyword_of word.now) Command };

    fn try_from(word: &[u8]) -> Result<Keyword, LineFault> {
        match word {
            b"message" => Ok(Keyword::Message),
            b"hex" => Ok(Keyword::Hex),
            b"show" => Ok(Keyword::Show),
            b"room" => Ok(Keyword::Room),
            _ => Err(LineFault::Command),
        }
    }
}

// A number with nothing but blanks around it.
fn number_alone(text: &[u8]) -> Option<u64>
    ensures { result ≡ number_alone text.now }
{
    let (word, rest) = text::first_word(text);
    let (more, _) = text::first_word(rest);
    if more.is_empty() {
        text::number(word)
    } else {
        None
    }
}

// The bytes that pairs of hexadecimal digits write. `decode` asks for their memory before it looks at a digit: so where there
// is none, the digits are looked at here, and a wrong one is told as such, however little memory there is.
#[tactic(auto, using(crate::proofs::Digits::wrong, crate::proofs::Digits::failed))]
fn hex_bytes(heap: Global, digits: &[u8]) -> Result<Vec<u8>, LineFault>
    ensures { MatchResult result (λ v. hex_bytes digits.now ≡ Some v.items) (λ e. e ≡ (if is_some (hex_bytes digits.now) then Memory else Digits)) }
{
    match hex::decode(heap, digits) {
        Err(FromHexError::OutOfMemory) if !text::is_hexadecimal(digits) => Err(LineFault::Digits),
        decoded => Ok(decoded?),
    }
}

impl Command {
    // The command that a keyword begins, with the text behind it.
    fn read(heap: Global, keyword: Keyword, text: &[u8]) -> Result<Command, LineFault>
        ensures { MatchResult result (λ c. asked_by keyword text.now ≡ Some (meant c)) (λ e. Blames e (asked_by keyword text.now ≡ None)) }
    {
        match keyword {
            Keyword::Message => Ok(Command::Message(text::without_blanks(heap, text)?)),
            Keyword::Show => Ok(Command::Show(text::without_blanks(heap, text)?)),
            Keyword::Hex => {
                let digits = text::without_blanks(heap, text)?;
                Ok(Command::Message(hex_bytes(heap, &digits)?))
            }
            Keyword::Room => {
                let n = number_alone(text).ok_or(LineFault::Number)?;
                Ok(Command::Room(n as usize))
            }
        }
    }
}

// What a line asks for: nothing where it is empty but for a comment.
fn read_line(heap: Global, line: &[u8]) -> Result<Option<Command>, LineFault>
    ensures { MatchResult result (λ o. asked line.now ≡ Some (option_map meant o)) (λ e. Blames e (asked line.now ≡ None)) }
{
    let (text, _) = text::cut(line, b'#');
    let (word, rest) = text::first_word(text);
    if word.is_empty() {
        return Ok(None);
    }
    let keyword = Keyword::try_from(word)?;
    Ok(Some(Command::read(heap, keyword, rest)?))
}

// Adds what a line asks for to the commands before it.
fn take_line(heap: Global, commands: &mut Vec<Command>, line: &[u8]) -> Result<(), LineFault>
    ensures { MatchResult result (λ _. with_line (map meant commands.old.items) (asked line.now) ≡ Some (map meant commands.new.items)) (λ e. Blames e (asked line.now ≡ None)) }
{
    if let Some(command) = read_line(heap, line)? {
        commands.push(command)?;
    }
    Ok(())
}

// The commands of a deck, in their order.
#[derive(Drop)]
pub struct Deck {
    pub commands: Vec<Command>,
}

impl Deck {
    pub fn read(heap: Global, text: &[u8]) -> Result<Deck, DeckFault>
        ensures { MatchResult result (λ d. asked_from 1 (lines text.now) ≡ Ok (map meant d.commands.items)) (λ e. Blames e.fault (asked_from 1 (lines text.now) ≡ Err e.line)) }
    {
        let mut commands = Vec::new(heap);
        // Behind a line feed at the end comes one more part, which is empty and asks for nothing.
        for (i, line) in text.split(|c| *c == b'\n').enumerate() {
            take_line(heap, &mut commands, line).map_err(|fault| DeckFault { line: i + 1, fault })?;
        }
        Ok(Deck { commands })
    }
}
