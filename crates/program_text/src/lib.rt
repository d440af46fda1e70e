// Texts that the program `aktinoph` reads, writes, or names files by.
#![tactic(auto)]

ghost use Rattle.std.specs.Prelude.{◌≡◌, ℕ, ◌+◌, ◌≤◌, List, [], ◌++◌, length, take};
ghost use Rattle.plan_pieces.specs.Answers.{Answer, says_why, Reads};
ghost use Rattle.program_text.specs.Commands.{Asks};
ghost use Rattle.program_text.specs.Lines.{decimal, line};

use std::marker::Model;

#[derive(Clone, Copy)]
pub enum Command {
    Fit,
    TakeBack,
    Help,
    Version,
    Unknown,
}

// The command that the first word and the number of arguments ask for. The program's own name counts as an argument.
pub fn asked(word: &[u8], count: usize) -> Command
    ensures { Asks word.now count result }
{
    match (count, word) {
        (6, b"fit") => Command::Fit,
        (4, b"take-back") => Command::TakeBack,
        (2, b"--help") => Command::Help,
        (2, b"--version") => Command::Version,
        _ => Command::Unknown,
    }
}

// At most N bytes, put behind each other. std's `InlineText` does not promise that it keeps what fits.
#[derive(Drop)]
pub struct Text<const N: usize> {
    bytes: [u8; N],
    len: usize,
}

impl<const N: usize> Model for Text<N> {
    ghost Value = { List ℕ };

    ghost view = { λ text. take text.len text.bytes };

    ghost invariant = { λ text. text.len ≤ N };
}

impl<const N: usize> Text<N> {
    pub fn new() -> Self
        ensures { result ≡ [] }
    {
        Text {
            bytes: [0; N],
            len: 0,
        }
    }

    pub fn as_bytes(&self) -> &[u8]
        ensures bytes { result.now ≡ self.now }
        ensures len { length result.now ≤ N }
    {
        &self.bytes[..self.len]
    }

    pub fn push(&mut self, bytes: &[u8])
        requires { length self.old + length bytes.now ≤ N }
        ensures { self.new ≡ self.old ++ bytes.now }
    {
        let end = self.len + bytes.len();
        let all = &mut self.bytes[..];
        all[self.len..end].copy_from_slice(bytes);
        self.len = end;
    }

    // A number in decimal, of at most 20 digits.
    pub fn push_decimal(&mut self, n: u64)
        requires { length self.old + 20 ≤ N }
        ensures len { length self.new ≤ length self.old + 20 }
        ensures new { self.new ≡ self.old ++ decimal n }
    {
        let mut digits = [0u8; 20];
        let k = io::decimal(n, &mut digits);
        self.push(&digits[..k]);
    }
}

// The bytes that a line has at most: three numbers of 20 digits, two spaces and the line end.
pub const LINE: usize = 63;

// "number and place in decimal, a space between, then a line end", with the reason as the third
pub fn answer_line(number: u64, place: u64, reason: u64) -> Text<LINE>
    ensures { result ≡ line (says_why number place reason) }
{
    let mut text = Text::new();
    text.push_decimal(number);
    text.push(b" ");
    text.push_decimal(place);
    text.push(b" ");
    text.push_decimal(reason);
    text.push(b"\n");
    text
}

// The line of the answer in a code. The number is in the low eight bits, the reason in the next eight, the place in the upper 32.
pub fn line_of(code: u64) -> Text<LINE>
    ensures { (answer : Answer) → Reads code answer → result ≡ line answer }
{
    answer_line(code % 256, code / 4294967296, code / 256 % 256)
}

// The name of a new file beside the one at `path`: the path, and then the tag.
pub fn beside<const N: usize>(path: &[u8], tag: [u8; 7]) -> Text<N>
    requires { length path.now + 7 ≤ N }
    ensures { result ≡ path.now ++ tag }
{
    let mut name = Text::new();
    name.push(path);
    name.push(&tag);
    name
}
