// From a settings value to its text.
ghost use Rattle.std.specs.Prelude.{◌≡◌, [], ◌∷◌, ◌+◌, ◌%◌, ◌≤◌, length};
ghost use Rattle.numbers.specs.Numbers.{most_tags};
ghost use Rattle.settings.specs.Lines.{digit_zero, decimal, line_of};
ghost use Rattle.settings.specs.Grammar.{newest, text_in};
ghost use Rattle.settings.specs.Values.{value_of};
ghost use Rattle.settingstext.specs.TextWritten.{writing, written_to};
ghost use Rattle.settingstext.specs.inner.Parts.{Room, Lays, head_text, tag_text, tags_text};

use settings::{Settings, Tag};
use values::is_valid;

// Why no text is written: the buffer is too short, or the value is invalid.
#[derive(Clone, Copy, PartialEq, Eq)]
pub enum WriteError {
    TooShort,
    Invalid,
}

// How many digits a number has. (A `match`: by the library's logarithm a text took longer to measure than by the loop before. The programs have such functions too, in crates that stand above this one.)
fn digit_count(n: u32) -> usize
    ensures { result ≡ length (decimal n) }
{
    match n {
        0..=9 => 1,
        10..=99 => 2,
        100..=999 => 3,
        1000..=9999 => 4,
        10000..=99999 => 5,
        100000..=999999 => 6,
        1000000..=9999999 => 7,
        10000000..=99999999 => 8,
        100000000..=999999999 => 9,
        _ => 10,
    }
}

fn line_length(key: &[u8], n: u32) -> usize
    ensures { (result ≡ length (line_of key.now n)) × (result ≤ length key.now + 22) }
{
    key.len() + 1 + digit_count(n) + 1
}

// The lengths stand beside what writes: they are known before the first byte is written, so that a refusal touches nothing.
fn head_length(s: &Settings) -> usize
    ensures { result ≡ length (head_text s.now.timeout s.now.join s.now.tags) }
{
    line_length(b"version", numbers::NEWEST_VERSION)
        + line_length(b"timeout", s.timeout)
        + line_length(b"join", s.join)
        + line_length(b"tags", s.tags)
}

fn tag_length(tag: Tag) -> usize
    ensures { result ≡ length (tag_text tag) }
{
    line_length(b"addr", tag.address as u32)
        + line_length(b"width", tag.width as u32)
        + line_length(b"sign", tag.sign as u32)
        + line_length(b"ttl", tag.ttl as u32)
        + line_length(b"strict", tag.strict as u32)
}

fn text_length(s: &Settings) -> usize
    requires { s.now.tags ≤ most_tags }
    ensures { result ≡ length (text_in newest (value_of s.now)) }
{
    let mut size = head_length(s);
    for k in 0..s.tags as usize {
        size += tag_length(s.tag(k));
    }
    size
}

fn last_digit(n: u32) -> u8
    ensures { result ≡ digit_zero + n % 10 }
{
    b'0' + (n % 10) as u8
}

// A buffer, and the place in it where the next part of the text is laid.
#[derive(Drop)]
struct Writer<'a> {
    text: &'a mut [u8],
    at: usize,
}

impl<'a> Writer<'a> {
    fn byte(&mut self, byte: u8)
        requires { Room 1 self.old }
        ensures { Lays (byte ∷ []) self.old self.new }
    {
        self.text[self.at] = byte;
        self.at += 1;
    }

    fn bytes(&mut self, bytes: &[u8])
        requires { Room (length bytes.now) self.old }
        ensures { Lays bytes.now self.old self.new }
    {
        for byte in bytes {
            self.byte(*byte);
        }
    }

    // The digits are written from the last one on; of one digit, as two or three of a tag's five are, without the loop.
    fn decimal(&mut self, n: u32)
        requires { Room (length (decimal n)) self.old }
        ensures { Lays (decimal n) self.old self.new }
    {
        if n < 10 {
            self.byte(last_digit(n));
            return;
        }
        let end = self.at + digit_count(n);
        let mut rest = n;
        for place in (self.at..end).rev() {
            self.text[place] = last_digit(rest);
            rest /= 10;
        }
        self.at = end;
    }

    fn line(&mut self, key: &[u8], n: u32)
        requires { Room (length (line_of key.now n)) self.old }
        ensures { Lays (line_of key.now n) self.old self.new }
    {
        self.bytes(key);
        self.byte(b'=');
        self.decimal(n);
        self.byte(b'\n');
    }

    fn head(&mut self, s: &Settings)
        requires { Room (length (head_text s.now.timeout s.now.join s.now.tags)) self.old }
        ensures { Lays (head_text s.now.timeout s.now.join s.now.tags) self.old self.new }
    {
        self.line(b"version", numbers::NEWEST_VERSION);
        self.line(b"timeout", s.timeout);
        self.line(b"join", s.join);
        self.line(b"tags", s.tags);
    }

    fn tag(&mut self, tag: Tag)
        requires { Room (length (tag_text tag)) self.old }
        ensures { Lays (tag_text tag) self.old self.new }
    {
        self.line(b"addr", tag.address as u32);
        self.line(b"width", tag.width as u32);
        self.line(b"sign", tag.sign as u32);
        self.line(b"ttl", tag.ttl as u32);
        self.line(b"strict", tag.strict as u32);
    }

    fn tags(&mut self, s: &Settings)
        requires { (s.now.tags ≤ most_tags) × Room (length (tags_text (value_of s.now).tags)) self.old }
        ensures { Lays (tags_text (value_of s.now).tags) self.old self.new }
    {
        for k in 0..s.tags as usize {
            self.tag(s.tag(k));
        }
    }
}

// The text of a valid value that is lent. The length is known before the first byte is written, so a refusal touches nothing.
pub fn write_text(s: &Settings, text: &mut [u8]) -> Result<usize, WriteError>
    ensures { writing result text.new ≡ written_to (value_of s.now) text.old }
{
    if !is_valid(s) {
        return Err(WriteError::Invalid);
    }
    if text.len() < text_length(s) {
        return Err(WriteError::TooShort);
    }
    let mut writer = Writer { text, at: 0 };
    writer.head(s);
    writer.tags(s);
    Ok(writer.at)
}
