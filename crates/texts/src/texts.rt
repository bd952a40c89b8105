// One text read, and held against what is said beside it.
ghost use Rattle.std.specs.Prelude.{◌<◌};

use parts::output::Output;
use parts::tally::Tally;
use parts::{before, number};
use settings::{Settings, Tag};
use settingstext::writing::WriteError;

// Writes the text of a value into a buffer of which so many bytes are lent; none is lent where there are fewer.
fn written(s: &Settings, buffer: &mut [u8], lent: usize) -> Option<Result<usize, WriteError>> {
    if buffer.len() < lent {
        return None;
    }
    Some(settingstext::writing::write_text(s, &mut buffer[..lent]))
}

// Whether the text is what is written of the value: a buffer as long as the text takes it, and one that is a byte shorter is too short.
fn comes_back(s: &Settings, text: &[u8]) -> bool {
    let mut buffer = [0u8; numbers::MOST_TEXT];
    let size = text.len();
    let short = written(s, &mut buffer, size.wrapping_sub(1));
    let whole = written(s, &mut buffer, size);
    (short == Some(Err(WriteError::TooShort)))
        & (whole == Some(Ok(size)))
        & (before(&buffer, size) == text)
}

// Whether a value has document 01's timeout and join, and so many tags.
fn is_usual(s: &Settings, tags: u32) -> bool {
    (s.timeout == 3000) & (s.join == 1) & (s.tags == tags)
}

// Whether a value is document 01's with this sign at its first tag, with these ttls and with the first tag strict or not, number by number; unused tag places are 0.
fn is_document(s: &Settings, sign: u16, ttl: u16, second: u16, strict: u16) -> bool {
    let first = s.tag(0) == Tag::new(1024, 16, sign, ttl, strict);
    let used = first & (s.tag(1) == Tag::new(1026, 32, 0, second, 0));
    let blank = Tag::new(0, 0, 0, 0, 0);
    let unused = (s.tag(2) == blank) & (s.tag(255) == blank);
    is_usual(s, 2) & used & unused
}

// Whether what is written of the value is the other text, or the text itself where there is no other.
fn is_written(s: &Settings, text: &[u8], other: &[u8]) -> bool {
    if other.is_empty() {
        comes_back(s, text)
    } else {
        comes_back(s, other)
    }
}

// Whether the value that a text was read to is right: that of a wrong text has timeout 3000, join 1 and no tags. (A row's word is a number or `ok`, as its table has it.)
fn is_right(s: &Settings, word: &[u8], text: &[u8], other: &[u8]) -> bool {
    match wire::byte_at(word, 0) {
        b'v' => is_document(s, 0, 0, 0, 0),
        b's' => is_document(s, 1, 0, 0, 0),
        b't' => is_document(s, 1, 500, 60000, 0),
        b'm' => is_document(s, 1, 500, 60000, 1),
        b'0' => is_written(s, text, other),
        _ => is_usual(s, 0),
    }
}

// Reads a text, of which the word tells the wrong line, and the other text what is written of it; one that comes out otherwise is printed.
pub fn read(t: Tally, word: &[u8], text: &[u8], other: &[u8], output: &mut Output) -> Tally {
    let found = settingstext::reading::read_text(text);
    let right = is_right(&found.settings, word, text, other);
    if right & (u64::from(found.line) == number(word, 0)) {
        return t.counted(0);
    }
    output.print(word);
    parts::tally::print_line(b" is the wrong line of\n", text, output);
    t.counted(1)
}
