// From a settings text to the value: forward, each byte once.
ghost use Rattle.std.specs.Prelude.{◌≡◌, cond, List, [], ℕ, ◌+◌, ◌*◌, ◌-◌, ◌≤◌, ◌<◌, min, eqb};
ghost use Rattle.settings.specs.Lines.{number_in};
ghost use Rattle.numbers.specs.Numbers.{newest_version};
ghost use Rattle.settings.specs.Grammar.{version_of, read_lines, read_in, read_text, ruled};
ghost use Rattle.settings.specs.Values.{settings_of, usual};
ghost use Rattle.settingstext.specs.TextRead.{reported};
ghost use Rattle.settingstext.specs.inner.Reading.{ceiling, numbered, capped, within, line_behind, lowest, told, tag_read, later_read, HeadRight, Headed, TagsRead, ReadInto};

use settings::{Settings, Tag};

// What reading a text comes to: line 0 and the value, or the first wrong line and the usual value. The value beside a wrong line is a part of the promise, which the tests hold the reader to, so this is no Result.
#[repr(C)]
#[derive(Drop)]
pub struct ReadText {
    pub line: u32,
    pub settings: Settings,
}

// The number of a line that is wrong; the first line is 1.
#[derive(Clone, Copy, PartialEq, Eq)]
pub struct WrongLine(pub u32);

// A longer number stays here: above every number that a line may have.
const CEILING: u32 = 1000000;

// A number with one more digit.
fn grown(number: u32, digit: u8) -> u32
    requires { (number ≤ ceiling) × (48 ≤ digit) × (digit ≤ 57) }
    ensures { result ≡ min (number * 10 + (digit - 48)) ceiling }
{
    (number * 10 + (digit - b'0') as u32).min(CEILING)
}

// The number whose digits a text begins with, and the text behind it, if an LF ends it. A digit behind a single zero makes that a leading zero.
fn number_in(text: &[u8]) -> Option<(u32, &[u8])>
    ensures { numbered result ≡ capped (number_in text.now) }
{
    let mut number: u32 = 0;
    for (next, &byte) in text.iter().enumerate() {
        if (byte == b'\n') & (next != 0) {
            return Some((number, &text[next + 1..]));
        }
        if (byte < b'0') | (b'9' < byte) | ((number == 0) & (next != 0)) {
            return None;
        }
        number = grown(number, byte);
    }
    None
}

// The number of the line with this key that a text begins with, and the text behind it, if the number is one of least to most. (Laid into its callers: a number with the rest of a text is handed back through memory, and reading each line by a call took up to twice as long.)
#[inline(always)]
fn line_in<'a>(text: &'a [u8], key: &[u8], least: u32, most: u32) -> Option<(u32, &'a [u8])>
    requires { most < ceiling }
    ensures { numbered result ≡ ruled (within least most) (line_behind key.now text.now) }
{
    let (number, rest) = number_in(text.strip_prefix(key)?)?;
    if (least <= number) & (number <= most) {
        Some((number, rest))
    } else {
        None
    }
}

// The most that the sign of a tag of this width may be: only width 16 has one.
fn most_sign(width: u32) -> u32
    ensures { result ≡ cond (eqb width 16) 1 0 }
{
    if width == 16 { 1 } else { 0 }
}

// The line with this key that a tag has since a version, if its number is at most `most`; an older version has none, and the number is 0.
fn later_in<'a>(
    text: &'a [u8],
    version: u32,
    since: u32,
    key: &[u8],
    most: u32,
) -> Option<(u32, &'a [u8])>
    requires { most < ceiling }
    ensures { numbered result ≡ later_read version since text.now key.now most }
{
    if version < since {
        return Some((0, text));
    }
    line_in(text, key, 0, most)
}

// A tag of the lines that it has in a version, and the text behind them; its address is at least `least`.
fn tag_in(text: &[u8], version: u32, line: u32, least: u32) -> Result<(Tag, &[u8]), WrongLine>
    requires { (1 ≤ version) × (line < ceiling) }
    ensures { (prior : List ℕ) → least ≡ lowest prior → told result ≡ tag_read (read_lines line (version_of version).tag prior [] text.now) }
{
    let last = numbers::ADDRESSES - 1;
    let (address, rest) = line_in(text, b"addr=", least, last).ok_or(WrongLine(line))?;
    let (width, rest) = line_in(rest, b"width=", 16, 32).ok_or(WrongLine(line + 1))?;
    if !((width == 16) | ((width == 32) & (address + 1 < numbers::ADDRESSES))) {
        return Err(WrongLine(line + 1));
    }
    let most = most_sign(width);
    let (sign, rest) = later_in(rest, version, 2, b"sign=", most).ok_or(WrongLine(line + 2))?;
    let most = numbers::MOST_TTL as u32;
    let (ttl, rest) = later_in(rest, version, 3, b"ttl=", most).ok_or(WrongLine(line + 3))?;
    let (strict, rest) = later_in(rest, version, 4, b"strict=", 1).ok_or(WrongLine(line + 4))?;
    let tag = Tag {
        address: address as u16,
        width: width as u16,
        sign: sign as u16,
        ttl: ttl as u16,
        strict: strict as u16,
    };
    Ok((tag, rest))
}

// The numbers of the lines before the tags, the version's first, and the text behind them.
#[derive(Clone, Copy)]
struct Head<'a> {
    version: u32,
    timeout: u32,
    join: u32,
    tags: u32,
    rest: &'a [u8],
}

// The lines behind the version line and before the tags.
fn read_in(text: &[u8], version: u32) -> Result<Head<'_>, WrongLine>
    requires { (1 ≤ version) × (version ≤ newest_version) }
    ensures { Headed (read_in (version_of version) text.now) result }
{
    let least = numbers::LEAST_TIMEOUT;
    let most = numbers::MOST_TIMEOUT;
    let (timeout, rest) = line_in(text, b"timeout=", least, most).ok_or(WrongLine(2))?;
    let (join, rest) = line_in(rest, b"join=", 0, 1).ok_or(WrongLine(3))?;
    let most = numbers::MOST_TAGS as u32;
    let (tags, rest) = line_in(rest, b"tags=", 0, most).ok_or(WrongLine(4))?;
    Ok(Head {
        version,
        timeout,
        join,
        tags,
        rest,
    })
}

// The lines before the tags.
fn read_head(text: &[u8]) -> Result<Head<'_>, WrongLine>
    ensures { Headed (read_text text.now) result }
{
    let newest = numbers::NEWEST_VERSION;
    let (version, rest) = line_in(text, b"version=", 1, newest).ok_or(WrongLine(1))?;
    read_in(rest, version)
}

// Puts the tags behind these lines into their places, which are 0 until then, if the text ends behind them.
fn read_tags(head: &Head, into: &mut Settings) -> Result<(), WrongLine>
    requires { HeadRight head.now × (into.old ≡ settings_of usual) }
    ensures { TagsRead head.now result into.new }
{
    let mut rest = head.rest;
    let mut line: u32 = 5;
    let mut least: u32 = 0;
    for k in 0..head.tags as usize {
        let (tag, next) = tag_in(rest, head.version, line, least)?;
        into.addr[k] = tag.address;
        into.width[k] = tag.width;
        into.sign[k] = tag.sign;
        into.ttl[k] = tag.ttl;
        into.strict[k] = tag.strict;
        // One register for each 16 bits.
        least = tag.address as u32 + tag.width as u32 / 16;
        rest = next;
        // Version 1 has two lines a tag, and each version one more.
        line += 1 + head.version;
    }
    if rest.is_empty() {
        Ok(())
    } else {
        Err(WrongLine(line))
    }
}

// Reads a text into a usual value; beside a wrong line the tags are not to be used.
fn read_into(text: &[u8], into: &mut Settings) -> Result<(), WrongLine>
    requires { into.old ≡ settings_of usual }
    ensures { ReadInto (read_text text.now) result into.new }
{
    let head = read_head(text)?;
    read_tags(&head, into)?;
    into.timeout = head.timeout;
    into.join = head.join;
    into.tags = head.tags;
    Ok(())
}

// The usual value beside a line.
#[tactic(auto, unfolding(settings::specs::Values::settings_of))]
fn usual_read(line: u32) -> ReadText
    ensures { result ≡ record { line = line; settings = settings_of usual } }
{
    ReadText {
        line,
        settings: Settings {
            timeout: numbers::USUAL_TIMEOUT,
            join: 1,
            tags: 0,
            addr: [0u16; numbers::MOST_TAGS],
            width: [0u16; numbers::MOST_TAGS],
            sign: [0u16; numbers::MOST_TAGS],
            ttl: [0u16; numbers::MOST_TAGS],
            strict: [0u16; numbers::MOST_TAGS],
        },
    }
}

// The value that a text is, or its first wrong line with the usual value. The value is there once, and is changed in place.
pub fn read_text(text: &[u8]) -> ReadText
    ensures { result ≡ reported (read_text text.now) }
{
    let mut read = usual_read(0);
    if let Err(WrongLine(line)) = read_into(text, &mut read.settings) {
        read = usual_read(line);
    }
    read
}
