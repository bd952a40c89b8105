// Calls that change no state: what a state holds, a run's first frame, settings texts read and written.
ghost use Rattle.std.specs.Prelude.{◌≤◌, ◌≡◌, length};
ghost use Rattle.parts.specs.Saying.{Says};
ghost use Rattle.scripts.specs.Words.{leaves_state};
ghost use Rattle.scripts.specs.Apart.{run_text, received as receivedOf, exchanged as exchangedOf, whole_text, wrote_text, written_text, wrong_text, text_read, apart_text};

use crate::naming::{Call, length_in, value_in};
use crate::pieces::{say_colon, say_frame, say_kept};
use crate::telling::KEPT;
use parts::hex::parse;
use parts::saying::Saying;
use parts::{before, head};
use settings::Settings;
use settingstext::reading::ReadText;
use settingstext::writing::WriteError;
use wire::splitting::Split;

// What stands at the start of a run, and the part that is handed back.
fn split_run(said: &mut Saying, run: &[u8])
    ensures { Says said.old (run_text run.now) said.new }
{
    match wire::splitting::standing(run) {
        Split::Frame(frame) => {
            said.say(b"frame");
            say_frame(said, frame);
        }
        Split::MoreNeeded => said.say(b"more needed"),
        Split::Refused => said.say(b"refusal 4"),
    }
}

// The first frame of a run.
fn split(said: &mut Saying, call: &[u8], bytes: &[u8])
    ensures { Says said.old (run_text (receivedOf call.now bytes.now)) said.new }
{
    let mut received = [0u8; 300];
    let parsed = parse(bytes, &mut received);
    let size = length_in(call, b'z', parsed, 300);
    split_run(said, before(&received, size));
}

// A text with one byte in place of another, and NULs behind it.
fn exchanged(bytes: &[u8], from: u8, to: u8) -> [u8; 512]
    ensures { (result ≡ exchangedOf bytes.now from to) × (length result ≡ 512) }
{
    let mut text = [0u8; 512];
    for k in 0..512 {
        let byte = wire::byte_at(bytes, k);
        text[k] = if byte == from { to } else { byte };
    }
    text
}

// A settings text of so many bytes at the start of a buffer, with '/' for LF.
fn whole(said: &mut Saying, buffer: &[u8], size: usize)
    ensures { Says said.old (whole_text buffer.now size) said.new }
{
    let text = exchanged(buffer, b'\n', b'/');
    said.say_form(b"D bytes", size as u64, 0, 0);
    say_colon(said);
    said.say(b" ");
    said.say(before(&text, size));
}

// What writing into a buffer came to; a refusal touches no byte of it.
fn told(said: &mut Saying, wrote: Result<usize, WriteError>, buffer: &[u8; 512])
    ensures { Says said.old (wrote_text wrote buffer.now) said.new }
{
    match wrote {
        Ok(size) => {
            whole(said, buffer, size);
            say_kept(said, buffer, size);
        }
        Err(WriteError::TooShort) => {
            said.say(b"refusal 1");
            say_kept(said, buffer, 0);
        }
        Err(WriteError::Invalid) => {
            said.say(b"refusal 10 line 0");
            say_kept(said, buffer, 0);
        }
    }
}

// The text of a value, written into the start of a buffer, of which so many bytes are lent.
fn written(said: &mut Saying, from: Settings, lent: usize)
    requires { lent ≤ 512 }
    ensures { Says said.old (written_text from lent) said.new }
{
    let mut buffer = [KEPT; 512];
    let wrote = settingstext::writing::write_text(&from, &mut buffer[0..lent]);
    told(said, wrote, &buffer);
}

// The first wrong line; and the timeout, join and number of tags of the value that a refusal returns.
fn wrong(said: &mut Saying, found: ReadText)
    ensures { Says said.old (wrong_text found) said.new }
{
    let s = found.settings;
    said.say_form(b"refusal 10 line D", u64::from(found.line), 0, 0);
    say_colon(said);
    said.say_form(
        b" D D D",
        u64::from(s.timeout),
        u64::from(s.join),
        u64::from(s.tags),
    );
}

// A settings text read, and its value written back; or the first wrong line, and the value that a refusal returns.
fn read(said: &mut Saying, bytes: &[u8])
    ensures { Says said.old (text_read bytes.now) said.new }
{
    let lines = exchanged(bytes, b'/', b'\n');
    let found = settingstext::reading::read_text(before(&lines, bytes.len()));
    if found.line == 0 {
        written(said, found.settings, 512);
    } else {
        wrong(said, found);
    }
}

// Whether a call changes no state.
pub fn leaves(call: &[u8]) -> bool
    ensures { result ≡ leaves_state call.now }
{
    matches!(
        Call::named(call),
        Call::Cursor | Call::Split | Call::Read | Call::Write
    )
}

// Runs such a call, or tells the cursor, the clock and the attached clients of the state.
pub fn run(said: &mut Saying, call: &[u8], bytes: &[u8], cursor: u16, clock: u64, attached: u32)
    ensures { Says said.old (apart_text call.now bytes.now cursor clock attached) said.new }
{
    match Call::named(call) {
        Call::Split => split(said, call, bytes),
        Call::Read => read(said, bytes),
        Call::Write => written(
            said,
            value_in(head(call, b',')),
            length_in(call, b'o', 512, 512),
        ),
        _ => said.say_form(
            b"0xX clock D attached 0xL",
            u64::from(cursor),
            clock,
            u64::from(attached),
        ),
    }
}
