// A request forwarded and a reply given back, behind every check of its frame, with document 01's two tags, width 16 at 1024 and width 32 at 1026, and two more: a signed one at 1028, and width 32 at 1029.
ghost use Rattle.rewrite.specs.inner.Lent.{TagWords};

use machine::Refusal;
use payloads::tags::Tags;
use pdu::{Fault, ProxyId, What};
use rewrite::Raw;
use settings::Tag;
use values::tagwords::tag_word;

// The id that the proxy gives each request here.
const ISSUED: u16 = 9;

// What a call gives: so many bytes of the buffer, with both counts.
#[derive(Clone, Copy)]
pub struct Given {
    pub size: usize,
    pub raw: Raw,
}

// Two of the tags have a ttl: it changes nothing of a frame.
fn tag_words() -> [u64; numbers::MOST_TAGS]
    ensures { TagWords 4 result }
{
    let mut words = [0u64; numbers::MOST_TAGS];
    words[0] = tag_word(Tag::new(1024, 16, 0, 60000, 0));
    words[1] = tag_word(Tag::new(1026, 32, 0, 0, 0));
    words[2] = tag_word(Tag::new(1028, 16, 1, 500, 0));
    words[3] = tag_word(Tag::new(1029, 32, 0, 0, 0));
    words
}

// A request, as it goes out; or the exception that the caller gets.
pub fn send(frame: &[u8], out: &mut [u8]) -> Result<Given, Refusal> {
    if out.len() < numbers::FRAME_BUFFER {
        return Err(Refusal::Buffer);
    }
    if wire::frames::is_misframed(frame) {
        return Err(Refusal::Frame);
    }
    let unit = wire::unit_of(frame);
    let function = wire::function_of(frame);
    match checking::check_request(frame) {
        Err(Fault::BadFunction) => Err(Refusal::Function),
        Err(Fault::BadLength) => Err(Refusal::Length),
        Err(Fault::Excepted(code)) => {
            let id = wire::pair_at(frame, 0);
            wire::frames::except(out, id, unit, function, code);
            Ok(Given {
                size: numbers::EXCEPTION_FRAME,
                raw: Raw::default(),
            })
        }
        Ok(asked) => {
            let words = tag_words();
            let tags = Tags::of(&words, 4);
            let raw = payloads::forward(out, frame, ProxyId(ISSUED), asked, tags);
            Ok(Given {
                size: frame.len(),
                raw,
            })
        }
    }
}

// A reply to a request, as it is given back; a request that is not legal is not live.
pub fn bring(request: &[u8], reply: &[u8], out: &mut [u8]) -> Result<Given, Refusal> {
    if out.len() < numbers::FRAME_BUFFER {
        return Err(Refusal::Buffer);
    }
    if wire::frames::is_misframed(request) {
        return Err(Refusal::Frame);
    }
    if wire::frames::is_misframed(reply) {
        return Err(Refusal::Frame);
    }
    let Ok(asked) = checking::check_request(request) else {
        return Err(Refusal::Unknown);
    };
    let what = What {
        unit: wire::unit_of(request),
        function: wire::function_of(request),
        asked,
    };
    if !checking::matching::answers(what, reply) {
        return Err(Refusal::Mismatch);
    }
    let words = tag_words();
    let tags = Tags::of(&words, 4);
    let raw = payloads::give_back(out, reply, what.function, asked, tags);
    Ok(Given {
        size: reply.len(),
        raw,
    })
}
