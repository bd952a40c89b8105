// What came of a call: its name; the id, or the exception's code; the tags raw for partial cover and those raw for value; the frame; the parties.
ghost use Rattle.std.specs.Prelude.{◌≡◌, get_or, drop};
ghost use Rattle.parts.specs.Saying.{Says};
ghost use Rattle.machine.specs.Numbers.{numbers};
ghost use Rattle.scripts.specs.Pieces.{kept_place, all_are};
ghost use Rattle.scripts.specs.Telling.{first_number, outcome_text, name_text, skipped as skippedOf, party_text, parties_text, answer_text};

use crate::pieces::{say_frame, say_kept, say_touched};
use machine::{Answer, Report};
use parts::saying::Saying;
use parts::{before, behind, field};

// Each byte of a lent buffer before a call.
pub const KEPT: u8 = 165;

// Each place of a lent list before a call.
pub const KEPT_PLACE: u16 = 42405;

// The number that an outcome's name begins with: a refusal's, an exception's code, or the proxy id. (By the report's numbers, of which `outcome_text` is said.)
fn first_number(r: Report) -> u32
    ensures { result ≡ first_number r }
{
    match r.outcome {
        0 => r.refusal,
        reports::EXCEPTION => r.code,
        _ => r.id,
    }
}

// The form of each outcome, in the order of the outcomes' numbers in a report; 8 and 9 are no answer's.
fn say_outcome(said: &mut Saying, r: Report)
    ensures { Says said.old (outcome_text r) said.new }
{
    let forms =
        b"refusal D|done|issued 0xX D,D|joined 0xX D,D|exception B D,D|answered 0xX D,D|timed out 0xX D,D|nothing due|||hit 0xX D,D|";
    let form = field(forms, b'|', r.outcome as usize);
    said.say_form(
        form,
        u64::from(first_number(r)),
        u64::from(r.partial),
        u64::from(r.value),
    );
}

// The same, where the link that is lost, in a report done like other calls, has a form of its own.
fn say_name(said: &mut Saying, answer: Answer, r: Report)
    requires { r ≡ numbers answer }
    ensures { Says said.old (name_text answer) said.new }
{
    match answer {
        Answer::Lost { set } => said.say_form(b"lost 0xL", u64::from(set), 0, 0),
        _ => say_outcome(said, r),
    }
}

// A place of a list; 0 past its end. (`byte_at` is the same of bytes: one line each.)
fn place_at(list: &[u16], k: usize) -> u16
    ensures { result ≡ get_or list.now k 0 }
{
    list.get(k).copied().unwrap_or(0)
}

// Whether every place of a list from one on is as it was before the call.
fn kept_places(list: &[u16], from: usize) -> bool
    ensures { result ≡ all_are kept_place (drop from list.now) }
{
    list.iter().skip(from).all(|place| *place == KEPT_PLACE)
}

// How much of the form of a party is left out: its "to" stands before the first alone.
fn skipped(k: u32) -> usize
    ensures { result ≡ skippedOf k }
{
    if k == 0 { 0 } else { 3 }
}

// Says the k-th party of a list, as its client and its id.
fn say_party(said: &mut Saying, list: &[u16], k: u32)
    ensures { Says said.old (party_text list.now k) said.new }
{
    let form = behind(b" to D,0xX", skipped(k));
    let place = 2 * (k as usize);
    let client = place_at(list, place);
    let id = place_at(list, place + 1);
    said.say_form(form, u64::from(client), u64::from(id), 0);
}

// Says the parties of a list, in its order.
fn say_parties(said: &mut Saying, list: &[u16], parties: u32)
    ensures { Says said.old (parties_text list.now parties) said.new }
{
    for k in 0..parties {
        say_party(said, list, k);
    }
}

// Says what a call gave.
pub fn tell(said: &mut Saying, answer: Answer, out: &[u8], list: &[u16])
    ensures { Says said.old (answer_text answer out.now list.now) said.new }
{
    let r = reports::report_of(answer);
    let length = r.length as usize;
    say_name(said, answer, r);
    say_frame(said, before(out, length));
    say_parties(said, list, r.parties);
    say_kept(said, out, length);
    say_touched(said, kept_places(list, 2 * (r.parties as usize)));
}
