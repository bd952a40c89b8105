// A row of a script, lined up: the bytes of a call stand above the bytes that came of it.
use crate::pieces::say_colon;
use parts::output::Output;
use parts::saying::Saying;
use parts::{behind, head, rest};

// Prints a call whose bytes, behind the first ':', begin at the column.
fn print_lined(call: &[u8], output: &mut Output) {
    let bytes = rest(call, b':');
    if bytes.is_empty() {
        output.print(call);
        return;
    }
    let mut said = Saying::new(call, output);
    said.say(head(call, b':'));
    say_colon(&mut said);
    said.print_held(bytes);
}

// Prints a call under its name, if there is one, up to where what came of it is said.
pub fn print_call(name: &[u8], call: &[u8], output: &mut Output) {
    output.print(name);
    let skipped = usize::from(name.is_empty());
    output.print(behind(b"\n    ", skipped));
    print_lined(call, output);
    output.print(b"\n  = ");
}
