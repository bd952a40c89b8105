// Making a fresh device from a settings value.
ghost use Rattle.std.specs.Prelude.{◌≡◌, true};
ghost use Rattle.settings.specs.Grammar.{valid};
ghost use Rattle.settings.specs.Values.{value_of};
ghost use Rattle.proxy.specs.State.{value_in, state_of, Settled};
ghost use Rattle.proxy.specs.Calls.{Adopts, Freshened};

use crate::{Device, KeptSettings};
use machine::{Answer, Refusal};
use settings::Settings;

// Puts a valid value into the device's settings.
fn adopt(kept: &mut KeptSettings, from: &Settings)
    requires { valid (value_of from.now) ≡ true }
    ensures kept { value_in kept.new ≡ value_of from.now }
    ensures settled { Settled kept.new }
{
    kept.timeout = from.timeout;
    kept.join = from.join;
    kept.tag_count = from.tags;
    values::tagwords::fill_words(from, &mut kept.tag_words);
}

// Puts a value into the device's settings. An invalid value is refusal 10, and the settings are then the usual ones.
pub fn adopt_value(kept: &mut KeptSettings, from: &Settings) -> Answer
    ensures { Adopts from.now result kept.new }
{
    if values::is_valid(from) {
        adopt(kept, from);
        return Answer::Done;
    }
    // Timeout 3000, join 1 and no tags.
    kept.timeout = numbers::USUAL_TIMEOUT;
    kept.join = 1;
    kept.tag_count = 0;
    kept.tag_words = [0u64; numbers::MOST_TAGS];
    Answer::from(Refusal::Settings)
}

// Makes the lent device fresh, whatever it was. An invalid value is refusal 10, and the device is then made from the usual one.
pub fn fresh(device: &mut Device, from: &Settings) -> Answer
    ensures { Freshened from.now result (state_of device.new) }
{
    moves::changing::clear(&mut device.table);
    device.table.cursor = 0;
    device.attached = 0;
    device.clock = 0;
    device.cache.shown = [0u8; numbers::CACHE_BYTES];
    device.cache.empty();
    adopt_value(&mut device.settings, from)
}
