// The exported calls that need no device: splitting a run, settings read and written, the device's size.
ghost use Rattle.std.specs.Prelude.{◌≡◌};
ghost use Rattle.reports.specs.Reports.{SplitPromised, ReadPromised, WritePromised};
ghost use Rattle.device.specs.Fields.{state_size};

use machine::Report;
use reports::SettingsRead;
use settings::Settings;

// Splits a run: the first frame's length, more needed, or refusal 4.
#[unsafe(no_mangle)]
pub extern "C" fn zb_split(run: &[u8]) -> Report
    ensures { SplitPromised run.now result }
{
    reports::split(run)
}

// Reads a settings text: the value, or refusal 10 with the first wrong line and the usual value.
#[unsafe(no_mangle)]
pub extern "C" fn zb_settings_read(text: &[u8]) -> SettingsRead
    ensures { ReadPromised text.now result }
{
    reports::read(text)
}

// Writes the text of a settings value that is lent: its length, refusal 10 for an invalid value, or refusal 1 for a short buffer.
#[unsafe(no_mangle)]
pub extern "C" fn zb_settings_write(from: &Settings, text: &mut [u8]) -> Report
    ensures { WritePromised from.now text.old result text.new }
{
    reports::write(from, text)
}

// How many bytes a device has.
#[unsafe(no_mangle)]
pub extern "C" fn zb_state_size() -> usize
    ensures { result ≡ state_size }
{
    device::size()
}
