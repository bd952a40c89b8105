// What a host relies on of the device that it lends: how many bytes it has, and in specs/ what holds of every device that these calls made.
#![tactic(auto)]

ghost use Rattle.std.specs.Prelude.{◌≡◌};
ghost use Rattle.device.specs.Fields.{state_size};

// The fields lie in their order, each at a multiple of its element's size.
const STATE_SIZE: usize = 50224;

// How many bytes a device has.
pub fn size() -> usize
    ensures { result ≡ state_size }
{
    STATE_SIZE
}
