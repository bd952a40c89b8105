// Frames on the wire: 16-bit numbers in bytes, the unit and the function of a frame, copying; what a frame, its refusal and an exception frame are.
#![tactic(auto)]

pub mod frames;
pub mod splitting;

ghost use Rattle.std.specs.Prelude.{◌≡◌, ◌+◌, ◌<◌, ◌≤◌, length, get_or};
ghost use Rattle.laws.specs.Bytes.{over, pair_at, put_at};
ghost use Rattle.wire.specs.Frame.{unit_of, function_of, pdu_size};

// The byte at k, and 0 past the end. (Not by `get` in each caller: the definitions have the 0.)
pub fn byte_at(s: &[u8], k: usize) -> u8
    ensures { result ≡ get_or s.now k 0 }
{
    s.get(k).copied().unwrap_or(0)
}

// The 16-bit number at k, the high byte first; what is past the end counts as 0.
pub fn pair_at(s: &[u8], k: usize) -> u16
    ensures { result ≡ pair_at s.now k }
{
    if k < s.len() {
        u16::from_be_bytes([s[k], byte_at(s, k + 1)])
    } else {
        0
    }
}

// The unit of a frame, the first byte that its length counts, and its function; 0 past the end. (A line each under the document's two names: one function over the place is `byte_at`.)
pub fn unit_of(frame: &[u8]) -> u8
    ensures { result ≡ unit_of frame.now }
{
    byte_at(frame, numbers::UNIT_AT)
}

pub fn function_of(frame: &[u8]) -> u8
    ensures { result ≡ function_of frame.now }
{
    byte_at(frame, numbers::HEADER_SIZE)
}

// How many bytes the PDU has; 0 where the header is not whole.
pub fn pdu_size(frame: &[u8]) -> usize
    ensures { result ≡ pdu_size frame.now }
{
    frame.len().saturating_sub(numbers::HEADER_SIZE)
}

// Puts a 16-bit number at k, the high byte first.
pub fn put_at(d: &mut [u8], k: usize, n: u16)
    requires { k + 1 < length d.old }
    ensures { d.new ≡ put_at d.old k n }
{
    d[k..k + 2].copy_from_slice(&n.to_be_bytes());
}

// Writes s over the start of out. (A byte a turn: `copy_from_slice` of a length that is not constant is a call of memmove, which a host would have to bring.)
pub fn copy(out: &mut [u8], s: &[u8])
    requires { length s.now ≤ length out.old }
    ensures { out.new ≡ over s.now out.old }
{
    for i in 0..s.len() {
        out[i] = s[i];
    }
}
