// A number of 64 bits as text, in ASCII.
ghost use Rattle.std.specs.Prelude.{◌≡◌, ◌<◌, ◌≤◌, min, max, length, take, drop};
ghost use Rattle.parts.specs.Digits.{IsPrefixLen, last_digits, IsDigitCount, hex_digit_ascii};

// Puts n's decimal digits at the start of out, and returns how many there are. (`decimal` and `hex` have a definition each, and so two contracts. They promise each digit in a lent buffer, and docs/TRIALS.md names them: a Display would stand beside them.)
pub fn decimal(n: u64, out: &mut [u8; 20]) -> usize
    ensures in_bounds { IsPrefixLen result out.new }
    ensures len { IsDigitCount 10 1 n result }
    ensures digits { take result out.new ≡ last_digits 10 result n }
    ensures rest { drop result out.new ≡ drop result out.old }
{
    let k = digit_count(n, 10, 1);
    write_digits(n, 10, k, out);
    k
}

// Puts n's hexadecimal digits, in lower case, at the start of out, with zeros in front up to width
// digits, and returns how many there are. A width of 0 counts as 1, and one above 16 as 16.
pub fn hex(n: u64, width: usize, out: &mut [u8; 16]) -> usize
    ensures in_bounds { IsPrefixLen result out.new }
    ensures len { IsDigitCount 16 (min (max width 1) 16) n result }
    ensures digits { take result out.new ≡ last_digits 16 result n }
    ensures rest { drop result out.new ≡ drop result out.old }
{
    let k = digit_count(n, 16, width.clamp(1, 16));
    write_digits(n, 16, k, out);
    k
}

// How many digits n takes in base, or `width` where that is more.
fn digit_count(n: u64, base: u64, width: usize) -> usize
    requires base { 1 < base }
    requires width_nonzero { 0 < width }
    ensures { IsDigitCount base width n result }
{
    let needed = n.checked_ilog(base).unwrap_or(0) as usize + 1;
    needed.max(width)
}

// Puts the last k digits of n in base at the start of out.
fn write_digits(n: u64, base: u64, k: usize, out: &mut [u8])
    requires base_nonzero { 0 < base }
    requires base_small { base ≤ 16 }
    requires in_bounds { k ≤ length out.old }
    ensures digits { take k out.new ≡ last_digits base k n }
    ensures rest { drop k out.new ≡ drop k out.old }
{
    let mut rest = n;
    for i in (0..k).rev() {
        out[i] = digit_to_ascii(rest % base);
        rest /= base;
    }
}

// A digit in lower case; the one of `hex.rt` is in upper case, and each has its definition.
fn digit_to_ascii(d: u64) -> u8
    requires { d < 16 }
    ensures { result ≡ hex_digit_ascii d }
{
    if d < 10 {
        b'0' + d as u8
    } else {
        b'a' - 10 + d as u8
    }
}
