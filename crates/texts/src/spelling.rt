// A text from the bytes that spell it.
use parts::{before, behind, field};

// The byte that a byte of a row or of a piece stands for.
fn meant(byte: u8) -> u8 {
    match byte {
        b';' => b'\n',
        b'^' => b'\r',
        b'~' => b'\t',
        b'_' => b' ',
        b'$' => 0,
        _ => byte,
    }
}

// What a place of a row spells: a piece for the digit behind an '@', nothing for the '@', else its byte.
fn spelled<'a>(pieces: &'a [u8], row: &'a [u8], k: usize) -> &'a [u8] {
    let byte = wire::byte_at(row, k);
    if wire::byte_at(row, k.wrapping_sub(1)) == b'@' {
        return field(pieces, b'|', usize::from(byte).wrapping_sub(49));
    }
    let size = usize::from(byte != b'@');
    before(behind(row, k), size)
}

// Puts what bytes stand for at a place, as many as there is room for, and tells the place behind them.
fn put(text: &mut [u8], at: usize, bytes: &[u8]) -> usize {
    for (place, byte) in text.iter_mut().skip(at).zip(bytes) {
        *place = meant(*byte);
    }
    at.saturating_add(bytes.len()).min(text.len())
}

// Puts the text that a row spells at the start of a buffer, and tells its length.
pub fn spell<'a>(pieces: &'a [u8], row: &'a [u8], text: &mut [u8]) -> usize {
    let mut size: usize = 0;
    for k in 0..row.len() {
        size = put(text, size, spelled(pieces, row, k));
    }
    size
}
