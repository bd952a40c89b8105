// The sizes, bounds and codes of documents 01 and 02: specs/Numbers.antt has each under the same name, and how many ids there are in place of the last.
#![tactic(auto)]

pub const CLIENTS: u32 = 32;

pub const PLACES: usize = 256;

pub const ROOM: usize = 32;

pub const PARTY_PLACES: usize = PLACES * ROOM;

pub const MOST_TAGS: usize = 256;

pub const LEAST_TIMEOUT: u32 = 100;

pub const MOST_TIMEOUT: u32 = 60000;

pub const USUAL_TIMEOUT: u32 = 3000;

pub const LATEST_TIME: u64 = 9223372036854775807;

pub const LEAST_FRAME: usize = 8;

pub const MOST_FRAME: usize = 260;

pub const FRAME_BUFFER: usize = MOST_FRAME;

pub const LIST_BUFFER: usize = 2 * ROOM;

pub const CACHE_PLACES: usize = 64;

pub const CACHE_NUMBERS: usize = 3 * CACHE_PLACES + 1;

pub const CACHE_BYTES: usize = 256 * CACHE_PLACES;

pub const LAST_ID: u16 = 65535;

pub const ADDRESSES: u32 = 65536;

pub const UNCOUNTED: usize = 6;

pub const UNIT_AT: usize = 6;

pub const HEADER_SIZE: usize = 7;

pub const LEAST_LENGTH: u16 = 2;

pub const MOST_LENGTH: u16 = 254;

pub const READ_COILS: u8 = 1;

pub const READ_DISCRETE: u8 = 2;

pub const READ_HOLDING: u8 = 3;

pub const READ_INPUT: u8 = 4;

pub const WRITE_COIL: u8 = 5;

pub const WRITE_SINGLE: u8 = 6;

pub const WRITE_COILS: u8 = 15;

pub const WRITE_MULTIPLE: u8 = 16;

pub const MASK_WRITE: u8 = 22;

pub const READ_WRITE: u8 = 23;

pub const LAST_FUNCTION: u8 = 127;

pub const MOST_READ: u16 = 125;

pub const MOST_WRITTEN: u16 = 123;

pub const MOST_READ_WRITTEN: u16 = 121;

pub const MOST_BITS_READ: u16 = 2000;

pub const MOST_BITS_WRITTEN: u16 = 1968;

pub const COIL_OFF: u16 = 0;

pub const COIL_ON: u16 = 65280;

pub const SHORT_PDU: usize = 5;

pub const MULTIPLE_PDU: usize = 6;

pub const MASK_PDU: usize = 7;

pub const READ_WRITE_PDU: usize = 10;

pub const EXCEPTION_PDU: usize = 2;

pub const EXCEPTION_BIT: u8 = 128;

pub const ILLEGAL_ADDRESS: u8 = 2;

pub const ILLEGAL_VALUE: u8 = 3;

pub const DEVICE_FAILURE: u8 = 4;

pub const NO_RESPONSE: u8 = 11;

pub const EXCEPTION_LENGTH: u8 = 3;

pub const EXCEPTION_FRAME: usize = 9;

pub const MOST_TTL: u16 = 60000;

pub const NEWEST_VERSION: u32 = 4;

pub const MOST_TEXT: usize = 11816;
