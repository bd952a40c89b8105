// The settings value and its tags, the grammar of its text, what its tag words are, and the kind of a tag.
#![tactic(auto)]

ghost use Rattle.std.specs.Prelude.{◌≡◌, ◌<◌};
ghost use Rattle.numbers.specs.Numbers.{most_tags};
ghost use Rattle.settings.specs.Plain.{tag_in};
ghost use Rattle.settings.specs.TagWords.{kind_of};

use bcd::Kind;

// The boundary's settings: how many of the tag places count, and each tag's address, width, sign and ttl, and whether it is strict. (Columns, and numbers for kinds, as C's struct zb_settings has them.)
#[repr(C)]
#[derive(Clone, Copy)]
pub struct Settings {
    pub timeout: u32,
    pub join: u32,
    pub tags: u32,
    pub addr: [u16; numbers::MOST_TAGS],
    pub width: [u16; numbers::MOST_TAGS],
    pub sign: [u16; numbers::MOST_TAGS],
    pub ttl: [u16; numbers::MOST_TAGS],
    pub strict: [u16; numbers::MOST_TAGS],
}

impl Settings {
    // The tag at a place.
    pub fn tag(&self, k: usize) -> Tag
        requires { k < most_tags }
        ensures { result ≡ tag_in self.now k }
    {
        Tag::new(
            self.addr[k],
            self.width[k],
            self.sign[k],
            self.ttl[k],
            self.strict[k],
        )
    }
}

// A tag: its address, width, sign and ttl, and whether it is strict. (Numbers, as C's columns have them: it also holds what `is_valid` refuses.)
#[derive(Clone, Copy, PartialEq, Eq)]
pub struct Tag {
    pub address: u16,
    pub width: u16,
    pub sign: u16,
    pub ttl: u16,
    pub strict: u16,
}

impl Tag {
    // A tag of these five numbers.
    pub fn new(address: u16, width: u16, sign: u16, ttl: u16, strict: u16) -> Tag
        ensures { result ≡ record { address = address; width = width; sign = sign; ttl = ttl; strict = strict } }
    {
        Tag {
            address,
            width,
            sign,
            ttl,
            strict,
        }
    }

    // The kind of a tag, which its width and its sign decide.
    #[tactic(auto, unfolding(crate::specs::TagWords::kind_of))]
    pub fn kind(self) -> Kind
        ensures { result ≡ kind_of self }
    {
        if self.width == 32 {
            Kind::Width32
        } else if self.sign == 1 {
            Kind::Signed16
        } else {
            Kind::Width16
        }
    }
}
