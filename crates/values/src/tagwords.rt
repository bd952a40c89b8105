// The word that the state keeps of a tag, and the tag words of a settings value.
ghost use Rattle.std.specs.Prelude.{◌≡◌, ℕ, ◌≤◌, ◌<◌, eqb};
ghost use Rattle.numbers.specs.Numbers.{most_tags};
ghost use Rattle.settings.specs.Plain.{RightTag, tag_in};
ghost use Rattle.settings.specs.Values.{value_of, padded};
ghost use Rattle.settings.specs.TagWords.{kind_of, kind_number, kind_from, tag_word, tag_of, tag_words};

use bcd::Kind;
use settings::{Settings, Tag};

// A kind's number in a word, and the kind that a number means. (Not the place of the kind in bcd's enum, on which a word may not rest; and From would have to stand in bcd, which knows no words.)
#[tactic(auto, unfolding(settings::specs::TagWords::kind_number))]
fn kind_number(kind: Kind) -> u64
    ensures { (result ≡ kind_number kind) × (result ≤ 255) }
{
    match kind {
        Kind::Width16 => 0,
        Kind::Width32 => 1,
        Kind::Signed16 => 2,
    }
}

#[tactic(auto, unfolding(settings::specs::TagWords::kind_from))]
fn kind_from(number: u64) -> Kind
    ensures { result ≡ kind_from number }
{
    match number {
        1 => Kind::Width32,
        2 => Kind::Signed16,
        _ => Kind::Width16,
    }
}

// A ttl stands from bit 32 of a tag's word on, and strict in bit 48.
const TTL_UNIT: u64 = 4294967296;

const STRICT_UNIT: u64 = 281474976710656;

// Bit 49 of the first word: some tag is strict.
pub const STRICT_MARK: u64 = 562949953421312;

// The word of a tag.
#[tactic(auto, unfolding(settings::specs::TagWords::tag_word))]
pub fn tag_word(tag: Tag) -> u64
    ensures { result ≡ tag_word tag }
{
    tag.address as u64
        + numbers::ADDRESSES as u64 * kind_number(tag.kind())
        + TTL_UNIT * tag.ttl as u64
        + STRICT_UNIT * tag.strict as u64
}

#[tactic(auto, unfolding(settings::specs::TagWords::tag_of))]
pub fn tag_address(word: u64) -> u16
    ensures { result ≡ (tag_of word).address }
{
    (word % numbers::ADDRESSES as u64) as u16
}

pub fn tag_kind(word: u64) -> Kind
    ensures { result ≡ kind_of (tag_of word) }
{
    kind_from(word / numbers::ADDRESSES as u64 % 256)
}

#[tactic(auto, unfolding(settings::specs::TagWords::tag_of))]
pub fn tag_ttl(word: u64) -> u16
    ensures { result ≡ (tag_of word).ttl }
{
    (word / TTL_UNIT % 65536) as u16
}

#[tactic(auto, unfolding(settings::specs::TagWords::tag_of))]
pub fn tag_is_strict(word: u64) -> bool
    ensures { result ≡ eqb (tag_of word).strict 1 }
{
    word / STRICT_UNIT % 2 == 1
}

// The words of the listed tags of a value that is lent, which are right, the first with the mark where one is strict, and 0 in every place beyond.
pub fn fill_words(s: &Settings, words: &mut [u64; numbers::MOST_TAGS])
    requires tags_le_most_tags { s.now.tags ≤ most_tags }
    requires by_index { (i : ℕ) → i < s.now.tags → RightTag (tag_in s.now i) }
    ensures { words.new ≡ padded (tag_words (value_of s.now).tags) }
{
    *words = [0u64; numbers::MOST_TAGS];
    let mut marked = false;
    for k in 0..s.tags as usize {
        let tag = s.tag(k);
        words[k] = tag_word(tag);
        marked = marked | (tag.strict == 1);
    }
    if marked {
        words[0] += STRICT_MARK;
    }
}
