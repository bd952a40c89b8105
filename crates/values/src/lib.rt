// Whether a settings value is valid; its tags as the words that the state keeps.
#![tactic(auto)]

pub mod tagwords;

ghost use Rattle.std.specs.Prelude.{◌≡◌, ◌&&◌, [], ◌∷◌, ◌+◌, ◌<◌, leb};
ghost use Rattle.numbers.specs.Numbers.{addresses};
ghost use Rattle.settings.specs.Grammar.{valid, last_register, right_timeout, right_join, right_tags, right_width, right_sign, right_ttl, right_strict};
ghost use Rattle.settings.specs.Values.{value_of};

use settings::{Settings, Tag};

// The rules of the lines behind the version line.
fn head_right(s: &Settings) -> bool
    ensures { result ≡ (right_timeout s.now.timeout && (right_join s.now.join && right_tags s.now.tags)) }
{
    ((numbers::LEAST_TIMEOUT <= s.timeout) & (s.timeout <= numbers::MOST_TIMEOUT))
        & ((s.join <= 1) & (s.tags as usize <= numbers::MOST_TAGS))
}

// The rules of a tag's lines; `from` is the first address above the tag before. (The reader of a text has these rules line by line, since it says which is wrong.)
fn tag_right(from: u32, tag: Tag) -> bool
    ensures { result ≡ (leb from tag.address && (right_width (tag.address ∷ []) tag.width && (right_sign (tag.address ∷ tag.width ∷ []) tag.sign && (right_ttl tag.ttl && right_strict tag.strict)))) }
{
    (from <= tag.address as u32)
        & (((tag.width == 16) | ((tag.width == 32) & (tag.address as u32 + 1 < numbers::ADDRESSES)))
            & (((tag.sign == 0) | ((tag.sign == 1) & (tag.width == 16)))
                & ((tag.ttl <= numbers::MOST_TTL) & (tag.strict <= 1))))
}

// The first address above a tag; and that a column's number is an address.
fn above(tag: Tag) -> u32
    ensures { (result ≡ last_register (tag.address ∷ tag.width ∷ []) + 1) × (tag.address < addresses) }
{
    if tag.width == 32 {
        tag.address as u32 + 2
    } else {
        tag.address as u32 + 1
    }
}

// Every number of a value that is lent follows the rule of its line.
pub fn is_valid(s: &Settings) -> bool
    ensures { result ≡ valid (value_of s.now) }
{
    if !head_right(s) {
        return false;
    }
    // Every tag is looked at: without an end at the first wrong one the compiler takes several a turn.
    let mut right = true;
    let mut from: u32 = 0;
    for k in 0..s.tags as usize {
        let tag = s.tag(k);
        right = right & tag_right(from, tag);
        from = above(tag);
    }
    right
}
