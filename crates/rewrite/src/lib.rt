// The definitions of a rewriting, with their laws: the tags over a run of registers, rewritten in place, with both raw counts.
#![tactic(auto)]

ghost use Rattle.std.specs.Prelude.{◌≡◌};
ghost use Rattle.settings.specs.TagWords.{tag_of, last_of};

use values::tagwords::{tag_address, tag_kind};

// Which way a rewriting goes.
#[derive(Clone, Copy)]
pub enum Way {
    ToBcd,
    ToBinary,
}

// How many tags were left raw: for partial cover, and for their value. By default none.
#[derive(Clone, Copy, Default)]
pub struct Raw {
    pub partial: u32,
    pub value: u32,
}

// Whether a tag was left raw: not, or for partial cover, or for its value. (Three outcomes without a value: an Option of a reason would say no more.)
#[derive(Clone, Copy)]
pub enum Rawness {
    NotRaw,
    Partial,
    Value,
}

// The last register of a tag.
pub fn last_of(word: u64) -> usize
    ensures { result ≡ last_of (tag_of word) }
{
    tag_address(word) as usize + bcd::registers_of(tag_kind(word)) - 1
}
