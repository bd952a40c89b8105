// The words of a device's tags, as what goes by them is lent them.
ghost use Rattle.std.specs.Prelude.{◌≡◌, length, take, drop};
ghost use Rattle.laws.specs.Search.{first};
ghost use Rattle.rewrite.specs.inner.Lent.{TagWords, TagList, reaches};
ghost use Rattle.rewrite.proofs.OrderLaws.{tag-list_prop};

use values::tagwords::tag_address;

// The words of tags, those alone that count: no more than there is room for, of tags that ascend.
#[derive(Clone, Copy)]
pub struct Tags<'a> {
    pub words: &'a [u64],
    ghost listed: { TagList words.now } by { tag-list_prop _ },
}

impl<'a> Tags<'a> {
    // Of the words that a state keeps those that count.
    pub fn of(words: &'a [u64; numbers::MOST_TAGS], count: usize) -> Tags<'a>
        requires { TagWords count words.now }
        ensures { result.words.now ≡ take count words.now }
    {
        Tags {
            words: &words[..count],
        }
    }

    // The first tag that does not end before start.
    pub fn first_from(&self, start: usize) -> usize
        ensures { result ≡ first (reaches self.now.words.now start) (length self.now.words.now) }
    {
        // A run below the tags or behind them needs no search.
        let words = self.words;
        let ([first, ..], [.., last]) = (words, words) else {
            return 0;
        };
        if start <= tag_address(*first) as usize {
            return 0;
        }
        if rewrite::last_of(*last) < start {
            return words.len();
        }
        words.partition_point(|word| rewrite::last_of(*word) < start)
    }

    // That tag and those behind it.
    pub fn reaching(&self, start: usize) -> &'a [u64]
        ensures { result.now ≡ drop (first (reaches self.now.words.now start) (length self.now.words.now)) self.now.words.now }
    {
        &self.words[self.first_from(start)..]
    }
}
