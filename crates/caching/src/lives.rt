// For how long a reply is shown again, from the tag words.
ghost use Rattle.std.specs.Prelude.{◌≡◌, cond, map};
ghost use Rattle.std.proofs.Math.Option.{none, some};
ghost use Rattle.laws.specs.Options.{maybe};
ghost use Rattle.settings.specs.TagWords.{tag_of};
ghost use Rattle.pdu.specs.declared.Table.TheVariants.{Registers};
ghost use Rattle.pdu.specs.declared.Asked.TheVariants.{Read};
ghost use Rattle.cache.specs.Life.{cacheable_by, life_by};

use payloads::tags::Tags;
use values::tagwords::{tag_address, tag_ttl};

// For how long a reply to a read of these registers is shown again: the smallest ttl of the tags that its registers lie in; none where some register lies in none that is wholly inside the range and has a ttl.
pub fn life_of(tags: Tags, start: u16, quantity: u16) -> Option<u16>
    ensures { maybe result ≡ cond (cacheable_by (map tag_of tags.entry.words.now) (Read Registers start quantity)) (some (life_by (map tag_of tags.entry.words.now) (Read Registers start quantity))) none }
{
    let end = start as usize + quantity as usize;
    // The tags do not overlap, so that each must begin where the one before ended.
    let mut at = start as usize;
    let mut life: Option<u16> = None;
    for word in tags.reaching(at) {
        if end <= at {
            return life;
        }
        let last = rewrite::last_of(*word);
        let ttl = tag_ttl(*word);
        if !((tag_address(*word) as usize == at) & ((last < end) & (0 < ttl))) {
            return None;
        }
        life = match life {
            None => Some(ttl),
            Some(least) => Some(least.min(ttl)),
        };
        at = last + 1;
    }
    if at < end {
        return None;
    }
    life
}
