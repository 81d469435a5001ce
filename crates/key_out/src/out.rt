// Key out: the key of a tree that stands in the store.
ghost use Rattle.std.specs.Prelude.{◌*◌, ◌≤◌, ◌<◌, length};
ghost use Rattle.keys.specs.Limits.{half_word};
ghost use Rattle.fields.specs.Put.{far};
ghost use Rattle.key_out.specs.Out.{Keyed};

use fields::put;
use keys::store;
use keys::store::Name;
use node_table::moves::Mark;
use node_table::walk::Sink;
use node_table::{forms, walk};

// The words of nodes that are put at once: a reference of one name and no arguments, and a string.
const ONE_NAME: u64 = 65;

const STRING: u64 = 3;

// The tag of keywords, how many tags there may be, and how many keywords.
const KEYWORD: u64 = 2;

const TAGS: u64 = 64;

const KEYWORDS: u64 = 16;

// A tree's names and the text that spells them, as a walk puts them into a key: the bits of a choice, of a spelling's length and bytes, and none of a node but what it holds.
#[derive(Clone, Copy)]
struct Spellings<'a> {
    names: &'a [u64],
    text: &'a [u8],
}

impl Sink for Spellings<'_> {
    ghost use Rattle.std.specs.Prelude.{length};
    ghost use Rattle.keys.specs.Holds.{Spells};
    ghost use Rattle.key_out.specs.Out.{key_bits, is_once};
    ghost use Rattle.key_out.specs.Sound.{bits_sound};

    type Item = u8;

    ghost out = { key_bits };

    ghost asks = { λ s. Spells s.names.now s.text.now };

    ghost most = { λ s. length s.names.now };

    ghost seen = { λ key. key };

    ghost known = { is_once };

    ghost sound = { bits_sound };

    fn under(self, depth: usize) -> usize {
        depth
    }

    fn node(self, _key: &mut [u8], to: usize, _at: usize, _depth: usize) -> usize {
        to
    }

    fn choice(
        self,
        key: &mut [u8],
        to: usize,
        width: usize,
        number: usize,
        _depth: usize,
    ) -> usize {
        put::put_number(key, to, width, number as u32)
    }

    fn name(self, key: &mut [u8], width: usize, _depth: usize, o: Mark) -> Mark {
        if self.names.len() <= o.name {
            return o;
        }
        let Name { start, size } = store::name_at(self.names, o.name);
        if self.text.len() < start + size {
            return o;
        }
        let next = put::put_number(key, o.to, width, size as u32);
        Mark {
            to: put::put_text(self.text, start, size, key, next),
            name: o.name + 1,
        }
    }

    fn knows(self, class: usize, word: u64) -> bool {
        class == forms::TYPE && (word == ONE_NAME || word == STRING || word % TAGS == KEYWORD)
    }

    // Tag and choices in one field, and for a name or a string its spelling; behind a name that there are no arguments.
    fn at_once(self, key: &mut [u8], _class: usize, word: u64, depth: usize, o: Mark) -> Mark {
        if word == ONE_NAME {
            let to = put::put_number(key, o.to, 18, 4097);
            let p = self.name(key, 16, depth, Mark { to, ..o });
            let to = put::put_number(key, p.to, 1, 0);
            return Mark { to, ..p };
        }
        if word == STRING {
            let to = put::put_number(key, o.to, 9, 24);
            return self.name(key, 16, depth, Mark { to, ..o });
        }
        let number = KEYWORD * KEYWORDS + word / TAGS % KEYWORDS;
        let to = put::put_number(key, o.to, 10, number as u32);
        Mark { to, ..o }
    }
}

// The key of the type whose root is the node `root` and which is at most `tall` high, as much of it as fits, and zeros; its length in bytes.
pub fn put_key(
    nodes: &[u64],
    names: &[u64],
    text: &[u8],
    root: usize,
    tall: usize,
    key: &mut [u8],
) -> usize
    requires { (length key.old * 8 ≤ far) × (root < half_word) }
    ensures { Keyed nodes.now names.now text.now root tall (length key.old) result key.new }
{
    key.fill(0);
    let at = put::put_number(key, 0, forms::EDITION_WIDTH, forms::EDITION);
    let end = walk::put_tree(Spellings { names, text }, nodes, key, root, tall, at);
    (end.to + 7) / 8
}
