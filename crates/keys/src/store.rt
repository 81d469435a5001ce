// The node store and the names: appending, linking, clearing, and what their words say.
ghost use Rattle.std.specs.Prelude.{◌≡◌, [], ◌∷◌, ◌++◌, ◌+◌, ◌-◌, ◌*◌, ◌^◌, ◌<◌, ◌≤◌, ◌/◌, ◌%◌, length, take, set, get_or};
ghost use Rattle.keys.specs.Limits.{tag_wide, record_words, half_word};
ghost use Rattle.keys.specs.Store.{filled_with};
ghost use Rattle.keys.specs.Words.{first_nodes, first_names};
ghost use Rattle.keys.specs.Holds.{word_at, tag_in, after_tag, retagged, first_at, end_at, child_at, next_at, start_at, size_at};

// The words of a node's record.
pub const RECORD: usize = 4;

// Where a record has a node's choices, its first and end byte, its first child and first name, and its next sibling.
const CHOICES: usize = 0;

const PLACE: usize = 1;

const UNDER: usize = 2;

const NEXT: usize = 3;

// A word holds two numbers, each below this.
const HALF: u64 = 4294967296;

// A tag is below this; a node's other choices stand above it.
const TAGS: u64 = 64;

// Two numbers in one word, the first lowest.
fn halves(low: usize, high: usize) -> u64
    requires { (low < 2 ^ 63) × (high < 2 ^ 31) }
    ensures { result ≡ low + half_word * high }
{
    low as u64 + HALF * high as u64
}

// The record of a finished node, at the next place: its choices, its first and end byte, its first child and first name, no next sibling. Word by word, the halves before them: with `copy_from_slice` reading takes a twelfth longer.
pub fn append_node(
    nodes: &mut [u64],
    at: usize,
    choices: u64,
    first: usize,
    end: usize,
    child: usize,
    name: usize,
)
    requires { (record_words * (at + 1) ≤ length nodes.old) × (first < 2 ^ 63) × (end < 2 ^ 31) × (child < 2 ^ 63) × (name < 2 ^ 31) }
    ensures { first_nodes nodes.new (at + 1) ≡ first_nodes nodes.old at ++ (choices ∷ (first + half_word * end) ∷ (child + half_word * name) ∷ 0 ∷ []) }
{
    let to = at * RECORD;
    let place = halves(first, end);
    let under = halves(child, name);
    nodes[to + CHOICES] = choices;
    nodes[to + PLACE] = place;
    nodes[to + UNDER] = under;
    nodes[to + NEXT] = 0;
}

// A node's next sibling.
pub fn link_node(nodes: &mut [u64], at: usize, next: usize)
    requires { record_words * (at + 1) ≤ length nodes.old }
    ensures { nodes.new ≡ set nodes.old (record_words * at + 3) next }
{
    nodes[at * RECORD + NEXT] = next as u64;
}

// A name's word, at the next place: a spelling's start and length; nothing is stored where there is no such place.
pub fn append_name(names: &mut [u64], at: usize, start: usize, count: usize)
    requires { (start < 2 ^ 31) × (count < 2 ^ 63) }
    ensures { first_names names.new (at + 1) ≡ take (length names.old) (first_names names.old at ++ ((start * half_word + count) ∷ [])) }
{
    if at < names.len() {
        names[at] = halves(count, start);
    }
}

// From a word on, all of them are `zero` now.
pub fn clear<T: Copy>(words: &mut [T], from: usize, zero: T)
    ensures { words.new ≡ filled_with zero (length words.old) (take from words.old) }
{
    for i in from..words.len() {
        words[i] = zero;
    }
}

// ---- Reading the words

// A word of the store, 0 past its end.
fn stored(words: &[u64], at: usize) -> u64
    ensures { result ≡ get_or words.now at 0 }
{
    words.get(at).copied().unwrap_or(0)
}

// The lower half of a word.
fn low(x: u64) -> usize
    ensures { (result ≡ x % half_word) × (result < half_word) }
{
    (x % HALF) as usize
}

// The upper half of a word.
fn high(x: u64) -> usize
    ensures { (result ≡ x / half_word) × (result < half_word) }
{
    (x / HALF) as usize
}

// What a walk of a node starts from: its own choices and its first child.
#[derive(Clone, Copy)]
pub struct Node {
    pub word: u64,
    pub child: usize,
}

// The node of a number.
pub fn node_at(nodes: &[u64], at: usize) -> Node
    requires { at < half_word }
    ensures { (result.word ≡ word_at nodes.now at) × (result.child ≡ child_at nodes.now at) × (result.child < half_word) }
{
    Node {
        word: stored(nodes, at * RECORD + CHOICES),
        child: low(stored(nodes, at * RECORD + UNDER)),
    }
}

// One of the words of a node's record, 0 past the last node.
fn word_of(nodes: &[u64], at: usize, which: usize) -> u64
    requires { which < record_words }
    ensures { result ≡ get_or nodes.now (at * record_words + which) 0 }
{
    if at <= nodes.len() / RECORD {
        return stored(nodes, at * RECORD + which);
    }
    0
}

// A node's choices but for its tag.
fn above_tag(word: u64) -> u64
    ensures { (result ≡ after_tag word) × (result < 2 ^ 58) }
{
    word / TAGS
}

// A node's tag, 0 past the last node.
pub fn tag_at(nodes: &[u64], at: usize) -> usize
    ensures { (result ≡ tag_in (word_at nodes.now at)) × (result < 2 ^ tag_wide) }
{
    (word_of(nodes, at, CHOICES) % TAGS) as usize
}

// A node's choices after its tag, the first lowest.
pub fn choices_at(nodes: &[u64], at: usize) -> u64
    ensures { result ≡ after_tag (word_at nodes.now at) }
{
    above_tag(word_of(nodes, at, CHOICES))
}

// Another tag for a node, whose other choices stay.
pub fn retag(nodes: &mut [u64], at: usize, tag: usize)
    requires { (record_words * (at + 1) ≤ length nodes.old) × (tag < 2 ^ tag_wide) }
    ensures { nodes.new ≡ set nodes.old (record_words * at) (retagged (word_at nodes.old at) tag) }
{
    let i = at * RECORD + CHOICES;
    nodes[i] = tag as u64 + TAGS * above_tag(nodes[i]);
}

// Where a node stands in the text: its first and its end byte.
#[derive(Clone, Copy)]
pub struct Place {
    pub first: usize,
    pub end: usize,
}

// The place of a node.
pub fn place_at(nodes: &[u64], at: usize) -> Place
    ensures { (result.first ≡ first_at nodes.now at) × (result.end ≡ end_at nodes.now at) × (result.first < half_word) × (result.end < half_word) }
{
    let word = word_of(nodes, at, PLACE);
    Place {
        first: low(word),
        end: high(word),
    }
}

// A node's next sibling.
pub fn next_of(nodes: &[u64], at: usize) -> usize
    requires { at < half_word }
    ensures { (result ≡ next_at nodes.now at) × (result < half_word) }
{
    low(stored(nodes, at * RECORD + NEXT))
}

// Where a spelling stands in the text.
#[derive(Clone, Copy)]
pub struct Name {
    pub start: usize,
    pub size: usize,
}

// The name of a number.
pub fn name_at(names: &[u64], at: usize) -> Name
    ensures { (result.start ≡ start_at names.now at) × (result.size ≡ size_at names.now at) × (result.start < half_word) × (result.size < half_word) }
{
    let word = stored(names, at);
    Name {
        start: high(word),
        size: low(word),
    }
}
