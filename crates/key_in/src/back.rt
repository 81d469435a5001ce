// Taking a key back: from its bytes to nodes, names and text, by the table of forms.
ghost use Rattle.std.specs.Prelude.{◌≡◌, eqb};
ghost use Rattle.keys.specs.Limits.{no_space};
ghost use Rattle.keys.specs.Key.{refusal_place};
ghost use Rattle.words.specs.Refusal.{number_of};
ghost use Rattle.key_in.specs.Back as back;

use fields::reader;
use key_parts::place::{Fill, Pos};
use key_parts::refusal::{Refusal, Stop};
use key_parts::{choice, padding, step};
use keys::store;
use node_table::forms;
use node_table::forms::{Row, TABLE};
use words::limits::{Key, Tree};

// What a key is taken back into.
// Forms and key stay plain `&`s beside it: a `&` field can't be lent again.
#[derive(Drop)]
struct Outputs<'a> {
    nodes: &'a mut [u64],
    names: &'a mut [u64],
    text: &'a mut [u8],
}

impl Outputs<'_> {
    // A node of a class, with room for `left` nodes one above the other: it meets 10 at its tag, 6, 8, then its fields in order.
    #[cycle(take)]
    fn node(
        &mut self,
        forms: &[u16; TABLE],
        key: &[u8],
        class: usize,
        left: usize,
        p: Pos,
    ) -> Result<Pos, Stop>
        requires { back.AsksNode forms.now key.now self.old.nodes.now self.old.names.now self.old.text.now class p }
        ensures same { back.Same self.old self.new }
        ensures takes { back.TakesNode forms key self.old left class p result self.new }
    {
        let bit = p.bit;
        let steps = forms::word_at(forms, 1);
        let tags = forms::class_at(forms, class);
        let tag = choice::take_tag(forms, key, steps, tags, bit)?;
        if left == 0 {
            return Err(Stop {
                why: Refusal::TooTall,
                bit,
            });
        }
        if p.nodes == 0 {
            return Err(Stop {
                why: Refusal::NoRoom,
                bit,
            });
        }
        let mut s = Fill {
            at: Pos {
                bit: tag.bit,
                nodes: p.nodes - 1,
                ..p
            },
            base: p.used,
            word: tag.number as u64,
            shift: tags.w,
            child: 0,
            form: tag.form,
            n: tag.n,
        };
        for done in 0..steps {
            let r = forms::row_at(forms, s.form);
            if r.op == forms::END {
                store::append_node(self.nodes, s.at.used, s.word, 0, 0, s.child, p.names);
                return Ok(Pos {
                    used: s.at.used + 1,
                    ..s.at
                });
            }
            if r.op == forms::NODES {
                s = self.row(forms, key, left - 1, r, s)?;
            } else {
                s = step::take_plain(forms, key, self.names, self.text, steps - (done + 1), r, s)?;
            }
        }
        Err(Stop {
            why: Refusal::BadKey,
            bit: s.at.bit,
        })
    }

    // n nodes, one after the other, a spelling after each if its length has any bits.
    #[cycle(take)]
    fn row(
        &mut self,
        forms: &[u16; TABLE],
        key: &[u8],
        left: usize,
        r: Row,
        s: Fill,
    ) -> Result<Fill, Stop>
        requires { back.AsksNodes forms.now key.now self.old.nodes.now self.old.names.now self.old.text.now r s }
        ensures same { back.Same self.old self.new }
        ensures takes { back.TakesNodes forms key self.old left r s result self.new }
    {
        let mut q = s;
        for _ in 0..s.n {
            let at = self.node(forms, key, r.a, left, q.at)?;
            q = step::link_child(self.nodes, q, at);
            q = step::take_after(key, self.names, self.text, r.w, q)?;
        }
        Ok(Fill {
            form: r.b,
            n: 1,
            ..q
        })
    }
}

// A whole key: not too long, its edition, its tree, zero bits to the byte and no byte more.
fn take_whole(
    key: &[u8],
    nodes: &mut [u64],
    names: &mut [u64],
    text: &mut [u8],
) -> Result<Pos, Stop>
    ensures { back.TakesWhole key nodes names text result }
{
    let bad = Stop {
        why: Refusal::BadKey,
        bit: 0,
    };
    if Key::MOST < key.len() {
        return Err(bad);
    }
    let Some((e, next)) = reader::field_at(key, 0, forms::EDITION_WIDTH) else {
        return Err(bad);
    };
    if e != forms::EDITION {
        return Err(bad);
    }
    let words = forms::words();
    let start = Pos {
        bit: next,
        nodes: nodes.len() / store::RECORD,
        used: 0,
        names: 0,
        chars: 0,
    };
    let mut outputs = Outputs { nodes, names, text };
    let q = outputs.node(&words, key, forms::TYPE, Tree::TALLEST, start)?;
    let end = padding::pad_end(key, q.bit);
    if end < key.len() * 8 {
        return Err(Stop { bit: end, ..bad });
    }
    Ok(q)
}

// A refusal's place is its bit; that of 11 is 0.
fn place_of(stop: Stop) -> usize
    ensures { result ≡ refusal_place (eqb (number_of stop.why) no_space) stop.bit }
{
    if stop.why == Refusal::NoSpace {
        0
    } else {
        stop.bit
    }
}

// Takes a key back: its tree, its names and its spellings, then zeros, and how many nodes, names and bytes of text it has used; all zeros on a refusal.
pub fn take_back(
    key: &[u8],
    nodes: &mut [u64],
    names: &mut [u64],
    text: &mut [u8],
) -> Result<(usize, usize, usize), Stop>
    ensures { back.GivesBack key nodes names text result }
{
    match take_whole(key, nodes, names, text) {
        Ok(q) => {
            store::clear(nodes, q.used * store::RECORD, 0);
            store::clear(names, q.names, 0);
            store::clear(text, q.chars, 0);
            Ok((q.used, q.names, q.chars))
        }
        Err(stop) => {
            nodes.fill(0);
            names.fill(0);
            text.fill(0);
            Err(Stop {
                bit: place_of(stop),
                ..stop
            })
        }
    }
}
