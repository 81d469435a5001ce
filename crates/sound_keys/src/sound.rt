// Is this a key? A check that goes through it once and stores nothing.
ghost use Rattle.std.specs.Prelude.{◌≡◌, ◌*◌, ◌^◌, ◌<◌, ◌≤◌, length};
ghost use Rattle.keys.specs.Limits.{widest, count_width};
ghost use Rattle.node_table.specs.Forms.{table_words};
ghost use Rattle.key_parts.specs.Widths.{Sized};
ghost use Rattle.differs.specs.Differ.{checked};
ghost use Rattle.sound_keys.specs.Sound as check;

use crate::source::Source;
use fields::take;
use key_parts::refusal::{Refusal, Stop};
use key_parts::{choice, padding};
use node_table::forms;
use node_table::forms::Row;
use words::limits::{Key, Tree};

// A place inside a node: its bit, its next form, and how many times that form's first step is done.
#[derive(Clone, Copy)]
pub struct Spot {
    pub bit: usize,
    pub form: usize,
    pub n: usize,
}

// There is no key, by what stands at a bit.
fn bad_key(bit: usize) -> Stop
    ensures { result ≡ check.bad_at bit }
{
    Stop {
        why: Refusal::BadKey,
        bit,
    }
}

// Each passes what stands at a bit, to the bit behind it.
impl Source<'_> {
    // A spelling: 10 where it is cut short or has no byte.
    fn check_spelling(&self, w: usize, bit: usize) -> Result<usize, Stop>
        requires { (bit ≤ length self.now.key.now * 8) × (w ≤ widest) }
        ensures { check.SpellingOn self.now w bit result }
    {
        let Some(n) = take::take_field(self.key, bit, w) else {
            return Err(bad_key(bit));
        };
        let count = n as usize;
        let from = bit + w;
        if count == 0 || (self.key.len() * 8 - from) / 8 < count {
            return Err(bad_key(bit));
        }
        Ok(from + count * 8)
    }

    // n spellings.
    fn check_spellings(&self, w: usize, n: usize, bit: usize) -> Result<usize, Stop>
        requires { (bit ≤ length self.now.key.now * 8) × (w ≤ widest) }
        ensures { check.SpellingsOn (check.bits self.now) w n bit result }
    {
        let mut at = bit;
        for _ in 0..n {
            at = self.check_spelling(w, at)?;
        }
        Ok(at)
    }

    // A field that chooses: 10 where it is cut short or leads to no form.
    #[inline(always)]
    fn check_choice(&self, steps: usize, r: Row, bit: usize) -> Result<Spot, Stop>
        requires { (bit ≤ length self.now.key.now * 8) × Sized r × (5 ≤ r.op) }
        ensures { check.Chooses self.now steps r bit result }
    {
        let c = choice::take_choice(self.forms, self.key, steps, r, bit)?;
        Ok(Spot {
            bit: c.bit,
            form: c.form,
            n: c.n,
        })
    }

    // A step that goes into no child.
    fn check_plain(&self, steps: usize, r: Row, s: Spot) -> Result<Spot, Stop>
        requires { check.Spotted self.now s × Sized r × (r.op ≡ 1 → ⊥) × (r.op ≡ 3 → ⊥) }
        ensures { check.PlainOn (check.bits self.now) self.now.forms.now steps r s result }
    {
        match r.op {
            forms::SPELLINGS => Ok(Spot {
                bit: self.check_spellings(r.w, s.n, s.bit)?,
                form: r.b,
                n: 1,
            }),
            forms::SPELLING => Ok(Spot {
                bit: self.check_spelling(r.w, s.bit)?,
                form: r.b,
                n: s.n,
            }),
            forms::CHOICE.. => self.check_choice(steps, r, s.bit),
            _ => Err(bad_key(s.bit)),
        }
    }

    // The spelling after a child, if its length has any bits.
    fn check_after(&self, w: usize, bit: usize) -> Result<usize, Stop>
        requires { (bit ≤ length self.now.key.now * 8) × (w ≤ widest) }
        ensures { check.AfterOn (check.bits self.now) w bit result }
    {
        if w == 0 {
            return Ok(bit);
        }
        self.check_spelling(w, bit)
    }

    // A node of a class, with room for `left` nodes one above the other: it meets 10 at its tag, 6, then its fields in order.
    #[cycle(check)]
    #[inline(always)]
    fn check_node(&self, class: usize, left: usize, bit: usize) -> Result<usize, Stop>
        requires { (bit ≤ length self.now.key.now * 8) × (class < 2 ^ 32) }
        ensures { check.NodeOn self.now left class bit result }
    {
        let steps = forms::word_at(self.forms, 1);
        let tags = Row {
            op: forms::CHOICE,
            ..forms::class_at(self.forms, class)
        };
        let tag = self.check_choice(steps, tags, bit)?;
        if left == 0 {
            return Err(Stop {
                why: Refusal::TooTall,
                bit,
            });
        }
        self.check_rest(left - 1, steps, tag)
    }

    // What is left of a node from a form on.
    #[cycle(check)]
    pub fn check_rest(&self, left: usize, steps: usize, from: Spot) -> Result<usize, Stop>
        requires { check.Spotted self.now from }
        ensures { check.RestOn self.now left steps from result }
    {
        let mut s = from;
        for depth in (0..steps).rev() {
            let r = forms::row_at(self.forms, s.form);
            match r.op {
                forms::END => return Ok(s.bit),
                forms::NODES => {
                    s = Spot {
                        bit: self.check_nodes(left, r, s)?,
                        form: r.b,
                        n: 1,
                    };
                }
                _ => s = self.check_plain(depth, r, s)?,
            }
        }
        Err(bad_key(s.bit))
    }

    // Nodes one after the other, a spelling after each if its length has any bits.
    #[cycle(check)]
    #[inline(always)]
    fn check_nodes(&self, left: usize, r: Row, s: Spot) -> Result<usize, Stop>
        requires { check.Spotted self.now s × Sized r }
        ensures { check.NodesOn self.now left r s result }
    {
        let mut at = s.bit;
        for _ in 0..s.n {
            at = self.check_node(r.a, left, at)?;
            at = self.check_after(r.w, at)?;
        }
        Ok(at)
    }
}

// A whole key by the table: not too long, its edition, its tree, zero bits to the byte and no byte more.
pub fn check_whole<'a>(forms: &'a [u16], key: &'a [u8]) -> Result<(), Stop>
    requires { forms.now ≡ table_words count_width }
    ensures { check.Wholly forms.now key.now result }
{
    if Key::MOST < key.len() {
        return Err(bad_key(0));
    }
    if take::take_field(key, 0, forms::EDITION_WIDTH) != Some(forms::EDITION) {
        return Err(bad_key(0));
    }
    let source = Source { forms, key };
    let behind = source.check_node(forms::TYPE, Tree::TALLEST, forms::EDITION_WIDTH)?;
    let end = padding::pad_end(key, behind);
    if end < key.len() * 8 {
        return Err(bad_key(end));
    }
    Ok(())
}

// Is this a key? Its refusal and its bit where take-back with room enough has one.
pub fn sound(key: &[u8]) -> Result<(), Stop>
    ensures { check.said result ≡ check.verdict (checked key.now) }
{
    check_whole(&forms::words(), key)
}
