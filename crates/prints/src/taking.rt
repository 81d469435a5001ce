// What taking a key back came to: its tree without bytes of a text, or the refusal with its bit.
use crate::reading::{ok_key, visit_words};
use crate::seen::{Seen, Whole};
use crate::tagged::walk;
use crate::{json, say, tree};
use lines::line::Out;
use lines::sum::root;
use speech::ask::{Form, Side};
use speech::hex::pointed;
use speech::put::numbered;
use words::limits::Tree;
use words::refusal::Refusal;

fn refused_json(out: &mut Out, why: Refusal, bit: usize, side: Option<Side>) {
    json::refusal(out, side, why, false);
    numbered(out, b",\"bit\":", bit);
    out.bytes(b"}}\n");
}

fn refused_all(out: &mut Out, key: &[u8], why: Refusal, bit: usize) {
    out.bytes(b"refused: ");
    say::refusal(out, why);
    numbered(out, b" at bit ", bit);
    out.bytes(b": ");
    say::why(out, why, false);
    out.byte(b'\n');
    pointed(out, key, bit);
}

fn refused_line(out: &mut Out, why: Refusal, bit: usize) {
    out.bytes(b"refused ");
    say::refusal(out, why);
    numbered(out, b" at bit ", bit);
    out.byte(b'\n');
}

// A refusal, in the form that is asked for, with its side if there are two.
pub fn refused(
    out: &mut Out,
    key: &[u8],
    why: Refusal,
    bit: usize,
    form: Form,
    side: Option<Side>,
) {
    match form {
        Form::Json => refused_json(out, why, bit, side),
        Form::Key => {
            say::side(out, side);
            refused_line(out, why, bit);
        }
        Form::Tree | Form::All => {
            say::side(out, side);
            refused_all(out, key, why, bit);
        }
    }
}

// `ok` and the key, on a line.
fn ok_line(out: &mut Out, key: &[u8]) {
    ok_key(out, key);
    out.byte(b'\n');
}

// A key and its tree, in a form that shows the tree.
fn formed(out: &mut Out, key: &[u8], t: Whole, form: Form) {
    match form {
        Form::Json => {
            json::key(out, key);
            json::tree(out, t);
            out.bytes(b"}\n");
        }
        Form::Tree => tree::tree(out, t),
        Form::Key | Form::All => {
            ok_line(out, key);
            tree::tree(out, t);
        }
    }
}

// What was taken back, in the form that is asked for: so many nodes and names.
pub fn granted<'a>(
    out: &mut Out,
    key: &[u8],
    nodes: &[u64],
    names: &'a [u64],
    letters: &'a [u8],
    visits: &'a mut [u64],
    used: usize,
    named: usize,
    form: Form,
) {
    if form == Form::Key {
        ok_line(out, key);
        return;
    }
    let n = visit_words(used, named).min(visits.len());
    let visits = &mut visits[..n];
    let size = walk(nodes, names, root(used), Tree::TALLEST, visits);
    let seen = Seen::of(visits, names, letters);
    formed(out, key, Whole::of(seen, size), form);
}
