// The open calls as C, Rust, Python and JavaScript see them: pointers, lengths and 64-bit numbers only, each answer as eight words.
#![tactic(auto)]

ghost use Rattle.typekey_c.specs.Words.{Tells, TellsBack, TellsDifference};

use told::answer::{
    Denied, DeniedBack, DeniedDifference, tell_difference, tell_reading, tell_taking,
};
use told::options::preserve_parens;
use typekey::differing::differ;
use typekey::reading::read;
use typekey::taking::take_back;

// Reads a type; options: 1 for preserve_parens. The answer is 0, then nodes, names, notes, bytes of key, the end's token and half, and type rules entered; or the refusal's number,
// token, half and byte. The other words are 0.
#[unsafe(no_mangle)]
pub extern "C" fn typekey_read(
    text: &[u8],
    tokens: &[u64],
    start: usize,
    options: u64,
    nodes: &mut [u64],
    names: &mut [u64],
    notes: &mut [u64],
    key: &mut [u8],
    answer: &mut [u64; 8],
)
    ensures { Tells text tokens start options nodes names notes key answer }
{
    let parens = preserve_parens(options);
    let r = read(text, tokens, start, parens, nodes, names, notes, key);
    tell_reading(r.map_err(Denied::from), answer);
}

// Takes a key back. The answer is 0, then nodes, names and bytes of text; or the refusal's number and bit. The other words are 0.
#[unsafe(no_mangle)]
pub extern "C" fn typekey_take_back(
    key: &[u8],
    nodes: &mut [u64],
    names: &mut [u64],
    text: &mut [u8],
    answer: &mut [u64; 8],
)
    ensures { TellsBack key nodes names text answer }
{
    let r = take_back(key, nodes, names, text);
    tell_taking(r.map_err(DeniedBack::from), answer);
}

// Says what differs between two keys. The answer is 0 and how many pairs there are; or the refusal's number, side and bit. The other words are 0.
#[unsafe(no_mangle)]
pub extern "C" fn typekey_differ(left: &[u8], right: &[u8], list: &mut [u64], answer: &mut [u64; 8])
    ensures { TellsDifference left right list answer }
{
    let r = differ(left, right, list);
    tell_difference(r.map_err(DeniedDifference::from), answer);
}
