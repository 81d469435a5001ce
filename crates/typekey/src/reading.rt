// The call that reads: any text, tokens, start and lent slices; tree, names, diagnostics and key, or a refusal and zeros.
ghost use Rattle.answers.specs.Reading.{Reads};

pub use answers::reading::{Counts, Refused};

// Reads a type from the token `start` on.
pub fn read(
    text: &[u8],
    tokens: &[u64],
    start: usize,
    preserve_parens: bool,
    nodes: &mut [u64],
    names: &mut [u64],
    notes: &mut [u64],
    key: &mut [u8],
) -> Result<Counts, Refused>
    ensures { Reads nodes names notes key text tokens start preserve_parens result }
{
    calls::reading::read(
        text,
        tokens,
        start,
        preserve_parens,
        nodes,
        names,
        notes,
        key,
    )
}
