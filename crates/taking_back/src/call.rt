// The open call: a key taken back, or a refusal and zeros.
ghost use Rattle.taking_back.specs.Call.{TakesBack};

// A refusal and its bit.
pub use key_parts::refusal::Stop as NotTaken;

// How much was used of each slice, where the last node is the root; letters are bytes of text.
#[derive(Clone, Copy, Debug, PartialEq, Eq)]
pub struct Used {
    pub nodes: usize,
    pub names: usize,
    pub letters: usize,
}

// Takes a key back.
pub fn take_back(
    key: &[u8],
    nodes: &mut [u64],
    names: &mut [u64],
    text: &mut [u8],
) -> Result<Used, NotTaken>
    ensures { TakesBack key nodes names text result }
{
    let (nodes, names, letters) = key_in::back::take_back(key, nodes, names, text)?;
    Ok(Used {
        nodes,
        names,
        letters,
    })
}
