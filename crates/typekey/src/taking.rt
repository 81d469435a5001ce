// The call that takes a key back: any bytes and lent slices; the key's tree, names and spellings, or a refusal and zeros.
ghost use Rattle.taking_back.specs.Call.{TakesBack};

pub use taking_back::call::{NotTaken, Used};

// Takes a key back.
pub fn take_back(
    key: &[u8],
    nodes: &mut [u64],
    names: &mut [u64],
    text: &mut [u8],
) -> Result<Used, NotTaken>
    ensures { TakesBack key nodes names text result }
{
    taking_back::call::take_back(key, nodes, names, text)
}
