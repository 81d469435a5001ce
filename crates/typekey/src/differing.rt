// The call that compares two keys: any bytes and a lent list; the places where their trees differ, or a refusal and zeros.
ghost use Rattle.comparing.specs.Call.{Differs};

pub use comparing::differ::{Undiffered, Whose};

// Says what differs between two keys.
pub fn differ(left: &[u8], right: &[u8], list: &mut [u64]) -> Result<usize, Undiffered>
    ensures { Differs left.now right.now list.old result list.new }
{
    comparing::differ::differ(left, right, list)
}
