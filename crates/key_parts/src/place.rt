// Where taking a key back is: in the key and its outputs, and inside a node.

// Where taking is: the bit; the nodes left; the nodes, names and bytes of text used.
#[derive(Clone, Copy)]
pub struct Pos {
    pub bit: usize,
    pub nodes: usize,
    pub used: usize,
    pub names: usize,
    pub chars: usize,
}

// The same inside a node: the nodes used before it, its choices so far and how many bits they have, its first child; its next form, and how many times
// that form's first step is done.
#[derive(Clone, Copy)]
pub struct Fill {
    pub at: Pos,
    pub base: usize,
    pub word: u64,
    pub shift: usize,
    pub child: usize,
    pub form: usize,
    pub n: usize,
}
