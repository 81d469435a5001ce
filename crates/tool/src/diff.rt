// Two keys, or the keys of two types, compared by the library, and what differs printed.
use crate::room::{Lent, Room, up_to};
use crate::work::Work;
use lines::given::argument;
use lines::line::Out;
use lines::sum::root;
use prints::differing::HALF;
use prints::seen::{Seen, Whole};
use prints::tagged::walk;
use prints::{differing, reading};
use speech::ask::{Form, Side};
use speech::hex::digits;
use std::alloc::AllocError;
use typekey::differing::{Whose, differ};
use typekey::reading::read;
use typekey::taking::take_back;
use words::limits::Tree;

// The words of the most pairs of places that are listed.
const PAIRS: usize = 8192;

// The side of a refused key, if it is one of the two.
fn side_of(whose: Whose) -> Option<Side> {
    match whose {
        Whose::Left => Some(Side::Left),
        Whose::Right => Some(Side::Right),
        Whose::Neither => None,
    }
}

// The tree of a sound key, which is taken back and walked; with no visits where it does not fit.
fn tree_of<'a>(
    key: &[u8],
    nodes: &mut [u64],
    names: &'a mut [u64],
    letters: &'a mut [u8],
    visits: &'a mut [u64],
) -> Whole<'a> {
    let visits = up_to(HALF, visits);
    let size = match take_back(key, nodes, names, letters) {
        Ok(u) => walk(nodes, names, root(u.nodes), Tree::TALLEST, visits),
        Err(_) => 0,
    };
    Whole::of(Seen::of(visits, names, letters), size)
}

// The trees of two keys side by side, and the pairs of places of a list.
fn show_trees(
    out: &mut Out,
    room: &mut Room,
    left: &[u8],
    right: &[u8],
    list: &[u64; PAIRS],
    form: Form,
) -> Result<(), AllocError> {
    let alloc = *room.key.allocator();
    let mut others = vec![in alloc; 0; right.len().min(room.names.len())]?;
    let mut marks = vec![in alloc; 0; right.len().min(room.letters.len())]?;
    let Room {
        nodes,
        names,
        letters,
        visits,
        ..
    } = room;
    let half = HALF.min(visits.len());
    let (first, second) = visits.split_at_mut(half);
    let left = tree_of(left, nodes, names, letters, first);
    let right = tree_of(right, nodes, &mut others, &mut marks, second);
    differing::told(out, list, left, right, form);
    Ok(())
}

impl Work {
    // The key of a type that is read whole, at the start of the room for one; its length. Else what it came to is said.
    pub fn typed(&mut self, text: &[u8]) -> Option<usize> {
        let Work { out, room, job } = self;
        let Lent {
            tokens,
            nodes,
            names,
            notes,
            key,
            ..
        } = room.lend(text, usize::MAX, usize::MAX);
        match read(text, tokens, 0, job.parens, nodes, names, notes, key) {
            Ok(c) if reading::is_whole(tokens, c.at) => return Some(c.key),
            Ok(c) => reading::unread(out, text, tokens, c, *job),
            Err(x) => reading::refused(out, text, tokens, x, *job),
        }
        None
    }

    // The key that a text of hex stands for, likewise.
    pub fn hexed(&mut self, text: &[u8]) -> Option<usize> {
        digits(text, &mut self.room.key)
            .inspect_err(|error| error.complain())
            .ok()
    }

    // The key that an argument stands for, by one of the two above.
    fn keyed<F: Fn(&mut Work, &[u8]) -> Option<usize>>(
        &mut self,
        rt: &HostRuntime,
        text: &mut [u8],
        i: usize,
        make: &F,
    ) -> Result<Option<Vec<u8>>, AllocError>
        requires { F.IsAlwaysCallable make.now }
    {
        let n = argument(rt, i, text);
        match make(self, &text[..n]) {
            Some(k) => Ok(Some(up_to(k, &mut self.room.key).to_vec(rt.alloc())?)),
            None => Ok(None),
        }
    }

    // Where two keys differ, with room for as many pairs as asked.
    fn compare(&mut self, left: &[u8], right: &[u8]) -> Result<(), AllocError> {
        let mut list = [0; PAIRS];
        let most = self.job.room.min(PAIRS / 2);
        match differ(left, right, &mut list[..2 * most]) {
            Ok(0) => differing::alike(&mut self.out, self.job.form),
            Ok(_) => show_trees(
                &mut self.out,
                &mut self.room,
                left,
                right,
                &list,
                self.job.form,
            )?,
            Err(x) => differing::refused(
                &mut self.out,
                left,
                right,
                x.why,
                side_of(x.side),
                x.bit,
                most,
                self.job.form,
            ),
        }
        Ok(())
    }

    // Where the keys differ that two arguments stand for; each has room in a text.
    pub fn show_differences<F: Fn(&mut Work, &[u8]) -> Option<usize>>(
        &mut self,
        rt: &HostRuntime,
        text: &mut [u8],
        left: usize,
        right: usize,
        make: F,
    ) -> Result<(), AllocError>
        requires { F.IsAlwaysCallable make }
    {
        self.job.side = Some(Side::Left);
        let Some(left) = self.keyed(rt, text, left, &make)? else {
            return Ok(());
        };
        self.job.side = Some(Side::Right);
        let Some(right) = self.keyed(rt, text, right, &make)? else {
            return Ok(());
        };
        self.compare(&left, &right)
    }
}
