// A type a line of a reader, each read and printed.
use crate::work::Work;
use intake::feed::{Feed, footed, headed, progress, trimmed};
use std::io::Read;

impl Work {
    // All lines, at most a million million; each has room in a text.
    pub fn show_lines<R: Read + Drop>(&mut self, from: R, text: &mut [u8]) {
        let mut feed = Feed::new(from);
        for number in 1..1_000_000_000_000 {
            let Some(n) = feed.line(&mut self.out, text) else {
                break;
            };
            let line = trimmed(&text[..n]);
            self.job.line = number;
            headed(&mut self.out, line, self.job);
            self.show(line);
            progress(number);
            footed(&mut self.out, self.job);
        }
    }
}
