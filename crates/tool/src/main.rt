// typekey: reads a TypeScript type and prints its tree, its diagnostics and its key, takes a key back, or says where two differ.
#![tactic(auto)]

mod back;
mod batch;
mod diff;
mod room;
mod show;
mod work;

use crate::work::Work;
use intake::source::sought;
use lines::line::Out;
use lines::room::letter_room;
use speech::ask::{Asked, Source, all_arguments, complain};
use speech::help::{help, version};
use std::alloc::AllocError;
use std::io::Input;

// Prints the help or the version, which need no room for a reading; whether one of them is asked for.
fn printed(source: Source) -> bool {
    match source {
        Source::Help => {
            let mut out = Out::new();
            help(&mut out);
            out.flush();
            true
        }
        Source::Version => {
            let mut out = Out::new();
            version(&mut out);
            out.flush();
            true
        }
        _ => false,
    }
}

// Answers what is asked for; a text or an argument has room in a buffer.
fn answer(rt: &HostRuntime, asked: Asked, text: &mut [u8]) -> Result<(), AllocError> {
    let mut work = Work::new(rt.alloc(), asked.job)?;
    match asked.source {
        // printed already, before any room was made
        Source::Help | Source::Version => {}
        Source::Type(place) => {
            if let Some(n) = sought(rt, place, text) {
                work.show(&text[..n]);
            }
        }
        Source::Key(place) => {
            if let Some(n) = sought(rt, place, text) {
                work.show_key(&text[..n]);
            }
        }
        Source::Lines => work.show_lines(rt.reader(), text),
        Source::Keys(left, right) => {
            work.show_differences(rt, text, left, right, Work::hexed)?;
        }
        Source::Types(left, right) => {
            work.show_differences(rt, text, left, right, Work::typed)?;
        }
    }
    work.out.flush();
    Ok(())
}

fn main(rt: HostRuntime) {
    let mut text = letter_room();
    match all_arguments(&rt, &mut text) {
        Ok(Asked { source, .. }) if printed(source) => {}
        Ok(asked) => {
            if answer(&rt, asked, &mut text).is_err() {
                io::write_all(2, b"typekey: there is too little memory\n");
            }
        }
        Err(wrong) => complain(&rt, wrong, &mut text),
    }
}
