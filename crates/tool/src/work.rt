// What it takes to answer.
use crate::room::Room;
use lines::line::Out;
use speech::ask::Job;
use std::alloc::{AllocError, Global};

// Where the answer goes, the room for it, and how it is read and printed. Each module adds what it does with these.
#[derive(Drop)]
pub struct Work {
    pub out: Out,
    pub room: Room,
    pub job: Job,
}

impl Work {
    pub fn new(alloc: Global, job: Job) -> Result<Work, AllocError> {
        Ok(Work {
            out: Out::new(),
            room: Room::new(alloc)?,
            job,
        })
    }
}
