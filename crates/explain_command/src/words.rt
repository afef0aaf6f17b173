use command_ends::{Ended, Status};
use refusal_text::Refusal;
use std::{env, io};

/// The words after the program's name. A word that isn't UTF-8 makes a faulty command line.
pub fn words_of(rt: &HostRuntime) -> Result<Vec<String>, Ended> {
    match env::args(rt) {
        Ok(args) => args
            .skip(1)
            .collect(rt.alloc())
            .map_err(|_| Ended::of(Status::NoMemory, None)),
        Err(error) if error.kind() == io::ErrorKind::OutOfMemory => {
            Err(Ended::of(Status::NoMemory, None))
        }
        Err(_) => Err(Ended::of(Status::Usage, Some(Refusal::NotUtf8))),
    }
}
