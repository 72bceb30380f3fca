// Why a line was not carried out.
use std::io;

#[derive(Debug, Drop)]
pub enum Fault {
    // It cannot be read, or asks for what is not there.
    Line,
    // Nothing could be printed.
    Outside(io::Error),
}

impl From<io::Error> for Fault {
    fn from(error: io::Error) -> Fault {
        Fault::Outside(error)
    }
}
