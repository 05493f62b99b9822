// What ends the program before its input ends.
use std::error::Error;
use std::fmt;

#[derive(Clone, Copy, Debug)]
pub(crate) enum Failure {
    Input,
    Output,
}

impl fmt::Display for Failure {
    fn fmt<W: fmt::Write>(&self, f: &mut fmt::Formatter<W>) -> fmt::Result {
        match self {
            Failure::Input => write!(f, "sealwax: standard input cannot be read"),
            Failure::Output => write!(f, "sealwax: standard output cannot be written"),
        }
    }
}

impl Error for Failure {}
