//! What is said on standard error.

use status_rule::Status;
use std::io;
use uc_io::Failure;

/// A program, as it speaks of itself.
#[derive(Clone, Copy, Debug)]
pub struct Speaker<'a> {
    /// Its name, and what stands behind it in a line of its own.
    pub name: &'a str,
    /// The forms of its command line.
    pub forms: &'a str,
}

impl Speaker<'_> {
    /// Says in one line, for people, why a run ended so: where the words are faulty, a file was not read, standard
    /// output did not take all or memory ran out. Otherwise standard output tells all, and nothing is said.
    pub fn remark(&self, err: &impl Print, status: Status, failure: Option<&Failure>) {
        let (name, forms) = (self.name, self.forms);
        let _said = match status {
            Status::Usage(_) => println!(err; "usage: {forms}"),
            Status::ReadFault => self.say_unread(err, failure),
            Status::WriteFault => println!(err; "{name}: not all of the output could be written"),
            Status::NoMemory => println!(err; "{name}: memory ran out"),
            Status::Done | Status::BadInput | Status::Short | Status::Panicked(_) => Ok(()),
        };
    }

    /// Says which file was not read, and why, as far as that is known.
    fn say_unread(&self, err: &impl Print, failure: Option<&Failure>) -> io::Result<()> {
        let name = self.name;
        let Some(failure) = failure else {
            return println!(err; "{name}: a file could not be read");
        };
        let why = failure.why();
        match failure.name() {
            Some(file) => println!(err; "{name}: {file}: {why}"),
            None => println!(err; "{name}: a file could not be read: {why}"),
        }
    }
}
