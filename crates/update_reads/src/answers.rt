//! Why an update file, or one of several, does not stand in a catalogue.
ghost use Rattle.std.specs.Prelude.{◌≡◌};
ghost use Rattle.update_reads.specs.Reading.{in_place};

use uc_bytes::FileFault;

/// Why an update file does not stand in a catalogue.
#[derive(Clone, Copy, Debug, PartialEq, Eq)]
pub enum UpdateAnswer {
    /// The file was not read. The count of faults has risen.
    ReadFault,
    /// The file has no reading, or is longer than allowed: where and why.
    BadFile(FileFault),
    NoMemory,
}

/// Why update files do not all stand in a catalogue. A file is known by its place among the names, from 0.
#[derive(Clone, Copy, Debug, PartialEq, Eq)]
pub enum FilesAnswer {
    /// The file in this place was not read. The count of faults has risen.
    Unread(u16),
    /// The file in this place has no reading, or is longer than allowed: where and why.
    Refused(u16, FileFault),
    NoMemory,
}

impl UpdateAnswer {
    /// The answer on files of which the one in this place got this answer.
    pub fn in_place(self, place: u16) -> FilesAnswer
        ensures { result ≡ in_place place self }
    {
        match self {
            UpdateAnswer::ReadFault => FilesAnswer::Unread(place),
            UpdateAnswer::BadFile(fault) => FilesAnswer::Refused(place, fault),
            UpdateAnswer::NoMemory => FilesAnswer::NoMemory,
        }
    }
}
