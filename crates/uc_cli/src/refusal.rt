//! Why a command writes nothing but a line that says so.
ghost use Rattle.uc_io.specs.Writing.{Writes};
ghost use Rattle.status_rule.specs.Causes.{WriteCause};
ghost use Rattle.status_rule.specs.Written.{Ends, memory_line};
ghost use Rattle.uc_cli.specs.Refusal.{line_of, status_of};

use status_rule::{Status, after_write};
use tool_text::script_text::ScriptFault;
use uc_bytes::{FileFault, Text};
use uc_io::{Sink, SinkFailed, write_line};
use uc_report::{put_fault, put_no_entry, put_topology_fault, put_unread};
use uc_script::put_script_fault;
use uc_topology::TopoFault;

/// Why a command writes nothing but a line that says so.
#[derive(Clone, Copy, Debug)]
pub enum Refusal<'a> {
    /// The file of this name was not read.
    Unread(&'a Text),
    /// The update file of this name has no reading, or is longer than allowed.
    BadFile(&'a Text, FileFault),
    /// The topology states nothing, or is longer than allowed.
    BadTopology(TopoFault),
    /// The script states nothing, or is longer than allowed.
    BadScript(ScriptFault),
    /// No entry has this number.
    NoEntry(u64),
    NoMemory,
}

/// `error memory`.
fn put_memory<S: Sink>(out: &mut S) -> Result<(), SinkFailed>
    ensures { Writes S.stands S.faults out.old out.new memory_line result }
{
    write_line(out, &[b"error memory\n"])
}

/// Writes the line on a refusal.
pub fn refuse<S: Sink>(out: &mut S, refusal: Refusal<'_>) -> Status
    ensures ends { Ends S.stands S.faults out.old out.new (line_of refusal.entry) (status_of refusal.entry) result }
    ensures cause { WriteCause (S.faults out.old) (S.faults out.new) result }
{
    match refusal {
        Refusal::Unread(name) => after_write(Status::ReadFault, put_unread(out, name)),
        Refusal::BadFile(name, fault) => after_write(Status::BadInput, put_fault(out, name, fault)),
        Refusal::BadTopology(fault) => {
            after_write(Status::BadInput, put_topology_fault(out, fault))
        }
        Refusal::BadScript(fault) => after_write(Status::BadInput, put_script_fault(out, fault)),
        Refusal::NoEntry(number) => after_write(Status::BadInput, put_no_entry(out, number)),
        Refusal::NoMemory => after_write(Status::NoMemory, put_memory(out)),
    }
}
