//! Topologies: which threads, cores and groups a machine has, as a text states them. The reader takes no memory.
//! Cores are a partition of the threads and groups a partition of the cores; each group has the facts of its cores.
#![tactic(auto)]

mod fault;
mod forms;
mod reading;
mod tables;
mod topology;

pub use fault::{TopoCause, TopoFault};
pub use reading::{each_text_reads_one_way, read_topology};
pub use tables::{Core, GroupFacts};
pub use topology::Topology;
