//! The outside as the program sees it: where bytes come from and where they go, with a count of the
//! faults that were met. Forms in memory tell their content; real streams do not.
#![tactic(auto)]

mod dial;
mod door;
mod gate;
mod input;
mod link;
mod link_input;
mod link_output;
mod mem_dial;
mod mem_door;
mod mem_link;
mod mem_sink;
mod mem_source;
mod memory;
mod output;
mod sink;
mod source;
mod streams;
mod sure;
mod tcp;

pub use dial::{Dial, Dialled};
pub use door::{Accepted, Bound, Door};
pub use gate::{Gate, GatePlace, HoldGate, NoGate};
pub use input::{Input, read_input};
pub use link::Link;
pub use link_input::read_link;
pub use link_output::write_link;
pub use mem_dial::MemDial;
pub use mem_door::MemDoor;
pub use mem_link::MemLink;
pub use mem_sink::MemSink;
pub use mem_source::MemSource;
pub use output::{Written, write_output};
pub use sink::{Sink, Wrote};
pub use source::{Source, Took};
pub use streams::{StdSink, StdSource};
pub use sure::{SureSink, SureSource};
pub use tcp::{TcpDial, TcpDoor, TcpLink};
