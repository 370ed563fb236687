//! The machine that runs the code of an extension. It pauses at any charge and at any read, and goes on
//! where it stopped.
#![tactic(auto)]

mod acts;
mod buffers;
mod bytes;
mod calling;
mod changes;
mod doing;
mod frame;
mod halt;
mod here;
mod looking;
mod moving;
mod operators;
mod paused;
mod phase;
mod reading;
mod records;
mod rights;
mod running;
mod slots;
mod stack;
mod stepping;
mod values;
mod world;

pub use paused::Paused;
pub use phase::Phase;
pub use running::Gen;
