//! The messages between clients and server, and their one spelling as bytes.
#![tactic(auto)]

mod answer_fields;
mod answers;
mod decode;
mod encode;
mod faults;
mod fields;
mod granted;
mod item_fields;
mod items;
mod lists;
mod numbers;
mod request_fields;
mod requests;
mod writing;
mod writing_items;
mod writing_lists;
mod writing_messages;

pub use answers::{Answer, FetchAnswer, InstallAnswer, PutAnswer, TextAnswer};
pub use decode::{decode_answer, decode_request};
pub use encode::{encode_answer, encode_request, one_message, share_answer, share_request};
pub use faults::WireFault;
pub use items::{Item, Items};
pub use requests::{Calls, Request};
