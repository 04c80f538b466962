//! Scripts: the events of a whole network, the requests of a node, and the lines that tell them.
//!
//! `read_script` reads the events of a script and `read_requests` the request lines of a node, or their
//! first bad line. `read_event` and `read_request` read one line, and `print_event` writes one.
//! `events_are_spelled` and `requests_are_spelled` are the laws of their texts: each event and each
//! request has one text, and no other line tells it. The formats of the lines and their limits stand in
//! docs/PROTOCOL.md.
#![tactic(auto)]

mod actor_text;
mod event;
mod event_printing;
mod event_text;
mod fields;
mod laws;
mod limits;
mod message_text;
mod request_text;
mod requests;
mod script;

pub use event::Event;
pub use event_printing::print_event;
pub use event_text::read_event;
pub use laws::{events_are_spelled, requests_are_spelled};
pub use limits::{MOMENT_END, MOST_NAME, MOST_PATH, MOST_PAYLOAD, MOST_REFERENCE, MOST_ROUNDS};
pub use request_text::read_request;
pub use requests::{RequestLine, Requests, read_requests};
pub use script::{Script, ScriptFault, ScriptLine, read_script};

#[cfg(test)]
mod tests;
