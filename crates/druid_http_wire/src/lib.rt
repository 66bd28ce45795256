//! Messages of HTTP, read and written: their heads, bodies and texts.
#![tactic(auto)]

mod body;
mod frame;
mod framed;
mod head;
mod laws;
mod length;
mod limits;
mod missing;
mod reader;
mod response;
mod server;
mod writer;

pub use laws::{
    heads_are_framed, messages_are_of_the_grammar, one_head, one_request, one_response,
    requests_are_read_back, requests_have_no_fault, responses_are_read_back,
    responses_have_no_fault,
};
pub use limits::{MAX_BODY, MAX_FIELDS, MAX_HEAD};
pub use missing::{Missing, missing_of};
pub use reader::{read_request, read_response, response_of};
pub use response::Response;
pub use server::{refuse_request, send_response};
pub use writer::{request_bytes, write_request, write_response};
