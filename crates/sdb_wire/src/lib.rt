//! Messages and answers as JSON texts.
#![tactic(auto)]

mod codes;
mod entries;
mod fields;
mod members;
mod message;
mod operations;
mod parts;
mod read;
mod write;

pub use codes::{code_name, refusal_code};
pub use entries::entry_value;
pub use fields::{count_field, moment_of, optional_count, optional_moment, required_name};
pub use members::{write_count, write_text};
pub use message::{
    Answer, BadMessage, DocumentRequest, Echo, EchoValue, MESSAGE_LIMIT, Message, NAME_LIMIT,
    Request,
};
pub use operations::{write_create, write_entry};
pub use parts::{DocumentParts, document_parts};
pub use read::{
    echo_of, empty_echo, parse_message, parse_tree, read_content, read_key, read_message,
};
pub use write::{append_answer_text, reply_text};
