//! The bytes of the NBD protocol: the fixed newstyle handshake, requests and simple replies. A call that appends and runs out of
//! memory may leave a part of its bytes.
#![tactic(auto)]

mod client;
mod numbers;
mod options;
mod reply;
mod request;

pub use client::{
    CLIENT_FLAGS_LEN, OPTION_HEAD_LEN, OptionHead, OptionKind, is_info_request, no_zeroes_of,
    read_option_head,
};
pub use options::{
    Export, OptionReply, put_export, put_greeting, put_information, put_option_reply,
};
pub use reply::{Errno, REPLY_LEN, put_reply};
pub use request::{Command, REQUEST_LEN, Request, read_request};
