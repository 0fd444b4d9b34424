//! Serves a store of bytes to one NBD client, over a reader and a writer.
#![tactic(auto)]

mod answer;
mod calls;
mod end;
mod halt;
mod handshake;
mod options;
mod refusal;
mod session;
mod store_calls;
mod transmission;

pub use end::End;
pub use session::serve;
pub use transmission::transmit;
