//! What a server of NBD says of a device that is only read: the definitions of the protocol, and the calls that read
//! heads of messages and make replies by them. Nothing here is taken or put.
//!
//! NBD is the protocol of network block devices, as `doc/proto.md` of the project NetworkBlockDevice describes it.
//! `specs/` cites its sections: the fixed newstyle negotiation with its options ("Option haggling") in `Options`, and the
//! transmission with simple replies in `Requests`. All numbers of the protocol have their highest byte first.
//! `specs/Dialogue` has the whole: what is put for the bytes that are taken.
#![tactic(auto)]

mod heads;
mod laws;
pub mod numbers;
mod phase;
mod replies;

pub use heads::{OptionHead, Request, u32_at};
pub use laws::numbers_are_the_protocols;
pub use phase::Phase;
pub use replies::{
    Answer, REPLY_ROOM, Reply, bare_answer, export_answer, flags_phase, greeting, info_answer,
    is_looked_at, simple_reply,
};
