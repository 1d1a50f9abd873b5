//! Replies to options, and the head of a reply to a request.
ghost use Rattle.std.specs.Prelude.{ℕ, List, ◌≡◌, ◌+◌, ◌≤◌, ◌++◌, ◌&&◌, ◌||◌, ◌==◌, [], false, true, length, nat_le};
ghost use Rattle.nbd_text.specs.Fields.{u16_bytes, u32_bytes, u64_bytes};
ghost use Rattle.nbd_text.specs.Options.{answered, export_answer, export_info as export_info_of, block_info as block_info_of, flags_phase as flags_phase_of, greeting as greeting_of, info_reply as info_reply_of, is_well_formed as is_well_formed_of, list_reply as list_reply_of, option_answer, option_reply, refused as refused_of, size_and_flags, info_answer as info_answer_of};
ghost use Rattle.nbd_text.specs.Requests.{simple_reply as simple_reply_of};

use crate::Phase;
use crate::heads::{u16_at, u32_at};
use crate::numbers::*;
use arrayvec::ArrayVec;
use byteorder::{BigEndian, ByteOrder};

/// Room for the longest reply to an option: that of the size and the flags, with its zeros.
pub const REPLY_ROOM: usize = 134;

/// A reply without the data of a device.
pub type Reply = ArrayVec<u8, REPLY_ROOM>;

/// What an option is answered.
#[derive(Drop)]
pub struct Answer {
    /// What is put.
    pub reply: Reply,
    /// Where the dialogue stands then.
    pub phase: Phase,
}

/// Appends bytes.
fn push(reply: &mut Reply, bytes: &[u8])
    requires room { length reply.old.items + length bytes.now ≤ REPLY_ROOM }
    ensures { reply.new.items ≡ reply.old.items ++ bytes.now }
{
    reply.try_extend_from_slice(bytes).unwrap();
}

/// Appends a number in two bytes.
#[tactic(auto, unfolding(crate::specs::Fields::u16_bytes))]
fn push_u16(reply: &mut Reply, number: u16)
    requires room { length reply.old.items + 2 ≤ REPLY_ROOM }
    ensures items { reply.new.items ≡ reply.old.items ++ u16_bytes number }
    ensures size { length reply.new.items ≡ length reply.old.items + 2 }
{
    let mut word = [0u8; 2];
    BigEndian::write_u16(&mut word, number);
    push(reply, &word);
}

/// Appends a number in four bytes.
#[tactic(auto, unfolding(crate::specs::Fields::u32_bytes))]
fn push_u32(reply: &mut Reply, number: u32)
    requires room { length reply.old.items + 4 ≤ REPLY_ROOM }
    ensures items { reply.new.items ≡ reply.old.items ++ u32_bytes number }
    ensures size { length reply.new.items ≡ length reply.old.items + 4 }
{
    let mut word = [0u8; 4];
    BigEndian::write_u32(&mut word, number);
    push(reply, &word);
}

/// Appends a number in eight bytes.
#[tactic(auto, unfolding(crate::specs::Fields::u64_bytes))]
fn push_u64(reply: &mut Reply, number: u64)
    requires room { length reply.old.items + 8 ≤ REPLY_ROOM }
    ensures items { reply.new.items ≡ reply.old.items ++ u64_bytes number }
    ensures size { length reply.new.items ≡ length reply.old.items + 8 }
{
    let mut word = [0u8; 8];
    BigEndian::write_u64(&mut word, number);
    push(reply, &word);
}

/// What a server says first.
pub fn greeting() -> Reply
    ensures { result.items ≡ greeting_of }
{
    let mut reply = ArrayVec::new();
    push_u64(&mut reply, NBDMAGIC);
    push_u64(&mut reply, IHAVEOPT);
    push_u16(&mut reply, HANDSHAKE_FLAGS);
    reply
}

/// The head of a reply to a request.
#[tactic(auto, unfolding(crate::specs::Requests::simple_reply))]
pub fn simple_reply(error: u32, handle: u64) -> Reply
    ensures items { result.items ≡ simple_reply_of error handle }
    ensures size { length result.items ≡ REPLY_HEAD }
{
    let mut reply = ArrayVec::new();
    push_u32(&mut reply, SIMPLE_REPLY_MAGIC);
    push_u32(&mut reply, error);
    push_u64(&mut reply, handle);
    reply
}

/// Where a dialogue stands after these flags of the client.
#[tactic(auto, unfolding(crate::specs::Options::flags_phase))]
pub fn flags_phase(flags: u32) -> Phase
    ensures { result ≡ flags_phase_of flags }
{
    if flags < CLIENT_FLAGS {
        Phase::Options(flags > 1)
    } else {
        Phase::Malformed
    }
}

/// Appends a reply to an option.
fn push_reply(reply: &mut Reply, option: u32, kind: u32, text: &[u8])
    requires room { length reply.old.items + (20 + length text.now) ≤ REPLY_ROOM }
    ensures items { reply.new.items ≡ reply.old.items ++ option_reply option kind text.now }
    ensures size { length reply.new.items ≡ length reply.old.items + (20 + length text.now) }
{
    push_u64(reply, OPTION_REPLY_MAGIC);
    push_u32(reply, option);
    push_u32(reply, kind);
    push_u32(reply, text.len() as u32);
    push(reply, text);
}

/// Appends the size and the flags.
fn push_export(reply: &mut Reply, size: u64)
    requires room { length reply.old.items + 10 ≤ REPLY_ROOM }
    ensures items { reply.new.items ≡ reply.old.items ++ size_and_flags size }
    ensures size { length reply.new.items ≡ length reply.old.items + 10 }
{
    push_u64(reply, size);
    push_u16(reply, TRANSMISSION_FLAGS);
}

/// What is told of the export.
fn export_info(size: u64) -> Reply
    ensures items { result.items ≡ export_info_of size }
    ensures size { length result.items ≡ 12 }
{
    let mut info = ArrayVec::new();
    push_u16(&mut info, INFO_EXPORT);
    push_export(&mut info, size);
    info
}

/// What is told of the blocks.
fn block_info() -> Reply
    ensures items { result.items ≡ block_info_of }
    ensures size { length result.items ≡ 14 }
{
    let mut info = ArrayVec::new();
    push_u16(&mut info, INFO_BLOCK_SIZE);
    push_u32(&mut info, LEAST_BLOCK);
    push_u32(&mut info, BEST_BLOCK);
    push_u32(&mut info, MOST_BLOCK);
    info
}

/// All that `INFO` and `GO` are told.
#[tactic(auto, unfolding(crate::specs::Options::info_reply))]
fn info_reply(option: u32, size: u64) -> Reply
    ensures { result.items ≡ info_reply_of option size }
{
    let mut reply = ArrayVec::new();
    push_reply(&mut reply, option, REP_INFO, &export_info(size));
    push_reply(&mut reply, option, REP_INFO, &block_info());
    push_reply(&mut reply, option, REP_ACK, &[]);
    reply
}

/// The one export, whose name is empty.
#[tactic(auto, unfolding(crate::specs::Options::list_reply))]
fn list_reply() -> Reply
    ensures { result.items ≡ list_reply_of }
{
    let mut name = ArrayVec::new();
    push_u32(&mut name, 0);
    let mut reply = ArrayVec::new();
    push_reply(&mut reply, OPT_LIST, REP_SERVER, &name);
    push_reply(&mut reply, OPT_LIST, REP_ACK, &[]);
    reply
}

/// A reply of one kind, without text.
fn bare_reply(option: u32, kind: u32) -> Reply
    ensures { result.items ≡ option_reply option kind [] }
{
    let mut reply = ArrayVec::new();
    push_reply(&mut reply, option, kind, &[]);
    reply
}

/// An option is refused.
fn refused(plain: bool, option: u32, kind: u32) -> Answer
    ensures { answered result.reply.items result.phase ≡ refused_of plain option kind }
{
    Answer {
        reply: bare_reply(option, kind),
        phase: Phase::Options(plain),
    }
}

/// What `EXPORT_NAME` of a name of `name` bytes is answered, of a device of `size` bytes.
#[tactic(auto, unfolding(crate::specs::Options::export_reply))]
pub fn export_answer(size: u64, plain: bool, name: u32) -> Answer
    ensures { answered result.reply.items result.phase ≡ export_answer size plain name }
{
    let mut reply = ArrayVec::new();
    if name > 0 {
        return Answer {
            reply,
            phase: Phase::Malformed,
        };
    }
    push_export(&mut reply, size);
    if !plain {
        push(&mut reply, &[0; EXPORT_ZEROS]);
    }
    Answer {
        reply,
        phase: Phase::Requests,
    }
}

/// Whether the data of `INFO` and `GO` are well formed.
#[tactic(auto, unfolding(crate::specs::Options::is_well_formed))]
fn is_well_formed(text: &[u8]) -> bool
    requires { length text.now ≤ OPTION_MOST }
    ensures told { result ≡ is_well_formed_of text.now }
    ensures long { result ≡ true → 6 ≤ length text.now }
{
    if text.len() < 6 {
        return false;
    }
    let name = u32_at(0, text) as usize;
    if name + 6 > text.len() {
        return false;
    }
    text.len() == name + 6 + 2 * u16_at(name + 4, text) as usize
}

/// Whether the data of an option are looked at: those of `INFO` and `GO` are, unless they are too long.
pub fn is_looked_at(option: u32, length: u32) -> bool
    ensures { result ≡ (((option == OPT_INFO) || (option == OPT_GO)) && nat_le length OPTION_MOST) }
{
    (option == OPT_INFO || option == OPT_GO) && length <= OPTION_MOST
}

/// What `INFO` or `GO` is answered by its data, of a device of `size` bytes.
#[tactic(auto, unfolding(crate::specs::Options::option_answer))]
pub fn info_answer(size: u64, plain: bool, option: u32, text: &[u8]) -> Answer
    requires looked { ((option == OPT_INFO) || (option == OPT_GO)) && nat_le (length text.now) OPTION_MOST ≡ true }
    ensures { answered result.reply.items result.phase ≡ option_answer size plain option text.now }
{
    if !is_well_formed(text) {
        return refused(plain, option, REP_ERR_INVALID);
    }
    if u32_at(0, text) != 0 {
        return refused(plain, option, REP_ERR_UNKNOWN);
    }
    Answer {
        reply: info_reply(option, size),
        phase: if option == OPT_GO {
            Phase::Requests
        } else {
            Phase::Options(plain)
        },
    }
}

/// What an option whose data are not looked at is answered, by their length.
#[tactic(auto, unfolding(crate::specs::Options::option_answer))]
pub fn bare_answer(plain: bool, option: u32, data_length: u32) -> Answer
    requires bare { ((option == OPT_INFO) || (option == OPT_GO)) && nat_le data_length OPTION_MOST ≡ false }
    ensures { (size : ℕ) (text : List ℕ) → length text ≡ data_length → answered result.reply.items result.phase ≡ option_answer size plain option text }
{
    match option {
        OPT_INFO | OPT_GO => refused(plain, option, REP_ERR_TOO_BIG),
        OPT_LIST | OPT_ABORT if data_length > 0 => refused(plain, option, REP_ERR_INVALID),
        OPT_LIST => Answer {
            reply: list_reply(),
            phase: Phase::Options(plain),
        },
        OPT_ABORT => Answer {
            reply: bare_reply(option, REP_ACK),
            phase: Phase::Closed,
        },
        _ => refused(plain, option, REP_ERR_UNSUP),
    }
}
