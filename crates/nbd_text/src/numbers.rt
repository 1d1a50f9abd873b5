//! The numbers of the protocol by their names.

// "Fixed newstyle negotiation".

/// The first word of a server: the letters NBDMAGIC.
pub const NBDMAGIC: u64 = 0x4e42_444d_4147_4943;
/// The second word of a server, and the first of each option: the letters IHAVEOPT.
pub const IHAVEOPT: u64 = 0x4948_4156_454f_5054;
/// The flags of the handshake: `NBD_FLAG_FIXED_NEWSTYLE` and `NBD_FLAG_NO_ZEROES`.
pub const HANDSHAKE_FLAGS: u16 = 3;
/// The client's flags are below this: `NBD_FLAG_C_FIXED_NEWSTYLE` is 1, and `NBD_FLAG_C_NO_ZEROES` is 2.
pub const CLIENT_FLAGS: u32 = 4;
/// The bytes of the client's flags.
pub const FLAGS_HEAD: usize = 4;

// "Option haggling", "Option types", "Option reply types".

/// The bytes of an option before its data.
pub const OPTION_HEAD: usize = 16;
/// `NBD_OPT_EXPORT_NAME`.
pub const OPT_EXPORT_NAME: u32 = 1;
/// `NBD_OPT_ABORT`.
pub const OPT_ABORT: u32 = 2;
/// `NBD_OPT_LIST`.
pub const OPT_LIST: u32 = 3;
/// `NBD_OPT_INFO`.
pub const OPT_INFO: u32 = 6;
/// `NBD_OPT_GO`.
pub const OPT_GO: u32 = 7;
/// The most bytes of data of `NBD_OPT_INFO` and `NBD_OPT_GO` that are looked at.
pub const OPTION_MOST: u32 = 65536;
/// The first word of a reply to an option.
pub const OPTION_REPLY_MAGIC: u64 = 0x0003_e889_0455_65a9;
/// `NBD_REP_ACK`.
pub const REP_ACK: u32 = 1;
/// `NBD_REP_SERVER`.
pub const REP_SERVER: u32 = 2;
/// `NBD_REP_INFO`.
pub const REP_INFO: u32 = 3;
/// `NBD_REP_ERR_UNSUP`.
pub const REP_ERR_UNSUP: u32 = 0x8000_0001;
/// `NBD_REP_ERR_INVALID`.
pub const REP_ERR_INVALID: u32 = 0x8000_0003;
/// `NBD_REP_ERR_UNKNOWN`.
pub const REP_ERR_UNKNOWN: u32 = 0x8000_0006;
/// `NBD_REP_ERR_TOO_BIG`.
pub const REP_ERR_TOO_BIG: u32 = 0x8000_0009;
/// `NBD_INFO_EXPORT`.
pub const INFO_EXPORT: u16 = 0;
/// `NBD_INFO_BLOCK_SIZE`.
pub const INFO_BLOCK_SIZE: u16 = 3;
/// The zeros after a reply to `NBD_OPT_EXPORT_NAME`.
pub const EXPORT_ZEROS: usize = 124;

// "Block size constraints".

/// The least block: reads may begin and end at any byte.
pub const LEAST_BLOCK: u32 = 1;
/// The block that is read best.
pub const BEST_BLOCK: u32 = 4096;
/// The most bytes of one read: as many as a client that was told no sizes of blocks asks for.
pub const MOST_BLOCK: u32 = 33_554_432;

// "Transmission", "Transmission flags", "Request types", "Error values".

/// `NBD_FLAG_HAS_FLAGS` (1), `NBD_FLAG_READ_ONLY` (2) and `NBD_FLAG_CAN_MULTI_CONN` (256).
pub const TRANSMISSION_FLAGS: u16 = 259;
/// The bytes of a request before the data of a write.
pub const REQUEST_HEAD: usize = 28;
/// The bytes of a simple reply before its data.
pub const REPLY_HEAD: usize = 16;
/// The first word of a request.
pub const REQUEST_MAGIC: u32 = 0x2560_9513;
/// The first word of a simple reply.
pub const SIMPLE_REPLY_MAGIC: u32 = 0x6744_6698;
/// `NBD_CMD_READ`.
pub const CMD_READ: u16 = 0;
/// `NBD_CMD_WRITE`.
pub const CMD_WRITE: u16 = 1;
/// `NBD_CMD_DISC`.
pub const CMD_DISC: u16 = 2;
/// `NBD_CMD_TRIM`.
pub const CMD_TRIM: u16 = 4;
/// `NBD_CMD_WRITE_ZEROES`.
pub const CMD_WRITE_ZEROES: u16 = 6;
/// `NBD_EPERM`.
pub const EPERM: u32 = 1;
/// `NBD_EIO`.
pub const EIO: u32 = 5;
/// `NBD_EINVAL`.
pub const EINVAL: u32 = 22;
