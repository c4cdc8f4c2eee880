//! Lengths of the packet protocol, and collations that the protocol names.

/// The most bytes of payload in one chunk of a packet: 2^24 - 1, the largest length that a packet header can
/// hold. A payload of that length or more continues in a further chunk.
pub const MAX_PAYLOAD_LEN: usize = 16_777_215;

/// The default limit of a packet codec for the length of a payload: 4 MiB.
pub const DEFAULT_MAX_ALLOWED_PACKET: usize = 4_194_304;

/// The number of the collation `utf8mb3_general_ci` in column definitions.
pub const UTF8_GENERAL_CI: u16 = 33;

/// The number of the collation `utf8mb4_general_ci` in column definitions.
pub const UTF8MB4_GENERAL_CI: u16 = 45;
