//! Packets: a payload travels as numbered chunks of at most 16,777,215 bytes.
//!
//! `packet_to_chunks` and `PacketCodec::encode` write them. `PacketCodec::decode`, `ChunkDecoder` and
//! `decode_pieces` read them; `PacketCodec::decode_in_place` borrows a payload from the input buffer. `laws`
//! has the theorems about framings and packets.
#![tactic(auto)]

mod chunk_decoder;
mod error;
mod framing;
mod header;
mod packet_codec;
mod pieces;

pub use chunk_decoder::{ChunkDecoder, ChunkInfo};
pub use error::PacketCodecError;
pub use framing::packet_to_chunks;
pub use header::{PACKET_HEADER_LEN, chunk_header};
pub use packet_codec::PacketCodec;
pub use pieces::decode_pieces;
