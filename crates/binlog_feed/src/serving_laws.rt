//! Laws of a server, each stated as the contract of a function that does nothing.

ghost use Rattle.std.specs.Prelude.{◌≡◌, ◌↔◌, ◌+◌, ◌*◌, ◌/◌, ℕ, List, ◌∷◌, Some, Result, length};
ghost use Rattle.wire_packets.specs.Framing.{max_chunk_len, framing};
ghost use Rattle.feed_checks.specs.EventFields.{Event};
ghost use Rattle.feed_replication.specs.declared.format.PayloadFormat.TheVariants.{Plain, SemiSync};
ghost use Rattle.feed_replication.specs.Streams.{payload_of};
ghost use Rattle.feed_replication.specs.RequestedPackets.{payload_of_packet, requested};
ghost use Rattle.feed_replication.specs.RequestFields.{IsRequested};
ghost use Rattle.feed_replication.specs.declared.served.Refusal.{Refusal};
ghost use Rattle.feed_replication.specs.Serving.{closing_payload};

/// The payload of an event of n bytes has n + 1 bytes if plain, a zero byte and its own, and n + 3 if semi-synchronous. Its
/// packet has 4 more bytes for the header of each chunk. The closing packet has 9 bytes.
pub fn lengths_of_packets()
    ensures payload { (e : Event) → payload_of Plain e ≡ 0 ∷ e }
    ensures plain { (k : ℕ) (e : Event) → length (framing k (payload_of Plain e)) ≡ length e + 1 + 4 * ((length e + 1) / max_chunk_len + 1) }
    ensures semi_synchronous { (k : ℕ) (e : Event) → length (framing k (payload_of SemiSync e)) ≡ length e + 3 + 4 * ((length e + 3) / max_chunk_len + 1) }
    ensures closing { (k : ℕ) → length (framing k closing_payload) ≡ 9 }
{}

/// Bytes are a request with a payload exactly if they are the payload's packet with sequence numbers from 0 on.
pub fn requests_are_packets()
    ensures { (bytes p : List ℕ) → (payload_of_packet bytes ≡ Some p) ↔ (bytes ≡ framing 0 p) }
{}

/// What a request asks for is what the server computes from its bytes: each request asks for one thing.
pub fn requests_are_computed()
    ensures { (request name : List ℕ) (asked : Result ℕ Refusal) → IsRequested request name asked ↔ (requested request name ≡ asked) }
{}
