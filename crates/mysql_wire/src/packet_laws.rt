//! Laws of framings, packets and versions, each proved as the contract of a function that does nothing.

ghost use Rattle.std.specs.Prelude.{◌≡◌, ◌∷◌, [], codes, Some, None, ℕ, List};
ghost use Rattle.wire_packets.specs.PacketLaws.{FramingsAreUniquelyRead, PacketsAreAPrefix, PacketsAreLongest, PacketsEnd, StreamsHaveASplit, FramingsAreReadBack};
ghost use Rattle.wire_packets.specs.Framing.{framing, next_sequence_id};
ghost use Rattle.wire_packets.specs.Packets.{packets, packet_fault};
ghost use Rattle.wire_fields.specs.Version.{version_of, VersionsAreTheirNumbers};
ghost use Rattle.wire_packets.specs.declared.error.PacketCodecError.TheVariants.{PacketTooLarge, PacketsOutOfSync};

/// Framings from the same sequence id, each followed by any bytes, are equal only if the payloads are equal
/// and the bytes after them are.
pub fn framings_are_uniquely_read()
    ensures { FramingsAreUniquelyRead }
{}

/// A stream begins with the framings of its packets, in sequence, and no packet exceeds the limit.
pub fn packets_are_a_prefix()
    ensures { PacketsAreAPrefix }
{}

/// If a stream begins with the framings of payloads within the limit, its packets begin with these payloads.
pub fn packets_are_longest()
    ensures { PacketsAreLongest }
{}

/// If a stream is the framings of payloads, then whole chunks of an incomplete payload, then bytes from which
/// no chunk can be taken, these payloads are its packets, and the fault at these bytes is its fault.
pub fn packets_end()
    ensures { PacketsEnd }
{}

/// Every stream of bytes is the framings of payloads, then whole chunks of an incomplete payload, then bytes
/// from which no chunk can be taken. By `packets_end` these payloads are its packets.
pub fn streams_have_a_split()
    ensures { StreamsHaveASplit }
{}

/// Framings of payloads within the limit are read back as these payloads without a fault, from the sequence
/// id that they were written from.
pub fn framings_are_read_back()
    ensures { FramingsAreReadBack }
{}

/// A text is a server version exactly if it begins with three numbers with points between them and no digit
/// after them.
pub fn versions_are_their_numbers()
    ensures { VersionsAreTheirNumbers }
{}

/// Worked framings and packets: a payload and the empty one, a sequence id that wraps, packets, one of them
/// beyond the limit, and a chunk out of sync.
pub fn worked_framings()
    ensures payload { framing 0 (49 ∷ 50 ∷ 51 ∷ []) ≡ 3 ∷ 0 ∷ 0 ∷ 0 ∷ 49 ∷ 50 ∷ 51 ∷ [] }
    ensures empty_payload { framing 0 [] ≡ 0 ∷ 0 ∷ 0 ∷ 0 ∷ [] }
    ensures last_number { framing 255 (49 ∷ []) ≡ 1 ∷ 0 ∷ 0 ∷ 255 ∷ 49 ∷ [] }
    ensures wraps { next_sequence_id 255 (49 ∷ []) ≡ 0 }
    ensures packets_of_pieces { packets 4194304 0 (1 ∷ 0 ∷ 0 ∷ 0 ∷ 49 ∷ 0 ∷ 0 ∷ 0 ∷ 1 ∷ []) ≡ (49 ∷ []) ∷ [] ∷ [] }
    ensures no_fault { packet_fault 4194304 0 (1 ∷ 0 ∷ 0 ∷ 0 ∷ 49 ∷ 0 ∷ 0 ∷ 0 ∷ 1 ∷ []) ≡ None }
    ensures too_large { packet_fault 1 0 (2 ∷ 0 ∷ 0 ∷ 5 ∷ []) ≡ Some PacketTooLarge }
    ensures no_packet { packets 1 0 (2 ∷ 0 ∷ 0 ∷ 5 ∷ []) ≡ [] }
    ensures out_of_number { packet_fault 38 1 (1 ∷ 0 ∷ 0 ∷ 3 ∷ 7 ∷ []) ≡ Some PacketsOutOfSync }
{}

/// Worked server versions.
pub fn worked_versions()
    ensures version { version_of (codes "8.0.32-log") ≡ (8, 0, 32) }
    ensures number_past_a_byte { version_of (codes "8.256.1") ≡ (0, 0, 0) }
{}
