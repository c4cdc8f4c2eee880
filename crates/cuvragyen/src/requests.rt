//! What a server is asked for.

ghost use Rattle.std.specs.Prelude.{◌≡◌, ◌≤◌, ◌<◌, length, take};
ghost use Rattle.feed_replication.specs.Requests.{dump_request};

use feed_replication::request;
use std::alloc::Global;

/// Writes the packet that asks for the events of a log from a position on, and returns its length; 0 if the name is too long, there is no
/// room for the packet, or no memory.
#[unsafe(no_mangle)]
pub extern "C" fn cuvragyen_request(
    alloc: Global,
    position: u32,
    server_id: u32,
    name: &[u8],
    packet: &mut [u8],
) -> usize
    ensures within { result ≤ length packet.new }
    ensures len { length packet.new ≡ length packet.old }
    ensures packet { 0 < result → take result packet.new ≡ dump_request position server_id name.now }
{
    let Ok(bytes) = request(alloc, position, server_id, name) else {
        return 0;
    };
    if bytes.len() > packet.len() {
        return 0;
    }
    packet[..bytes.len()].copy_from_slice(&bytes);
    bytes.len()
}
