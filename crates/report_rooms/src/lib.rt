// The rooms of a program that reads N-Triples: for the delivery, and for its dictionary, which has no entry.
#![tactic(auto)]

ghost use Rattle.std.specs.Prelude.{◌≡◌, length, replicate};
ghost use Rattle.spec.specs.Messages.{most_bytes};

// The bytes of the longest delivery.
const DELIVERY_ROOM: usize = 65536;

// Room for a delivery.
pub fn delivery_buffer() -> [u8; DELIVERY_ROOM]
    ensures { most_bytes ≡ length result }
{
    [0u8; DELIVERY_ROOM]
}

// A dictionary without entries.
pub fn empty_dictionary() -> [u8; 1048576]
    ensures { result ≡ replicate 1048576 0 }
{
    [0u8; 1048576]
}
