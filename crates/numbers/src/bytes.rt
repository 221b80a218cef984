// Bytes as a number.
ghost use Rattle.std.specs.Prelude.{◌≡◌, ◌+◌, ◌*◌, ◌<◌};

// The number of two bytes.
pub fn two_bytes(low: u8, high: u8) -> usize
    ensures { (result ≡ low + 256 * high) × (result < 65536) }
{
    u16::from_le_bytes([low, high]) as usize
}
