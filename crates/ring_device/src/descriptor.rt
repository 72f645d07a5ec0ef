//! Descriptors and the bytes that hold them.

ghost use Rattle.std.specs.Prelude.{◌≡◌};
ghost use Rattle.busdma_rules.specs.Rings.Descriptors.{descriptor_bytes, descriptor_of};

use busdma_rules::Descriptor;

/// Returns the descriptor that 16 bytes hold, with its numbers in little-endian order.
pub fn descriptor_of(bytes: &[u8; 16]) -> Descriptor
    ensures descriptor { result ≡ descriptor_of bytes.now }
    ensures written_again { descriptor_bytes result ≡ bytes.now }
{
    let b = *bytes;
    Descriptor {
        addr: u64::from_le_bytes([b[0], b[1], b[2], b[3], b[4], b[5], b[6], b[7]]),
        len: u32::from_le_bytes([b[8], b[9], b[10], b[11]]),
        kind: b[12],
        fill: b[13],
        owner: b[14],
        status: b[15],
    }
}

/// Returns the 16 bytes that hold the descriptor, with its numbers in little-endian order.
pub fn descriptor_bytes(descriptor: &Descriptor) -> [u8; 16]
    ensures bytes { result ≡ descriptor_bytes descriptor.now }
    ensures read_again { descriptor_of result ≡ descriptor.now }
{
    let Descriptor {
        addr,
        len,
        kind,
        fill,
        owner,
        status,
    } = *descriptor;
    let [a, b, c, d, e, f, g, h] = addr.to_le_bytes();
    let [i, j, k, l] = len.to_le_bytes();
    [
        a, b, c, d, e, f, g, h, i, j, k, l, kind, fill, owner, status,
    ]
}
