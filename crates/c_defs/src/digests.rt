// Digests of names.
ghost use Rattle.std.specs.Prelude.{◌≡◌};
ghost use Rattle.c_defs.specs.Digests.{digest};

/// A number of 32 bits of which most other names have another: each byte is added to 31 times the number of those before it, as by `String.hashCode` of
/// Java's library.
pub fn digest(name: &[u8]) -> u32
    ensures { result ≡ digest name.now }
{
    let mut digest = 0u32;
    for byte in name {
        digest = digest.wrapping_mul(31).wrapping_add(u32::from(*byte));
    }
    digest
}
