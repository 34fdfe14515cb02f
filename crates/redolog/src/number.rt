// Numbers on disk: unsigned, highest byte first. Two widths stay: each body is one call of the type's own method, and a trait over both would be longer.
ghost use Rattle.std.specs.Prelude.{◌≡◌, ◌+◌, ◌≤◌, length};
ghost use Rattle.std.proofs.lemmas.List.Edits.{sets};
ghost use Rattle.redolog.specs.Number.{be16, be32, bytes16, bytes32};

use crate::stores::copy;

pub fn be16(s: &[u8], i: usize) -> u16
    requires { i + 2 ≤ length s.now }
    ensures { result ≡ be16 s.now i }
{
    u16::from_be_bytes([s[i], s[i + 1]])
}

pub fn be32(s: &[u8], i: usize) -> u32
    requires { i + 4 ≤ length s.now }
    ensures { result ≡ be32 s.now i }
{
    u32::from_be_bytes([s[i], s[i + 1], s[i + 2], s[i + 3]])
}

pub fn put16(b: &mut [u8], at: usize, n: u16)
    requires { at + 2 ≤ length b.old }
    ensures { b.new ≡ sets b.old at (bytes16 n) }
{
    copy(b, at, &u16::to_be_bytes(n));
}

pub fn put32(b: &mut [u8], at: usize, n: u32)
    requires { at + 4 ≤ length b.old }
    ensures { b.new ≡ sets b.old at (bytes32 n) }
{
    copy(b, at, &u32::to_be_bytes(n));
}
