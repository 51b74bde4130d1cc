// Little-endian fields of a file, read and written.
ghost use Rattle.std.specs.Prelude.{◌≡◌, ◌+◌, ◌≤◌, length};
ghost use Rattle.records.specs.Bytes.{u16_at, u32_at, u16_bytes, u32_bytes, placed};

pub fn u16_at(s: &[u8], i: usize) -> u16
    requires { i + 2 ≤ length s.now }
    ensures { result ≡ u16_at s.now i }
{
    u16::from_le_bytes([s[i], s[i + 1]])
}

pub fn u32_at(s: &[u8], i: usize) -> u32
    requires { i + 4 ≤ length s.now }
    ensures { result ≡ u32_at s.now i }
{
    u32::from_le_bytes([s[i], s[i + 1], s[i + 2], s[i + 3]])
}

pub fn put_u16(out: &mut [u8], at: usize, x: u16)
    requires { at + 2 ≤ length out.old }
    ensures { out.new ≡ placed out.old at (u16_bytes x) }
{
    out[at..at + 2].copy_from_slice(&x.to_le_bytes());
}

pub fn put_u32(out: &mut [u8], at: usize, x: u32)
    requires { at + 4 ≤ length out.old }
    ensures { out.new ≡ placed out.old at (u32_bytes x) }
{
    out[at..at + 4].copy_from_slice(&x.to_le_bytes());
}
