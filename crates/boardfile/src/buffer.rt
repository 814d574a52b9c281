// A lent buffer.
ghost use Rattle.std.specs.Prelude.{◌≡◌, ◌≤◌, ◌++◌, length, drop};

// Writes the bytes at the start of the buffer.
pub(crate) fn put<const N: usize>(bytes: [u8; N], buf: &mut [u8])
    requires { N ≤ length buf.old }
    ensures { buf.new ≡ bytes.entry ++ drop N buf.old }
{
    buf[..N].copy_from_slice(&bytes);
}
