//! Copying the front of some bytes into a buffer.
ghost use Rattle.std.specs.Prelude.{◌≡◌, ◌++◌, min, length, take, drop};

/// Copies at most `most` of the bytes to the front of the buffer, and answers how many.
pub fn copy_front(bytes: &[u8], buf: &mut [u8], most: usize) -> usize
    ensures count { result ≡ min most (min (length bytes.now) (length buf.old)) }
    ensures buffer { buf.new ≡ take result bytes.now ++ drop result buf.old }
{
    let count = most.min(bytes.len().min(buf.len()));
    buf[..count].copy_from_slice(&bytes[..count]);
    count
}
