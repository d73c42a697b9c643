// A buffer cut into pages: how many there are, and where each stands.
ghost use Rattle.std.specs.Prelude.{◌≡◌, ◌*◌, ◌≤◌, length};
ghost use Rattle.bench.specs.Buffers.{cut, extent_in};

use image::Extent;

// How large the image of `len` bytes in pages of `size` bytes is, where there can be one; the last page may be short.
pub(crate) fn extent(size: usize, len: usize) -> Option<Extent>
    ensures { result ≡ extent_in size len }
{
    if !(64..=4096).contains(&size) {
        return None;
    }
    let count = len.div_ceil(size);
    if !(1..=4096).contains(&count) {
        return None;
    }
    Some(Extent {
        size,
        count,
        last: len - (count - 1) * size,
    })
}

// The bytes of a page: the next `size` bytes, or as many as are left.
pub(crate) fn page_in(buffer: &[u8], size: usize, page: usize) -> &[u8]
    requires { page * size ≤ length buffer.now }
    ensures { result.now ≡ cut size buffer.now page }
{
    let rest = &buffer[page * size..];
    &rest[..size.min(rest.len())]
}
