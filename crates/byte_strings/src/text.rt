// Text that is made on the heap.
ghost use Rattle.std.specs.Prelude.{◌≡◌, IfOk, string_bytes};
ghost use Rattle.byte_strings.specs.Hexadecimal.{hex};

use std::alloc::{AllocError, Global};

// The hexadecimal digits of the bytes.
pub fn hex_string(heap: Global, bytes: &[u8]) -> Result<String, AllocError>
    ensures { IfOk result (λ text. string_bytes text ≡ hex bytes.now) }
{
    hex::encode(heap, bytes)
}
