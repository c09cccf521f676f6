//! Reads code as a list of bytes.
ghost use Rattle.std.specs.Prelude.{◌≡◌, IfOk};

use std::alloc::{AllocError, Global};
use target_base::Fetch;

/// All bytes of the code.
pub fn read_all<C: Fetch>(alloc: Global, code: &C) -> Result<Vec<u8>, AllocError>
    ensures { IfOk result (λ bytes. bytes.items ≡ C.code code.now) }
{
    let mut bytes = Vec::new(alloc);
    let mut at: u32 = 0;
    let mut buf = [0u8; 16];
    loop {
        let n = code.fetch(at, &mut buf);
        bytes.extend_from_slice(&buf[..n])?;
        if n < 16 {
            return Ok(bytes);
        }
        at += 16;
    }
}
