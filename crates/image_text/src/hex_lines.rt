//! Writes bytes in hexadecimal digits.
ghost use Rattle.std.specs.Prelude.{◌≡◌, ◌≤◌, ◌++◌, ◌∷◌, [], length, OnOk};
ghost use Rattle.hex.specs.Hex.{encode_lower};
ghost use Rattle.image_text.specs.Hex.{hex_lines};

use std::alloc::AllocError;

// Adds a line of digits.
fn put_line(out: &mut Vec<u8>, line: &[u8]) -> Result<(), AllocError>
    requires { length line.now ≤ 32 }
    ensures { OnOk result (out.new.items ≡ out.old.items ++ (encode_lower line.now ++ 10 ∷ [])) }
{
    let mut digits = [0u8; 64];
    let n = 2 * line.len();
    let written = hex::encode_to_slice(line, &mut digits[..n]);
    prove!(written.is_ok());
    let _ = written;
    out.extend_from_slice(&digits[..n])?;
    out.push(b'\n')?;
    Ok(())
}

/// Adds bytes in hexadecimal digits, 32 bytes a line.
pub fn put_hex(out: &mut Vec<u8>, bytes: &[u8]) -> Result<(), AllocError>
    ensures { OnOk result (out.new.items ≡ out.old.items ++ hex_lines bytes.now) }
{
    let mut rest = bytes;
    while 32 < rest.len() {
        let (line, after) = rest.split_at(32);
        put_line(out, line)?;
        rest = after;
    }
    if rest.len() == 0 {
        return Ok(());
    }
    put_line(out, rest)?;
    Ok(())
}
