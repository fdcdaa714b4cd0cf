ghost use Rattle.std.specs.Prelude.{◌≡◌, ◌++◌, IfOk, OnOk};
ghost use Rattle.worked.specs.Words.{bytes_in};

use std::alloc::{AllocError, Global};

// Adds words to a file under construction, high byte first.
pub fn add(bytes: &mut Vec<u8>, words: &[u16]) -> Result<(), AllocError>
    ensures { OnOk result (bytes.new.items ≡ bytes.old.items ++ bytes_in words.now) }
{
    for word in words {
        bytes.extend_from_slice(&word.to_be_bytes())?;
    }
    Ok(())
}

// The bytes of words.
pub fn bytes_of(heap: Global, words: &[u16]) -> Result<Vec<u8>, AllocError>
    ensures { IfOk result (λ bytes. bytes.items ≡ bytes_in words.now) }
{
    let mut bytes = Vec::new(heap);
    add(&mut bytes, words)?;
    Ok(bytes)
}
