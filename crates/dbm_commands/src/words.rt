// The words of a command as bytes.
ghost use Rattle.std.specs.Prelude.{◌≡◌, ◌∷◌, [], IfOk, IfErr, None, Some};
ghost use Rattle.dbm_fault.specs.Among.{IsErrAmong};
ghost use Rattle.dbm_commands.specs.Words.{spelled};

use crate::Failure;
use dbm_command_line::Spelling;
use dbm_fault::EngineFault;
use dbm_lines::decode_word;
use std::alloc::Global;

/// The bytes of a word: its own, or those that its digits spell. `Memory` may come before the
/// digits are looked at.
pub fn bytes_of(alloc: Global, word: &str, spelling: Spelling) -> Result<Vec<u8>, Failure>
    ensures spelled { IfOk result (λ bytes. spelled spelling word.now ≡ Some bytes.items) }
    ensures not_hex { IfErr result (λ e. e ≡ Failure.NotHex → spelled spelling word.now ≡ None) }
    ensures only { IsErrAmong result (Failure.NotHex ∷ Failure.Fault EngineFault.Memory ∷ []) }
{
    let memory = |_| Failure::Fault(EngineFault::Memory);
    match spelling {
        Spelling::Text => Vec::from_slice(alloc, word.as_bytes()).map_err(memory),
        Spelling::Hexadecimal => {
            let mut bytes = Vec::with_capacity(alloc, word.len()).map_err(memory)?;
            if !decode_word(word.as_bytes(), &mut bytes) {
                return Err(Failure::NotHex);
            }
            Ok(bytes)
        }
    }
}
