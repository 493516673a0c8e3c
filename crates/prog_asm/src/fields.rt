//! What a word of a line can stand for.

ghost use Rattle.std.specs.Prelude.{◌≡◌, IfSome, option_map, true};
ghost use Rattle.instruction_set.specs.Fields.{before_last, read_operand as operand_in, read_path, read_register, read_value};
ghost use Rattle.prog_asm.specs.ReadingViews.{ReadsField};
ghost use Rattle.instruction_set.specs.Programs.{is_path};
ghost use Rattle.instruction_set.specs.Views.{operand_of};

use crate::mistakes::Mistake;
use instruction_set::{Operand, Path, Register, is_valid_path};
use std::alloc::Global;
use texts::number_up_to;

/// The number in decimal digits, without a leading zero, if 32 bits hold it.
pub(crate) fn number(word: &[u8]) -> Option<u32>
    ensures { result ≡ read_value word.now }
{
    number_up_to(word, u32::MAX).ok()
}

/// The register: `r0` to `r7`.
pub(crate) fn register(word: &[u8]) -> Option<Register>
    ensures { result ≡ read_register word.now }
{
    match word {
        [b'r', digit] if *digit >= b'0' => Register::new(*digit - b'0'),
        _ => None,
    }
}

/// The register or the number.
pub(crate) fn operand(word: &[u8]) -> Option<Operand>
    ensures { option_map operand_of result ≡ operand_in word.now }
{
    match register(word) {
        Some(register) => Some(Operand::Register(register)),
        None => match number(word) {
            Some(number) => Some(Operand::Number(number)),
            None => None,
        },
    }
}

/// The word without its last byte, where that is this one.
pub(crate) fn before_last(word: &[u8], byte: u8) -> Option<&[u8]>
    ensures { option_map (λ front. front.now) result ≡ before_last byte word.now }
{
    match word {
        [] => None,
        [front @ .., last] => { if *last == byte { Some(front) } else { None } }
    }
}

/// The path in double quotes.
pub(crate) fn quoted_path(word: &[u8]) -> Option<&[u8]>
    ensures path { option_map (λ path. path.now) result ≡ read_path word.now }
    ensures valid { IfSome result (λ path. is_path path.now ≡ true) }
{
    let [b'"', rest @ ..] = word else {
        return None;
    };
    let bytes = before_last(rest, b'"')?;
    if is_valid_path(bytes) {
        Some(bytes)
    } else {
        None
    }
}

/// The same, as a path of its own.
pub(crate) fn path(alloc: Global, word: &[u8]) -> Result<Path, Mistake>
    ensures { ReadsField (λ path. path) result (read_path word.now) }
{
    let Some(bytes) = quoted_path(word) else {
        return Err(Mistake::Wrong);
    };
    Ok(Path::new(Vec::from_slice(alloc, bytes)?))
}
