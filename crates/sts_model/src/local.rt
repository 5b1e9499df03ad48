//! Which instructions read and change their frame alone, and leave its entries.

ghost use Rattle.std.specs.Prelude.{◌≡◌};
ghost use Rattle.sts_model.specs.Local as def;

use sts_code::Instr;

/// Is it a local instruction?
pub fn is_local(instr: Instr) -> bool
    ensures { result ≡ def.is_local instr }
{
    matches!(
        instr,
        Instr::Push(_)
            | Instr::Pop
            | Instr::Dup
            | Instr::Swap
            | Instr::Load(_)
            | Instr::Store(_)
            | Instr::Add
            | Instr::Sub
            | Instr::Mul
            | Instr::Lt
            | Instr::Eq
            | Instr::Div(_)
            | Instr::Jmp(_)
            | Instr::Jz(_)
            | Instr::Times(_)
            | Instr::Next
    )
}

/// The slot that an instruction empties, if it stays in the frame and empties one.
pub fn emptied_slot(instr: Instr) -> Option<u8>
    ensures { result ≡ def.emptied_slot instr }
{
    match instr {
        Instr::Forget(handle) => Some(handle),
        _ => None,
    }
}

/// Does the instruction read and change its frame alone, and leave its entries? The local ones and
/// `forget` do.
pub fn stays_in_frame(instr: Instr) -> bool
    ensures { result ≡ def.stays_in_frame instr }
{
    is_local(instr) || emptied_slot(instr).is_some()
}
