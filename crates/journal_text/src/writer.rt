// The words of records and slots, written at the end of a text.
ghost use Rattle.std.specs.Prelude.{◌≡◌, ◌<◌, ◌^◌, ◌++◌, length, OnOk};
ghost use Rattle.std.specs.Int.{to_be_bytes, w32, w64};
ghost use Rattle.journal_text.specs.Words.{flag, long_text, short_text};

use opam_names::OutOfMemory;

pub(crate) fn push_count(out: &mut Vec<u8>, count: u32) -> Result<(), OutOfMemory>
    ensures { OnOk result (out.new.items ≡ out.old.items ++ to_be_bytes w32 count) }
{
    out.extend_from_slice(&count.to_be_bytes())?;
    Ok(())
}

pub(crate) fn push_number(out: &mut Vec<u8>, number: u64) -> Result<(), OutOfMemory>
    ensures { OnOk result (out.new.items ≡ out.old.items ++ to_be_bytes w64 number) }
{
    out.extend_from_slice(&number.to_be_bytes())?;
    Ok(())
}

pub(crate) fn push_flag(out: &mut Vec<u8>, yes: bool) -> Result<(), OutOfMemory>
    ensures { OnOk result (out.new.items ≡ out.old.items ++ flag yes) }
{
    let byte = if yes { 1 } else { 0 };
    out.push(byte)?;
    Ok(())
}

pub(crate) fn push_short(out: &mut Vec<u8>, bytes: &[u8]) -> Result<(), OutOfMemory>
    requires { length bytes.now < 2 ^ 16 }
    ensures { OnOk result (out.new.items ≡ out.old.items ++ short_text bytes.now) }
{
    out.extend_from_slice(&(bytes.len() as u16).to_be_bytes())?;
    out.extend_from_slice(bytes)?;
    Ok(())
}

pub(crate) fn push_long(out: &mut Vec<u8>, bytes: &[u8]) -> Result<(), OutOfMemory>
    requires { length bytes.now < 2 ^ 32 }
    ensures { OnOk result (out.new.items ≡ out.old.items ++ long_text bytes.now) }
{
    out.extend_from_slice(&(bytes.len() as u32).to_be_bytes())?;
    out.extend_from_slice(bytes)?;
    Ok(())
}
