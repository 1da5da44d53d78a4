// Paths and channels as text.
ghost use Rattle.std.specs.Prelude.{◌≡◌, ◌++◌, OnOk, flat_map};
ghost use Rattle.shim_base.specs.PathTexts.{channel_text, pair_text, path_text};

use crate::{Chan, List, NoMemory, Path, push_decimal};

fn push_pair(text: &mut List<u8>, pair: (u32, u32)) -> Result<(), NoMemory>
    ensures { OnOk result (text.new ≡ text.old ++ pair_text pair) }
{
    text.extend_from_slice(b"/")?;
    push_decimal(text, pair.0 as u64)?;
    text.extend_from_slice(b".")?;
    push_decimal(text, pair.1 as u64)
}

fn push_pairs(text: &mut List<u8>, pairs: &[(u32, u32)]) -> Result<(), NoMemory>
    ensures { OnOk result (text.new ≡ text.old ++ flat_map pair_text pairs.now) }
{
    for pair in pairs {
        push_pair(text, *pair)?;
    }
    Ok(())
}

/// Adds `main`, and `/FORK.BRANCH` for each pair. A refusal may leave a part of it.
pub fn push_path(text: &mut List<u8>, path: &Path) -> Result<(), NoMemory>
    ensures { OnOk result (text.new ≡ text.old ++ path_text path.now) }
{
    text.extend_from_slice(b"main")?;
    push_pairs(text, path.pairs())
}

/// Adds `HOME#SERIAL`. A refusal may leave a part of it.
pub fn push_channel(text: &mut List<u8>, chan: &Chan) -> Result<(), NoMemory>
    ensures { OnOk result (text.new ≡ text.old ++ channel_text chan.now.channel) }
{
    push_path(text, chan.home())?;
    text.extend_from_slice(b"#")?;
    push_decimal(text, chan.serial() as u64)
}
