ghost use Rattle.std.specs.Prelude.{◌≡◌, IfOk};
ghost use Rattle.sample_device.specs.Words.{sample_words as sample_words_are};

use ctrl_types::CtrlId;
use script_lines::ControlWords;
use std::alloc::{AllocError, Global};

/// The words by which scripts name the controls of the sample device (of this project), in memory that is taken from `alloc`. The error is that a growth was
/// refused.
pub fn sample_words(alloc: Global) -> Result<ControlWords, AllocError>
    ensures { IfOk result (λ words. words ≡ sample_words_are) }
{
    let mut words = ControlWords::new(alloc);
    words.push(alloc, b"autogain", CtrlId(0x0098_0912), 0)?;
    words.push(alloc, b"gain", CtrlId(0x0098_0913), 1)?;
    words.push(alloc, b"hflip", CtrlId(0x0098_0914), 2)?;
    words.push(alloc, b"vflip", CtrlId(0x0098_0915), 3)?;
    words.push(alloc, b"hue", CtrlId(0x0098_0903), 4)?;
    words.push(alloc, b"brightness", CtrlId(0x0098_0900), 5)?;
    words.push(alloc, b"power", CtrlId(0x0098_0918), 6)?;
    words.push(alloc, b"button", CtrlId(0x0098_090d), 7)?;
    words.push(alloc, b"red", CtrlId(0x0098_090e), 8)?;
    words.push(alloc, b"blue", CtrlId(0x0098_090f), 9)?;
    Ok(words)
}
