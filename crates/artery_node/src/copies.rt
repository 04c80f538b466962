//! Copies of values.
ghost use Rattle.std.specs.Prelude.{◌≡◌, IfOk};

use artery_base::{NoMemory, SysMsg};

/// The same message.
pub(crate) fn copy_of_message(message: &SysMsg) -> Result<SysMsg, NoMemory>
    ensures { IfOk result (λ copy. copy ≡ message.now) }
{
    Ok(message.clone()?)
}
