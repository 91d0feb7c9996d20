//! Puts frames on the stack.
ghost use Rattle.std.specs.Prelude.{◌≡◌, ℕ};
ghost use Rattle.world.specs.Prelude.{failures_after};
ghost use Rattle.interp.specs.Frames.{Lays, LaysFolder};

use crate::frames::{BlockRest, Frame};
use world::{Place, Stop};

/// Puts a frame on the stack, and the end of a rule.
#[inline(always)]
pub fn push_frame(stack: &mut Vec<Frame>, frame: Frame) -> Result<(), Stop>
    ensures lays { Lays stack.old.items frame result stack.new.items }
    ensures quiet { (n : ℕ) → failures_after n result ≡ n }
{
    stack.push(frame)?;
    stack.push(Frame::End)?;
    Ok(())
}

/// Puts the statements of a folder's file on the stack, after which the file is left for the earlier place.
pub fn push_folder(stack: &mut Vec<Frame>, outer: Place, file: BlockRest) -> Result<(), Stop>
    ensures lays { LaysFolder stack.old.items outer file result stack.new.items }
    ensures quiet { (n : ℕ) → failures_after n result ≡ n }
{
    push_frame(stack, Frame::Left(outer))?;
    stack.push(Frame::Block(file))?;
    Ok(())
}
