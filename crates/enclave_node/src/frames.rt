// The frames of blocks.
ghost use Rattle.std.specs.Prelude.{◌≡◌, ◌+◌, ◌≤◌, ◌^◌, ◌++◌, IfOk, OnOk};
ghost use Rattle.std.specs.List.{range_with_len};
ghost use Rattle.enclave_rules.specs.Pages.{frame_list, frames_of};

use std::alloc::{AllocError, Global};
use xm_num::{Block, Frame, FrameList};

const FRAMES_PER_BLOCK: u32 = 64;

// Adds so many frames from that one on.
fn push_frames(frames: &mut FrameList, first: u32, count: u32) -> Result<(), AllocError>
    requires { first + count ≤ 2 ^ 32 }
    ensures { OnOk result (frames.new ≡ frames.old ++ frame_list (range_with_len first count)) }
{
    for i in 0..count {
        frames.push(Frame(first + i))?;
    }
    Ok(())
}

/// All frames of these blocks, in their order.
pub fn all_frames(alloc: Global, blocks: &[Block]) -> Result<FrameList, AllocError>
    ensures { IfOk result (λ frames. frames ≡ frames_of blocks.now) }
{
    let mut frames = FrameList::new(alloc);
    for block in blocks {
        let first = FRAMES_PER_BLOCK * u32::from(block.0);
        push_frames(&mut frames, first, FRAMES_PER_BLOCK)?;
    }
    Ok(frames)
}
