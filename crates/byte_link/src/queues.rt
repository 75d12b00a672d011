// A queue of lengths, whose front goes by a count of bytes.
ghost use Rattle.std.specs.Prelude.{◌≡◌};
ghost use Rattle.byte_link.specs.Layout.{lengths_after};

use std::collections::VecDeque;

// The lengths that are left once the first `count` bytes have gone. It pops no more lengths than bytes went.
pub fn forget_front(lengths: &mut VecDeque<u32>, count: u32)
    ensures { lengths.new.items ≡ lengths_after count lengths.old.items }
{
    let mut left = count;
    while let Some(length) = lengths.front().copied() {
        if left < length {
            lengths[0] = length - left;
            return;
        }
        left -= length;
        let _ = lengths.pop_front();
    }
}
