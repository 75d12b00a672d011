// What the next word of a line stands for.
ghost use Rattle.std.specs.Prelude.{◌≡◌, option_map};
ghost use Rattle.line_reader.specs.Slots as slot;

use crate::cursor::Words;
use crate::name_tables::{ACCESSES, CAUSES, KINDS, MARKS, find};
use xm_num::{Access, Apid, Block, CallNo, Cause, Enclave, Frame, Kind, Pid, Segid, Vpn};

// The enclave of that number, or none where it is 65535.
fn destination_of(number: u16) -> Option<Enclave>
    ensures { result ≡ slot.word_destination number }
{
    if number == 65_535 {
        None
    } else {
        Some(Enclave(number))
    }
}

impl<'a> Words<'a> {
    /// The next word as an enclave.
    #[tactic(auto, unfolding(crate::specs::Slots::next))]
    pub fn enclave(&mut self) -> Option<Enclave>
        ensures { option_map (λ value. (value, self.new)) result ≡ slot.next slot.enclave self.old }
    {
        let number = self.number(65_535)?;
        Some(Enclave(number as u16))
    }

    /// The next word as an enclave, or none where it is 65535.
    #[tactic(auto, unfolding(crate::specs::Slots::next))]
    pub fn destination(&mut self) -> Option<Option<Enclave>>
        ensures { option_map (λ value. (value, self.new)) result ≡ slot.next slot.destination self.old }
    {
        let number = self.number(65_535)?;
        Some(destination_of(number as u16))
    }

    /// The next word as a process.
    #[tactic(auto, unfolding(crate::specs::Slots::next))]
    pub fn pid(&mut self) -> Option<Pid>
        ensures { option_map (λ value. (value, self.new)) result ≡ slot.next slot.pid self.old }
    {
        let number = self.number(4_294_967_295)?;
        Some(Pid(number as u32))
    }

    /// The next word as a call.
    #[tactic(auto, unfolding(crate::specs::Slots::next))]
    pub fn call(&mut self) -> Option<CallNo>
        ensures { option_map (λ value. (value, self.new)) result ≡ slot.next slot.call self.old }
    {
        let number = self.number(4_294_967_295)?;
        Some(CallNo(number as u32))
    }

    /// The next word as a segid.
    #[tactic(auto, unfolding(crate::specs::Slots::next))]
    pub fn segid(&mut self) -> Option<Segid>
        ensures { option_map (λ value. (value, self.new)) result ≡ slot.next slot.segid self.old }
    {
        let number = self.number(9_223_372_036_854_775_807)?;
        Some(Segid(number as i64))
    }

    /// The next word as an apid.
    #[tactic(auto, unfolding(crate::specs::Slots::next))]
    pub fn apid(&mut self) -> Option<Apid>
        ensures { option_map (λ value. (value, self.new)) result ≡ slot.next slot.apid self.old }
    {
        let number = self.number(9_223_372_036_854_775_807)?;
        Some(Apid(number as i64))
    }

    /// The next word as a page.
    #[tactic(auto, unfolding(crate::specs::Slots::next))]
    pub fn page(&mut self) -> Option<Vpn>
        ensures { option_map (λ value. (value, self.new)) result ≡ slot.next slot.page self.old }
    {
        let number = self.number(4_294_967_295)?;
        Some(Vpn(number as u32))
    }

    /// The next word as a frame.
    #[tactic(auto, unfolding(crate::specs::Slots::next))]
    pub fn frame(&mut self) -> Option<Frame>
        ensures { option_map (λ value. (value, self.new)) result ≡ slot.next slot.frame self.old }
    {
        let number = self.number(4_294_967_295)?;
        Some(Frame(number as u32))
    }

    /// The next word as a block.
    #[tactic(auto, unfolding(crate::specs::Slots::next))]
    pub fn block(&mut self) -> Option<Block>
        ensures { option_map (λ value. (value, self.new)) result ≡ slot.next slot.block self.old }
    {
        let number = self.number(65_535)?;
        Some(Block(number as u16))
    }

    /// The next word as a number of 32 bits.
    #[tactic(auto, unfolding(crate::specs::Slots::next))]
    pub fn word32(&mut self) -> Option<u32>
        ensures { option_map (λ value. (value, self.new)) result ≡ slot.next slot.word32 self.old }
    {
        let number = self.number(4_294_967_295)?;
        Some(number as u32)
    }

    /// The next word as a number of 64 bits.
    #[tactic(auto, unfolding(crate::specs::Slots::next))]
    pub fn word64(&mut self) -> Option<u64>
        ensures { option_map (λ value. (value, self.new)) result ≡ slot.next slot.word64 self.old }
    {
        let number = self.number(u64::MAX)?;
        Some(number)
    }

    /// The next word as an access.
    #[tactic(auto, unfolding(crate::specs::Slots::next, crate::specs::Slots::next_named))]
    pub fn access(&mut self) -> Option<Access>
        ensures { option_map (λ value. (value, self.new)) result ≡ slot.next slot.access self.old }
    {
        let word = self.next()?;
        find(&ACCESSES, word)
    }

    /// The next word as a cause.
    #[tactic(auto, unfolding(crate::specs::Slots::next, crate::specs::Slots::next_named))]
    pub fn cause(&mut self) -> Option<Cause>
        ensures { option_map (λ value. (value, self.new)) result ≡ slot.next slot.cause self.old }
    {
        let word = self.next()?;
        find(&CAUSES, word)
    }

    /// The next word as a kind of enclave.
    #[tactic(auto, unfolding(crate::specs::Slots::next, crate::specs::Slots::next_named))]
    pub fn kind(&mut self) -> Option<Kind>
        ensures { option_map (λ value. (value, self.new)) result ≡ slot.next slot.kind self.old }
    {
        let word = self.next()?;
        find(&KINDS, word)
    }

    /// The next word as whether the name server is there.
    #[tactic(auto, unfolding(crate::specs::Slots::next, crate::specs::Slots::next_named))]
    pub fn mark(&mut self) -> Option<bool>
        ensures { option_map (λ value. (value, self.new)) result ≡ slot.next slot.mark self.old }
    {
        let word = self.next()?;
        find(&MARKS, word)
    }
}
