// What stands in a row behind its first word.
ghost use Rattle.std.specs.Prelude.{◌≡◌, ◌∷◌, [], nat_abs};
ghost use Rattle.xemem_language.specs.Destinations.{destination_number};
ghost use Rattle.xemem_language.specs.Spelling.{cause_word, kind_word, want_word, access_word};
ghost use Rattle.line_printer.specs.Items.{item_words};
ghost use Rattle.line_printer.specs.declared.item.Item.TheVariants as items;

use crate::names::{access_name, cause_name, kind_name, want_name};
use xm_num::{Access, Apid, Block, CallNo, Cause, Enclave, Frame, Kind, Pid, Segid, Vpn, Want};

/// What stands in a line behind its first word: a word, a number, or several of these.
#[derive(Clone, Copy)]
pub enum Item<'a> {
    /// The word itself.
    Word(&'a str),
    /// Its decimal digits.
    Number(u64),
    /// Four octal digits, the first of them 0.
    Mode(u16),
    /// The numbers of frames, of none or more.
    Frames(&'a [Frame]),
    /// The numbers of blocks, of none or more.
    Blocks(&'a [Block]),
    /// One word of two lower-case hexadecimal digits a byte, or nothing for no bytes.
    Hex(&'a [u8]),
}

impl<'a> From<&'a str> for Item<'a> {
    ghost from_gives = { λ word item. item ≡ items.Word word };

    fn from(word: &'a str) -> Self {
        Item::Word(word)
    }
}

impl<'a> From<&'a [Frame]> for Item<'a> {
    ghost from_gives = { λ frames item. item ≡ items.Frames frames };

    fn from(frames: &'a [Frame]) -> Self {
        Item::Frames(frames)
    }
}

impl<'a> From<&'a [Block]> for Item<'a> {
    ghost from_gives = { λ blocks item. item ≡ items.Blocks blocks };

    fn from(blocks: &'a [Block]) -> Self {
        Item::Blocks(blocks)
    }
}

impl From<u64> for Item<'_> {
    ghost from_gives = { λ n item. item ≡ items.Number n };

    fn from(n: u64) -> Self {
        Item::Number(n)
    }
}

impl From<u32> for Item<'_> {
    ghost from_gives = { λ n item. item ≡ items.Number n };

    fn from(n: u32) -> Self {
        Item::Number(u64::from(n))
    }
}

impl From<u16> for Item<'_> {
    ghost from_gives = { λ n item. item ≡ items.Number n };

    fn from(n: u16) -> Self {
        Item::Number(u64::from(n))
    }
}

impl From<Enclave> for Item<'_> {
    ghost from_gives = { λ enclave item. item ≡ items.Number enclave.0 };

    fn from(enclave: Enclave) -> Self {
        Item::Number(u64::from(enclave.0))
    }
}

impl From<Pid> for Item<'_> {
    ghost from_gives = { λ pid item. item ≡ items.Number pid.0 };

    fn from(pid: Pid) -> Self {
        Item::Number(u64::from(pid.0))
    }
}

impl From<CallNo> for Item<'_> {
    ghost from_gives = { λ call item. item ≡ items.Number call.0 };

    fn from(call: CallNo) -> Self {
        Item::Number(u64::from(call.0))
    }
}

impl From<Vpn> for Item<'_> {
    ghost from_gives = { λ page item. item ≡ items.Number page.0 };

    fn from(page: Vpn) -> Self {
        Item::Number(u64::from(page.0))
    }
}

impl From<Frame> for Item<'_> {
    ghost from_gives = { λ frame item. item ≡ items.Number frame.0 };

    fn from(frame: Frame) -> Self {
        Item::Number(u64::from(frame.0))
    }
}

impl From<Block> for Item<'_> {
    ghost from_gives = { λ block item. item ≡ items.Number block.0 };

    fn from(block: Block) -> Self {
        Item::Number(u64::from(block.0))
    }
}

impl From<Segid> for Item<'_> {
    ghost from_gives = { λ segid item. item ≡ items.Number (nat_abs segid.0) };

    fn from(segid: Segid) -> Self {
        Item::Number(segid.0.unsigned_abs())
    }
}

impl From<Apid> for Item<'_> {
    ghost from_gives = { λ apid item. item ≡ items.Number (nat_abs apid.0) };

    fn from(apid: Apid) -> Self {
        Item::Number(apid.0.unsigned_abs())
    }
}

// A destination, which is 65535 for none.
impl From<Option<Enclave>> for Item<'_> {
    ghost from_gives = { λ dest item. item ≡ items.Number (destination_number dest) };

    fn from(dest: Option<Enclave>) -> Self {
        match dest {
            Some(enclave) => Item::Number(u64::from(enclave.0)),
            None => Item::Number(65_535),
        }
    }
}

impl From<Cause> for Item<'_> {
    ghost from_gives = { λ cause item. item_words item ≡ cause_word cause ∷ [] };

    fn from(cause: Cause) -> Self {
        Item::Word(cause_name(cause))
    }
}

impl From<Kind> for Item<'_> {
    ghost from_gives = { λ kind item. item_words item ≡ kind_word kind ∷ [] };

    fn from(kind: Kind) -> Self {
        Item::Word(kind_name(kind))
    }
}

impl From<Access> for Item<'_> {
    ghost from_gives = { λ access item. item_words item ≡ access_word access ∷ [] };

    fn from(access: Access) -> Self {
        Item::Word(access_name(access))
    }
}

impl From<Want> for Item<'_> {
    ghost from_gives = { λ want item. item_words item ≡ want_word want ∷ [] };

    fn from(want: Want) -> Self {
        Item::Word(want_name(want))
    }
}
