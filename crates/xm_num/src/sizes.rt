// Sizes and addresses in bytes, turned into pages.
ghost use Rattle.std.specs.Prelude.{◌≡◌, ℕ, ◌+◌, ◌-◌, ◌*◌, ◌%◌, ◌<◌, ◌≤◌, ◌⊎◌, ◌↔◌, IsErrOf};
ghost use Rattle.xm_num.specs.Sizes.{pages_of, region_of, page_bytes, most_pages, last_page};

use crate::{Cause, Vpn};

/// The bytes of a page.
const PAGE_BYTES: u64 = 4096;

/// The most pages of a segment or an attachment.
const MOST_PAGES: u64 = 4096;

/// The highest page of a space.
const LAST_PAGE: u64 = 16_777_215;

/// The pages of that many bytes, 1 to 4,096.
pub fn pages(bytes: u64) -> Result<u32, Cause>
    ensures pages { result ≡ pages_of bytes }
    ensures unaligned { IsErrOf result Cause.BadAlign ↔ (0 < bytes % page_bytes) }
    ensures empty { IsErrOf result Cause.BadRange ↔ (bytes ≡ 0) }
    ensures large { IsErrOf result Cause.TooLarge ↔ ((bytes % page_bytes ≡ 0) × (most_pages * page_bytes < bytes)) }
{
    if !bytes.is_multiple_of(PAGE_BYTES) {
        return Err(Cause::BadAlign);
    }
    if bytes == 0 {
        return Err(Cause::BadRange);
    }
    let count = bytes / PAGE_BYTES;
    if count > MOST_PAGES {
        return Err(Cause::TooLarge);
    }
    Ok(count as u32)
}

/// The first of the `n` pages from the address `addr` on, which lie within 1 to 16,777,215.
pub fn region(addr: u64, n: u32) -> Result<Vpn, Cause>
    requires { 1 ≤ n }
    ensures region { result ≡ region_of addr n }
    ensures unaligned { IsErrOf result Cause.BadAlign ↔ (0 < addr % page_bytes) }
    ensures outside { IsErrOf result Cause.BadRange ↔ ((addr % page_bytes ≡ 0) × ((addr ≡ 0) ⊎ (last_page * page_bytes < addr + (n - 1) * page_bytes))) }
{
    if !addr.is_multiple_of(PAGE_BYTES) {
        return Err(Cause::BadAlign);
    }
    let first = addr / PAGE_BYTES;
    if first == 0 || first + u64::from(n - 1) > LAST_PAGE {
        return Err(Cause::BadRange);
    }
    Ok(Vpn(first as u32))
}
