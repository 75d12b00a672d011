// What the pages of a process are used for.
ghost use Rattle.std.specs.Prelude.{◌≡◌, ◌+◌, ◌/◌, ◌≤◌, ◌^◌, IfOk, Some, None, if◌then◌else◌};
ghost use Rattle.xm_num.specs.Rows.{at, any_between};
ghost use Rattle.enclave_rules.specs.Pages as pages;
ghost use Rattle.enclave_rules.specs.Exports.{region_frames};
ghost use Rattle.enclave_rules.specs.Segments.{are_own_pages};
ghost use Rattle.enclave_rules.specs.Steps.{page_answer};

use page_table::AddressSpace;
use std::alloc::{AllocError, Global};
use xm_num::{Access, Cause, Frame, FrameList, Vpn, Want};

const PAGE_BYTES: u64 = 4096;

const LAST_PAGE: u64 = 16_777_215;

// Whether the access allows what is wanted.
fn allows(access: Access, want: Want) -> bool
    ensures { result ≡ pages.allows access want }
{
    match access {
        Access::ReadOnly => want == Want::Read,
        Access::ReadWrite => true,
    }
}

/// Whether one of `n` pages from `at` on is mapped.
pub fn is_taken<A: AddressSpace>(space: &A, at: Vpn, n: u32) -> bool
    requires { at.0 + n ≤ 2 ^ 24 }
    ensures { result ≡ any_between (A.pages space.now) at.0 (at.0 + n) }
{
    match space.next_mapped(at) {
        Some(page) => page.0 < at.0 + n,
        None => false,
    }
}

/// The page of an address and its frame, or why the page can't be used so.
pub fn touch<A: AddressSpace>(space: &A, addr: u64, want: Want) -> Result<(Vpn, Frame), Cause>
    ensures { result ≡ page_answer want (record { 0 = addr / 4096 }) (at (A.pages space.now) (addr / 4096)) }
{
    let page = addr / PAGE_BYTES;
    let vpn = Vpn(page.min(LAST_PAGE) as u32);
    match space.walk(vpn) {
        Some((frame, access)) if page <= LAST_PAGE => if allows(access, want) {
            Ok((vpn, frame))
        } else {
            Err(Cause::Denied)
        },
        _ => Err(Cause::NotMapped),
    }
}

/// The frames of `n` pages from `first` on, where all of them are own ones.
pub fn own_frames<A: AddressSpace>(
    alloc: Global,
    space: &A,
    first: Vpn,
    n: u32,
) -> Result<Option<FrameList>, AllocError>
    requires { first.0 + n ≤ 2 ^ 24 }
    ensures { IfOk result (λ found. found ≡ (if are_own_pages (A.pages space.now) first.0 n then Some (region_frames (A.pages space.now) first.0 n) else None)) }
{
    let mut frames = FrameList::new(alloc);
    for i in 0..n {
        let Some(frame) = space.owned(Vpn(first.0 + i)) else {
            return Ok(None);
        };
        frames.push(frame)?;
    }
    Ok(Some(frames))
}
