// What an enclave is born with, and the lines that tell its birth.
ghost use Rattle.std.specs.Prelude.{◌≡◌, ◌<◌, ◌≤◌, ◌↔◌, [], ◌∷◌, ◌++◌, if◌then◌else◌, IfOk, OnOk, IsErrOf};
ghost use Rattle.xemem_language.specs.declared.line.Line.TheVariants as lines;
ghost use Rattle.enclave_rules.specs.Pages.{AreBlocks};
ghost use Rattle.enclave_rules.specs.Steps as steps;
ghost use Rattle.enclave_node.specs.Births as spec;

use crate::host::HostPart;
use crate::lists::list_of;
use crate::state::{Birth, query};
use frame_pool::PoolFault;
use std::alloc::{AllocError, Global};
use xemem_language::{Line, Lines};
use xm_num::{Block, Enclave, EnclaveList, Kind};

/// The birth of the host with the first `n` blocks of a new pool.
pub fn host_birth(alloc: Global, pool: u16, n: u16, holder: bool) -> Result<Birth, PoolFault>
    requires some { 1 ≤ pool }
    requires most { pool ≤ 4096 }
    ensures birth { IfOk result (λ birth. birth ≡ spec.host_birth pool n holder) }
    ensures ascend { IfOk result (λ birth. AreBlocks birth.blocks) }
    ensures short { IsErrOf result PoolFault.NoBlocks ↔ (pool < n) }
{
    let (part, blocks) = HostPart::new(alloc, pool, n)?;
    Ok(Birth {
        me: Enclave(0),
        kind: Kind::Host,
        parent: Enclave(0),
        blocks,
        holder,
        heard: EnclaveList::new(alloc),
        host: Some(part),
    })
}

/// The birth of a child.
pub fn child_birth(
    alloc: Global,
    me: Enclave,
    kind: Kind,
    parent: Enclave,
    blocks: &[Block],
    holder: bool,
    heard: &EnclaveList,
) -> Result<Birth, AllocError>
    ensures { IfOk result (λ birth. birth ≡ spec.child_birth me kind parent blocks.now holder heard.now) }
{
    Ok(Birth {
        me,
        kind,
        parent,
        blocks: list_of(alloc, blocks)?,
        holder,
        heard: list_of(alloc, heard.as_slice())?,
        host: None,
    })
}

fn tell_born(alloc: Global, birth: &Birth, out: &mut Lines) -> Result<(), AllocError>
    ensures { OnOk result (out.new ≡ out.old ++ lines.Born birth.now.me birth.now.kind birth.now.parent birth.now.holder birth.now.blocks ∷ []) }
{
    let blocks = list_of(alloc, birth.blocks.as_slice())?;
    out.push(Line::Born {
        enclave: birth.me,
        kind: birth.kind,
        parent: birth.parent,
        ns: birth.holder,
        blocks,
    })
}

fn tell_heard(me: Enclave, heard: &[Enclave], out: &mut Lines) -> Result<(), AllocError>
    ensures { OnOk result (out.new ≡ out.old ++ steps.told_lines me heard.now) }
{
    for of in heard {
        out.push(Line::Told {
            enclave: me,
            of: *of,
        })?;
    }
    Ok(())
}

/// Tells the host's birth.
pub fn tell_host(alloc: Global, birth: &Birth, out: &mut Lines) -> Result<(), AllocError>
    ensures { OnOk result (out.new ≡ out.old ++ spec.host_told birth.now) }
{
    tell_born(alloc, birth, out)?;
    if birth.holder {
        out.push(Line::Admitted { enclave: birth.me })?;
    }
    Ok(())
}

/// Tells a child's birth. Where it doesn't hold the name server, it asks its parent for the way.
pub fn tell_child(alloc: Global, birth: &Birth, out: &mut Lines) -> Result<(), AllocError>
    ensures { OnOk result (out.new ≡ out.old ++ spec.child_told birth.now) }
{
    tell_born(alloc, birth, out)?;
    tell_heard(birth.me, birth.heard.as_slice(), out)?;
    if birth.holder {
        return out.push(Line::Admitted { enclave: birth.me });
    }
    out.push(Line::Sent {
        from: birth.me,
        to: birth.parent,
        rec: query(birth.me),
    })
}
