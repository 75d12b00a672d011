// The names of segments: how they are asked for, drawn, taken and forgotten.
ghost use Rattle.std.specs.Prelude.{◌≡◌, ◌≤◌, ◌^◌, [], ◌∷◌, ◌++◌, true, if◌then◌else◌, option_map, Some, IfSome, IfOk, OnOk};
ghost use Rattle.xm_num.specs.Rows.{at, next_from, IsAscending};
ghost use Rattle.xemem_wire.specs.Spelling.{is_valid};
ghost use Rattle.enclave_rules.specs.Hand.{Hand, Nothing};
ghost use Rattle.enclave_rules.specs.View.{own_line, own_lines};
ghost use Rattle.enclave_rules.specs.Names.{can_draw, next_segid, segid_of};
ghost use Rattle.enclave_rules.specs.Sending as sending;
ghost use Rattle.enclave_rules.specs.Segments as segments;
ghost use Rattle.enclave_node.specs.Naming as spec;

use super::State;
use crate::memory::is_segid;
use page_table::AddressSpace;
use std::alloc::AllocError;
use xemem_language::{Body, Line, Lines, Record};
use xemem_wire::valid;
use xm_num::laws::runs;
use xm_num::{CallNo, Enclave, Segid};

// How many segids can be drawn.
const SEGIDS: u64 = 1 << 32;

// The segid of a number that was drawn.
fn segid_of(number: u64) -> Segid
    requires { number ≤ 2 ^ 32 }
    ensures { result ≡ segid_of number }
{
    Segid(number as i64)
}

impl<A: AddressSpace> State<A> {
    /// Sends a record that the enclave makes for a call over a neighbour, where each number fits its field.
    pub fn send_made(
        &self,
        over: Option<Enclave>,
        rec: Record,
        out: &mut Lines,
    ) -> Result<(), AllocError>
        ensures { OnOk result (out.new ≡ out.old ++ spec.made_over self.now over rec) }
    {
        if !valid(&rec) {
            return self.drop_record(out);
        }
        self.send(None, over, rec, out)
    }

    // Whether a segid is left to be drawn.
    fn can_draw(&self) -> bool
        ensures { result ≡ can_draw self.now.names }
    {
        self.names.drawn() < SEGIDS
    }

    // Draws the next segid for a make.
    fn draw(&mut self, caller: Enclave, call: CallNo, out: &mut Lines) -> Result<Segid, AllocError>
        requires { can_draw self.old.names ≡ true }
        ensures segid { IfOk result (λ segid. segid ≡ next_segid self.old.names) }
        ensures lines { OnOk result (out.new ≡ out.old ++ segments.drew_line self.old caller call.0 ∷ []) }
        ensures after { OnOk result (self.new ≡ own_line Nothing self.old (segments.drew_line self.old caller call.0)) }
    {
        let segid = self.names.name(caller)?;
        out.push(Line::Drew {
            enclave: caller,
            call,
            segid,
        })?;
        Ok(segid)
    }

    // Names the segment of another enclave's make, and tells it.
    pub fn name(&mut self, caller: Enclave, call: CallNo, out: &mut Lines) -> Result<(), AllocError>
        ensures lines { OnOk result (out.new ≡ out.old ++ segments.name_lines self.old caller call.0) }
        ensures after { OnOk result ((hand : Hand) → self.new ≡ own_lines hand self.old (segments.name_lines self.old caller call.0)) }
    {
        if !self.can_draw() {
            return self.drop_record(out);
        }
        let segid = self.draw(caller, call, out)?;
        let rec = Record {
            origin: self.me,
            dest: Some(caller),
            call: call.0,
            body: Body::Named { segid },
        };
        self.send_made(self.way_to(caller), rec, out)
    }

    // Names the segment of a make of the enclave itself, which holds the name server.
    fn name_own(&mut self, call: CallNo, out: &mut Lines) -> Result<(), AllocError>
        ensures lines { OnOk result ((hand : Hand) → out.new ≡ out.old ++ segments.naming_lines hand self.old call.0) }
        ensures after { OnOk result ((hand : Hand) → self.new ≡ own_lines hand self.old (segments.naming_lines hand self.old call.0)) }
    {
        if !self.can_draw() {
            return self.drop_record(out);
        }
        let segid = self.draw(self.me, call, out)?;
        self.take_segid(call, segid, out)
    }

    // Asks for the name of a make that was issued: the holder of the name server gives it itself.
    pub fn ask_name(&mut self, call: CallNo, out: &mut Lines) -> Result<(), AllocError>
        ensures lines { OnOk result ((hand : Hand) → out.new ≡ out.old ++ segments.asking_lines hand self.old call.0) }
        ensures after { OnOk result ((hand : Hand) → self.new ≡ own_lines hand self.old (segments.asking_lines hand self.old call.0)) }
    {
        if self.is_holder() {
            return self.name_own(call, out);
        }
        let rec = Record {
            origin: self.me,
            dest: None,
            call: call.0,
            body: Body::NameReq,
        };
        self.send_made(self.toward_server(), rec, out)
    }

    // The make's segment is live, and the make is answered, where it waits for that.
    pub fn take_segid(
        &mut self,
        call: CallNo,
        segid: Segid,
        out: &mut Lines,
    ) -> Result<(), AllocError>
        ensures lines { OnOk result (out.new ≡ out.old ++ segments.named_lines self.old call.0 segid) }
        ensures after { OnOk result ((hand : Hand) → self.new ≡ own_lines hand self.old (segments.named_lines self.old call.0 segid)) }
    {
        let Some(pid) = self.memory.take_segid(call, segid) else {
            return self.drop_record(out);
        };
        out.push(Line::Named {
            enclave: self.me,
            call,
            segid,
        })?;
        out.push(Line::AnswerSegid {
            enclave: self.me,
            pid,
            call,
            segid,
        })
    }

    // The name of an owner is forgotten, where it is there.
    pub fn unname(
        &mut self,
        segid: Segid,
        owner: Enclave,
        out: &mut Lines,
    ) -> Result<(), AllocError>
        ensures lines { OnOk result (out.new ≡ out.old ++ segments.unname_lines self.old owner segid) }
        ensures after { OnOk result ((hand : Hand) → self.new ≡ own_lines hand self.old (segments.unname_lines self.old owner segid)) }
    {
        if !is_segid(segid) || !self.names.unname(segid, owner) {
            return self.drop_record(out);
        }
        out.push(Line::Unnamed { segid })
    }

    // Tells that a segment of the enclave, exported by that make, is no more.
    pub fn tell_removed(
        &mut self,
        call: CallNo,
        segid: Segid,
        out: &mut Lines,
    ) -> Result<(), AllocError>
        ensures lines { OnOk result (out.new ≡ out.old ++ spec.removed_lines self.old call.0 segid) }
        ensures after { OnOk result ((hand : Hand) → self.new ≡ own_lines hand self.old (spec.removed_lines self.old call.0 segid)) }
    {
        if self.is_holder() {
            return self.unname(segid, self.me, out);
        }
        let rec = Record {
            origin: self.me,
            dest: None,
            call: call.0,
            body: Body::Unname { segid },
        };
        self.send_made(self.toward_server(), rec, out)
    }

    // The least number from that one on that is a name's, and the name's owner.
    fn next_number(&self, from: u64) -> Option<(u64, Enclave)>
        ensures next { option_map (λ name. name.0) result ≡ next_from self.now.names.pairs from }
        ensures owner { IfSome result (λ name. at self.now.names.pairs name.0 ≡ Some name.1) }
        ensures low { IfSome result (λ name. from ≤ name.0) }
        ensures high { IfSome result (λ name. name.0 ≤ 2 ^ 32) }
        ensures ascending { IsAscending self.now.names.pairs }
    {
        runs::<Enclave>();
        if from > self.names.drawn() {
            return None;
        }
        let (segid, owner) = self.names.next_name(Segid(from as i64))?;
        Some((segid.0 as u64, owner))
    }

    /// Tells the names and their owners, ascending.
    pub fn show_names(&self, out: &mut Lines) -> Result<(), AllocError>
        ensures { OnOk result (out.new ≡ out.old ++ segments.name_rows self.now.names.pairs) }
    {
        let mut from = 0;
        while let Some((number, owner)) = self.next_number(from) {
            out.push(Line::Name {
                segid: segid_of(number),
                owner,
            })?;
            from = number + 1;
        }
        Ok(())
    }
}
