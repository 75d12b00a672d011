// What an enclave does with a record.
ghost use Rattle.std.specs.Prelude.{◌≡◌, [], ◌∷◌, ◌++◌, Some, OnOk};
ghost use Rattle.xm_num.specs.Rows.{at};
ghost use Rattle.xemem_language.specs.declared.line.Line.TheVariants as lines;
ghost use Rattle.enclave_rules.specs.Hand.{Hand, Reads};
ghost use Rattle.enclave_rules.specs.View.{own_lines};
ghost use Rattle.enclave_rules.specs.Sending as sending;
ghost use Rattle.enclave_rules.specs.Steps as steps;
ghost use Rattle.enclave_node.specs.Sides as spec;

use super::{State, plain};
use crate::feeds::Feed;
use page_table::AddressSpace;
use std::alloc::AllocError;
use xemem_language::{Body, Line, Lines, Record};
use xm_num::laws::rows;
use xm_num::{CallNo, Enclave, Segid};

impl<A: AddressSpace> State<A> {
    /// Gets a record that came whole from a neighbour, and handles it.
    pub fn take(&mut self, from: Enclave, rec: Record, out: &mut Lines) -> Result<(), AllocError>
        ensures lines { OnOk result (out.new ≡ out.old ++ steps.handled_lines self.old from rec) }
        ensures after { OnOk result (self.new ≡ steps.after_record self.old from rec) }
    {
        out.push(Line::Got { from, to: self.me })?;
        self.handle(from, rec, out)
    }

    /// Takes all records of a channel that are whole, one after the other.
    pub fn take_all(
        &mut self,
        from: Enclave,
        feed: &mut Feed,
        out: &mut Lines,
    ) -> Result<(), AllocError>
        ensures lines { OnOk result (out.new ≡ out.old ++ steps.lines_of_records self.old from feed.old.records) }
        ensures after { OnOk result (self.new ≡ steps.after_records self.old from feed.old.records) }
        ensures given { OnOk result (feed.new ≡ record feed.old { records = [] }) }
    {
        while let Some(rec) = feed.next()? {
            self.take(from, rec, out)?;
        }
        Ok(())
    }

    fn handle(&mut self, from: Enclave, rec: Record, out: &mut Lines) -> Result<(), AllocError>
        ensures lines { OnOk result (out.new ≡ out.old ++ steps.record_lines self.old from rec) }
        ensures after { OnOk result (self.new ≡ own_lines (Reads rec) self.old (steps.record_lines self.old from rec)) }
    {
        if self.is_stray(&rec) {
            return self.drop_record(out);
        }
        match rec.body {
            Body::Query => self.on_query(from, out),
            Body::Here => self.on_here(from, out),
            Body::Register => self.on_register(from, rec, out),
            Body::Admit => self.on_admit(from, rec, out),
            Body::NameReq => self.on_name_request(from, rec, out),
            Body::Named { segid } => self.on_named(from, rec, segid, out),
            Body::Unname { segid } => self.on_unname(from, rec, segid, out),
            _ => self.drop_record(out),
        }
    }

    fn knows_dead(&self, enclave: Enclave) -> bool
        ensures { result ≡ steps.knows_dead self.now enclave }
    {
        self.heard.as_slice().iter().any(|d| d.0 == enclave.0)
    }

    // Whether a record comes back to its origin, or is from or to an enclave that was heard dead.
    fn is_stray(&self, rec: &Record) -> bool
        ensures { result ≡ steps.is_stray self.now rec.now }
    {
        if rec.origin.0 == self.me.0 || self.knows_dead(rec.origin) {
            return true;
        }
        match rec.dest {
            Some(dest) => self.knows_dead(dest),
            None => false,
        }
    }

    pub fn drop_record(&self, out: &mut Lines) -> Result<(), AllocError>
        ensures { OnOk result (out.new ≡ out.old ++ sending.drop_lines self.now) }
    {
        out.push(Line::Dropped { enclave: self.me })
    }

    /// Sends a record that came from there over a neighbour. It is dropped where it would go back, and where there is no
    /// neighbour for it.
    pub fn send(
        &self,
        came: Option<Enclave>,
        over: Option<Enclave>,
        rec: Record,
        out: &mut Lines,
    ) -> Result<(), AllocError>
        ensures { OnOk result (out.new ≡ out.old ++ sending.over_lines self.now came over rec) }
    {
        let Some(to) = over else {
            return self.drop_record(out);
        };
        match came {
            Some(from) if to.0 == from.0 => self.drop_record(out),
            _ => out.push(Line::Sent {
                from: self.me,
                to,
                rec,
            }),
        }
    }

    // Answers a query where the way is known, and else remembers who asked.
    fn on_query(&mut self, from: Enclave, out: &mut Lines) -> Result<(), AllocError>
        ensures lines { OnOk result (out.new ≡ out.old ++ steps.query_lines self.old from) }
        ensures after { OnOk result ((hand : Hand) → self.new ≡ own_lines hand self.old (steps.query_lines self.old from)) }
    {
        if self.asked(from)? {
            return self.send(None, Some(from), plain(self.me, Body::Here), out);
        }
        out.push(Line::Asked {
            enclave: self.me,
            by: from,
        })
    }

    // Learns the way, tells it to those that asked, and registers over it.
    fn on_here(&mut self, from: Enclave, out: &mut Lines) -> Result<(), AllocError>
        ensures lines { OnOk result (out.new ≡ out.old ++ steps.here_lines self.old from) }
        ensures after { OnOk result ((hand : Hand) → self.new ≡ own_lines hand self.old (steps.here_lines self.old from)) }
    {
        if !self.told(from) {
            return self.drop_record(out);
        }
        out.push(Line::Way {
            enclave: self.me,
            over: from,
        })?;
        self.tell_askers(out)?;
        self.send(None, Some(from), plain(self.me, Body::Register), out)
    }

    // Remembers the way back. The holder of the name server admits, and another enclave passes the record on.
    fn on_register(&mut self, from: Enclave, rec: Record, out: &mut Lines) -> Result<(), AllocError>
        ensures lines { OnOk result (out.new ≡ out.old ++ steps.register_lines self.old from rec) }
        ensures after { OnOk result (self.new ≡ own_lines (Reads rec) self.old (steps.register_lines self.old from rec)) }
    {
        rows::<Enclave>();
        self.back(rec.origin, from)?;
        out.push(Line::Back {
            enclave: self.me,
            of: rec.origin,
            over: from,
        })?;
        if self.is_holder() {
            return self.admit(from, &rec, out);
        }
        let over = self.way();
        self.send(Some(from), over, rec, out)
    }

    // Makes the way back that was just remembered the route, and admits over it.
    fn admit(&mut self, from: Enclave, asked: &Record, out: &mut Lines) -> Result<(), AllocError>
        requires { at self.old.ways.backs asked.now.origin.0 ≡ Some from }
        ensures lines { OnOk result (out.new ≡ out.old ++ spec.admitting_lines self.old from asked.now.origin) }
        ensures after { OnOk result (self.new ≡ own_lines (Reads asked.now) self.old (spec.admitting_lines self.old from asked.now.origin)) }
    {
        let origin = asked.origin;
        self.learn(origin)?;
        out.push(Line::Route {
            enclave: self.me,
            of: origin,
            over: from,
        })?;
        let rec = Record {
            origin: self.me,
            dest: Some(origin),
            call: 0,
            body: Body::Admit,
        };
        self.send(None, Some(from), rec, out)
    }

    // Takes its own admit, and passes another on over the way back, which becomes the route.
    fn on_admit(&mut self, from: Enclave, rec: Record, out: &mut Lines) -> Result<(), AllocError>
        ensures lines { OnOk result (out.new ≡ out.old ++ steps.admit_to self.old from rec rec.dest) }
        ensures after { OnOk result (self.new ≡ own_lines (Reads rec) self.old (steps.admit_to self.old from rec rec.dest)) }
    {
        let Some(dest) = rec.dest else {
            return self.drop_record(out);
        };
        if dest.0 == self.me.0 {
            return self.become_ready(out);
        }
        let Some(over) = self.learn(dest)? else {
            return self.drop_record(out);
        };
        out.push(Line::Route {
            enclave: self.me,
            of: dest,
            over,
        })?;
        self.send(Some(from), Some(over), rec, out)
    }

    // The first admit for the enclave itself makes it ready.
    fn become_ready(&mut self, out: &mut Lines) -> Result<(), AllocError>
        ensures lines { OnOk result (out.new ≡ out.old ++ spec.ready_lines self.old) }
        ensures after { OnOk result ((hand : Hand) → self.new ≡ own_lines hand self.old (spec.ready_lines self.old)) }
    {
        if self.admitted {
            return self.drop_record(out);
        }
        self.admitted = true;
        out.push(Line::Admitted { enclave: self.me })
    }

    // The holder of the name server names the segment, and another enclave passes the request on toward it.
    fn on_name_request(
        &mut self,
        from: Enclave,
        rec: Record,
        out: &mut Lines,
    ) -> Result<(), AllocError>
        ensures lines { OnOk result (out.new ≡ out.old ++ steps.name_request_lines self.old from rec) }
        ensures after { OnOk result ((hand : Hand) → self.new ≡ own_lines hand self.old (steps.name_request_lines self.old from rec)) }
    {
        if self.is_holder() {
            return self.name(rec.origin, CallNo(rec.call), out);
        }
        let over = self.toward_server();
        self.send(Some(from), over, rec, out)
    }

    // Takes the name of a segment of its own, and passes that of another on.
    fn on_named(
        &mut self,
        from: Enclave,
        rec: Record,
        segid: Segid,
        out: &mut Lines,
    ) -> Result<(), AllocError>
        ensures lines { OnOk result (out.new ≡ out.old ++ steps.named_to self.old from rec segid rec.dest) }
        ensures after { OnOk result ((hand : Hand) → self.new ≡ own_lines hand self.old (steps.named_to self.old from rec segid rec.dest)) }
    {
        let Some(dest) = rec.dest else {
            return self.drop_record(out);
        };
        if dest.0 == self.me.0 {
            return self.take_segid(CallNo(rec.call), segid, out);
        }
        let over = self.way_to(dest);
        self.send(Some(from), over, rec, out)
    }

    // The holder of the name server forgets the name, and another enclave passes the record on toward it.
    fn on_unname(
        &mut self,
        from: Enclave,
        rec: Record,
        segid: Segid,
        out: &mut Lines,
    ) -> Result<(), AllocError>
        ensures lines { OnOk result (out.new ≡ out.old ++ steps.unname_to self.old from rec segid) }
        ensures after { OnOk result ((hand : Hand) → self.new ≡ own_lines hand self.old (steps.unname_to self.old from rec segid)) }
    {
        if self.is_holder() {
            return self.unname(segid, rec.origin, out);
        }
        let over = self.toward_server();
        self.send(Some(from), over, rec, out)
    }
}
