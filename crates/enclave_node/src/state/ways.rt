// What an enclave learns of ways, by the numbers of its neighbours.
ghost use Rattle.std.specs.Prelude.{◌≡◌, [], ◌∷◌, ◌++◌, false, not, if◌then◌else◌, drop, slice_get, option_map, Some, IfSome, IfOk, OnOk};
ghost use Rattle.xm_num.specs.Rows.{at, next_from, IsAscending};
ghost use Rattle.route_learn.specs.Routes.{AreNumbers};
ghost use Rattle.xemem_language.specs.declared.line.Line.TheVariants as lines;
ghost use Rattle.enclave_rules.specs.Hand.{Nothing};
ghost use Rattle.enclave_rules.specs.View.{own_line};
ghost use Rattle.enclave_rules.specs.Sending as sending;
ghost use Rattle.enclave_rules.specs.Sending.{knows_way};
ghost use Rattle.enclave_rules.specs.Steps as steps;
ghost use Rattle.enclave_node.specs.Sides as spec;

use super::{State, plain};
use crate::sides::{enclave_of, side_of};
use page_table::AddressSpace;
use route_learn::Way;
use std::alloc::AllocError;
use xemem_language::{Body, Line, Lines};
use xm_num::Enclave;
use xm_num::laws::runs;

impl<A: AddressSpace> State<A> {
    // Whether the way to the name server is known. Where it isn't, the neighbour that asks for it is remembered.
    pub fn asked(&mut self, by: Enclave) -> Result<bool, AllocError>
        ensures known { IfOk result (λ known. known ≡ knows_way self.old) }
        ensures after { OnOk result (self.new ≡ (if knows_way self.old then self.old else own_line Nothing self.old (lines.Asked self.old.me by))) }
    {
        self.routes.asked(side_of(self.parent, by))
    }

    // The neighbour tells the way. Answers whether it wasn't known.
    pub fn told(&mut self, from: Enclave) -> bool
        ensures first { result ≡ not (knows_way self.old) }
        ensures after { self.new ≡ (if knows_way self.old then self.old else spec.with_way_over self.old from) }
    {
        self.routes.here(side_of(self.parent, from))
    }

    // Takes the first of those that asked.
    pub fn next_asker(&mut self) -> Option<Enclave>
        ensures first { result ≡ option_map (λ row. row.1) (slice_get self.old.ways.askers 0) }
        ensures left { self.new ≡ record self.old { ways = record self.old.ways { askers = drop 1 self.old.ways.askers } } }
    {
        let asker = self.routes.next_asker()?;
        Some(enclave_of(self.parent, asker))
    }

    // Tells the way to those that asked for it, and forgets them.
    pub fn tell_askers(&mut self, out: &mut Lines) -> Result<(), AllocError>
        ensures lines { OnOk result (out.new ≡ out.old ++ steps.told_askers self.old self.old.ways.askers) }
        ensures after { OnOk result (self.new ≡ record self.old { ways = record self.old.ways { askers = [] } }) }
    {
        while let Some(asker) = self.next_asker() {
            self.send(None, Some(asker), plain(self.me, Body::Here), out)?;
        }
        Ok(())
    }

    // Whether the enclave holds the name server.
    pub fn is_holder(&self) -> bool
        ensures { result ≡ self.now.core.holder }
    {
        match self.routes.server() {
            Way::Own => true,
            _ => false,
        }
    }

    // The neighbour over which the way to the name server goes, at an enclave that doesn't hold it.
    pub fn way(&self) -> Option<Enclave>
        ensures { self.now.core.holder ≡ false → result ≡ self.now.ways.way }
    {
        match self.routes.server() {
            Way::Over(over) => Some(enclave_of(self.parent, over)),
            _ => None,
        }
    }

    // The neighbour over which the way toward the name server goes, where the enclave doesn't hold it.
    pub fn toward_server(&self) -> Option<Enclave>
        ensures { result ≡ sending.toward_server self.now }
    {
        if self.is_holder() {
            return None;
        }
        self.way()
    }

    // The neighbour over which an enclave lies. Without a route to it the way toward the name server serves.
    pub fn way_to(&self, of: Enclave) -> Option<Enclave>
        ensures { result ≡ sending.way_to self.now (sending.To of) }
    {
        match self.routes.way(of) {
            Way::Over(over) => Some(enclave_of(self.parent, over)),
            _ => None,
        }
    }

    // Remembers over which neighbour an enclave can be answered.
    pub fn back(&mut self, of: Enclave, over: Enclave) -> Result<(), AllocError>
        ensures { OnOk result (self.new ≡ own_line Nothing self.old (lines.Back self.old.me of over)) }
    {
        self.routes.back(of, side_of(self.parent, over))
    }

    // Makes the way back to an enclave its route, and gives it, where there is one.
    pub fn learn(&mut self, of: Enclave) -> Result<Option<Enclave>, AllocError>
        ensures over { IfOk result (λ over. over ≡ at self.old.ways.backs of.0) }
        ensures after { OnOk result (self.new ≡ spec.with_route_over self.old of (at self.old.ways.backs of.0)) }
    {
        let Some(over) = self.routes.learn(of)? else {
            return Ok(None);
        };
        Ok(Some(enclave_of(self.parent, over)))
    }

    // Tells the way to the name server.
    fn show_way(&self, out: &mut Lines) -> Result<(), AllocError>
        ensures { OnOk result (out.new ≡ out.old ++ steps.way_line self.now ∷ []) }
    {
        let enclave = self.me;
        out.push(match self.routes.server() {
            Way::Own => Line::AtWayOwn { enclave },
            Way::Over(over) => Line::AtWay {
                enclave,
                over: enclave_of(self.parent, over),
            },
            Way::Unknown => Line::AtWayNone { enclave },
        })
    }

    // The least enclave from that number on that has a learned route, and the neighbour over which it lies.
    fn next_route(&self, from: u16) -> Option<(Enclave, Enclave)>
        ensures next { option_map (λ route. route.0.0) result ≡ next_from self.now.ways.routes from }
        ensures over { IfSome result (λ route. at self.now.ways.routes route.0.0 ≡ Some route.1) }
        ensures ascending { IsAscending self.now.ways.routes }
        ensures numbers { AreNumbers self.now.ways.routes }
    {
        let (of, over) = self.routes.next_route(from)?;
        Some((of, enclave_of(self.parent, over)))
    }

    // Tells the learned routes, ascending.
    fn show_learned(&self, out: &mut Lines) -> Result<(), AllocError>
        ensures { OnOk result (out.new ≡ out.old ++ spec.learned_lines self.now.me self.now.ways.routes) }
    {
        runs::<Enclave>();
        let mut number = 0;
        while let Some((of, over)) = self.next_route(number) {
            out.push(Line::AtRoute {
                enclave: self.me,
                of,
                over,
            })?;
            let Some(behind) = of.0.checked_add(1) else {
                return Ok(());
            };
            number = behind;
        }
        Ok(())
    }

    /// Tells the way to the name server and the learned routes.
    pub fn show_routes(&self, out: &mut Lines) -> Result<(), AllocError>
        ensures { OnOk result (out.new ≡ out.old ++ steps.route_lines self.now) }
    {
        self.show_way(out)?;
        self.show_learned(out)
    }
}
