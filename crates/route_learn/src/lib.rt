//! What an enclave learns of ways.
//!
//! An enclave learns the neighbour over which its way to the name server goes, and remembers who asked for that way
//! before. It remembers over which neighbour an enclave can be answered, its way back, and makes it the route to that
//! enclave once it is to be kept.
#![tactic(auto)]

ghost use Rattle.std.specs.Prelude.{◌≡◌, ◌≢◌, not, option_map, IfSome, IfOk, OnOk, OnErr, Some};
ghost use Rattle.xm_num.specs.Rows as rows;
ghost use Rattle.route_learn.specs.Routes as spec;

pub mod laws;
mod tables;

use std::alloc::{AllocError, Global};
use std::marker::Model;
use tables::{Askers, Ways};
use xm_num::{Enclave, Neighbour};

/// Where a record goes next.
#[derive(Clone, Copy, Debug, PartialEq, Eq)]
pub enum Way {
    /// Nowhere: it is this enclave's own.
    Own,
    /// To this neighbour.
    Over(Neighbour),
    /// No way is known.
    Unknown,
}

/// What an enclave knows of ways.
///
/// Contracts see it as a `RouteView`, whose tables are rows.
#[derive(Drop)]
pub struct Routes {
    // Whether this enclave holds the name server.
    holder: bool,
    // The neighbour over which the way to the name server goes.
    way: Option<Neighbour>,
    askers: Askers,
    back: Ways,
    routes: Ways,
}

impl Model for Routes {
    ghost use Rattle.route_learn.specs.Routes.{RouteView};

    ghost Value = { RouteView };

    ghost view = { λ r. record { holder = r.holder; way = r.way; askers = r.askers; back = r.back; routes = r.routes } };
}

impl Routes {
    /// Knows the way to the name server exactly where this enclave holds it, and no other way.
    pub fn new(alloc: Global, holder: bool) -> Result<Routes, AllocError>
        ensures { IfOk result (λ routes. routes ≡ spec.no_routes holder) }
    {
        Ok(Routes {
            holder,
            way: None,
            askers: Askers::new(alloc),
            back: Ways::new(alloc),
            routes: Ways::new(alloc),
        })
    }

    /// Answers whether the way to the name server is known. Where it isn't, the neighbour is remembered as an asker.
    /// For want of memory nothing changes.
    pub fn asked(&mut self, by: Neighbour) -> Result<bool, AllocError>
        ensures known { IfOk result (λ known. known ≡ spec.is_way_known self.old) }
        ensures after { OnOk result (self.new ≡ spec.after_asked self.old by) }
        ensures err { OnErr result (self.new ≡ self.old) }
    {
        if self.knows_way() {
            return Ok(true);
        }
        self.askers.insert(by)?;
        Ok(false)
    }

    /// The neighbour tells that the name server lies over it. Answers true exactly where the way wasn't known. Then the
    /// way goes over that neighbour, which is no asker any more.
    pub fn here(&mut self, from: Neighbour) -> bool
        ensures first { result ≡ not (spec.is_way_known self.old) }
        ensures after { self.new ≡ spec.after_here self.old from }
    {
        if self.knows_way() {
            return false;
        }
        self.way = Some(from);
        self.askers.remove(from);
        true
    }

    /// Takes the first asker: Up before the children, and these by their numbers.
    pub fn next_asker(&mut self) -> Option<Neighbour>
        ensures first { result ≡ spec.first_asker self.old }
        ensures left { self.new ≡ spec.without_first_asker self.old }
    {
        self.askers.take_first()
    }

    /// Remembers over which neighbour the enclave can be answered, in place of what was remembered before. For want of
    /// memory nothing changes.
    pub fn back(&mut self, of: Enclave, over: Neighbour) -> Result<(), AllocError>
        ensures after { OnOk result (self.new ≡ spec.with_back self.old of over) }
        ensures err { OnErr result (self.new ≡ self.old) }
    {
        self.back.insert(of, over)
    }

    /// Makes the enclave's way back its route, and answers it. Answers none exactly where there is no way back; then
    /// the route stays. The way back stays in any case. For want of memory nothing changes.
    pub fn learn(&mut self, of: Enclave) -> Result<Option<Neighbour>, AllocError>
        ensures over { IfOk result (λ over. over ≡ spec.way_back self.old of) }
        ensures after { OnOk result (self.new ≡ spec.after_learn self.old of) }
        ensures err { OnErr result (self.new ≡ self.old) }
    {
        let Some(over) = self.back.get(of) else {
            return Ok(None);
        };
        self.routes.insert(of, over)?;
        Ok(Some(over))
    }

    /// Drops the enclave's way back and its route. It takes no memory.
    pub fn forget(&mut self, of: Enclave)
        ensures { self.new ≡ spec.forgotten self.old of }
    {
        self.back.remove(of);
        self.routes.remove(of);
    }

    /// The way to the name server, which is this enclave's own exactly where it holds it.
    pub fn server(&self) -> Way
        ensures { result ≡ spec.server_way self.now }
    {
        if self.holder {
            return Way::Own;
        }
        self.to_server()
    }

    /// The way to another enclave: its route, or else the way to the name server. The holder of the name server has no
    /// way without a route.
    pub fn way(&self, dest: Enclave) -> Way
        ensures way { result ≡ spec.way_toward self.now dest }
        ensures never_own { result ≢ Way.Own }
    {
        match self.routes.get(dest) {
            Some(over) => Way::Over(over),
            None if self.holder => Way::Unknown,
            None => self.to_server(),
        }
    }

    /// The neighbour over which the enclave can be answered, where one is remembered.
    pub fn way_back(&self, of: Enclave) -> Option<Neighbour>
        ensures { result ≡ spec.way_back self.now of }
    {
        self.back.get(of)
    }

    /// The least enclave from that number on that has a route, and the neighbour over which it lies.
    pub fn next_route(&self, from: u16) -> Option<(Enclave, Neighbour)>
        ensures next { option_map (λ route. route.0.0) result ≡ rows.next_from self.now.routes from }
        ensures over { IfSome result (λ route. rows.at self.now.routes route.0.0 ≡ Some route.1) }
        ensures ascending { rows.IsAscending self.now.routes }
        ensures numbers { spec.AreNumbers self.now.routes }
    {
        self.routes.next_from(from)
    }

    // Whether the way to the name server is known.
    fn knows_way(&self) -> bool
        ensures { result ≡ spec.is_way_known self.now }
    {
        self.holder || self.way.is_some()
    }

    // The way that was told.
    fn to_server(&self) -> Way
        ensures { result ≡ spec.way_over self.now.way }
    {
        match self.way {
            Some(over) => Way::Over(over),
            None => Way::Unknown,
        }
    }
}
