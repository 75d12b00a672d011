// One export.
ghost use Rattle.std.specs.Prelude.{◌≡◌, ◌≤◌, pos, nat_abs, length, option_map, IfSome};
ghost use Rattle.exporter_pins.specs.Holdings.{asked_export, is_permitted, live_with};

use permit_check::met;
use std::marker::Model;
use xm_num::{Access, Frame, FrameList, Pid, Segid};

// Who made it, for which user, group and mode; its frames, at most 4,096; its segid once it is live.
#[derive(Drop)]
pub struct ExportRow {
    pid: Pid,
    uid: u32,
    gid: u32,
    mode: u16,
    frames: FrameList,
    segid: Option<Segid>,
}

impl Model for ExportRow {
    ghost use Rattle.std.specs.Prelude.{◌≡◌, ◌≤◌, pos, nat_abs, length, option_map, IfSome};
    ghost use Rattle.exporter_pins.specs.Holdings.{Export};

    ghost Value = { Export };

    ghost view = { λ r. record { pid = r.pid.0; uid = r.uid; gid = r.gid; mode = r.mode; frames = r.frames; segid = option_map (λ s. nat_abs s.0) r.segid } };

    ghost invariant = { λ r. (length r.frames ≤ 4096) × IfSome r.segid (λ s. s.0 ≡ pos (nat_abs s.0)) };
}

// The number of a segid.
pub fn number(segid: Segid) -> u64
    ensures { result ≡ nat_abs segid.0 }
{
    segid.0.unsigned_abs()
}

impl ExportRow {
    // An export that isn't live.
    pub fn asked(pid: Pid, uid: u32, gid: u32, mode: u16, frames: FrameList) -> ExportRow
        requires { length frames ≤ 4096 }
        ensures { result ≡ asked_export pid.0 uid gid mode frames }
    {
        ExportRow {
            pid,
            uid,
            gid,
            mode,
            frames,
            segid: None,
        }
    }

    // Makes it live.
    pub fn settle(&mut self, segid: Segid)
        requires { segid.0 ≡ pos (nat_abs segid.0) }
        ensures { self.new ≡ live_with (nat_abs segid.0) self.old }
    {
        self.segid = Some(segid);
    }

    // The process that made it.
    pub fn pid(&self) -> Pid
        ensures { result.0 ≡ self.now.pid }
    {
        self.pid
    }

    // How many pages it has.
    pub fn pages(&self) -> u32
        ensures { result ≡ length self.now.frames }
    {
        self.frames.len() as u32
    }

    // Whether the user may have the access to it.
    pub fn permits(&self, uid: u32, gid: u32, access: Access) -> bool
        ensures { result ≡ is_permitted uid gid access self.now }
    {
        met(self.mode, self.uid, self.gid, uid, gid, access)
    }

    // Its frames.
    pub fn frames(&self) -> &[Frame]
        ensures { result.now ≡ self.now.frames }
    {
        self.frames.as_slice()
    }

    // Its segid.
    pub fn segid(&self) -> Option<Segid>
        ensures number { option_map (λ s. nat_abs s.0) result ≡ self.now.segid }
        ensures natural { IfSome result (λ s. s.0 ≡ pos (nat_abs s.0)) }
    {
        self.segid
    }
}
