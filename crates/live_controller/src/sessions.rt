// The sessions with the peers: each closed one is dialled, and each open one is read.
ghost use Rattle.std.specs.Prelude.{◌≡◌, ◌<◌, ◌∷◌, ℕ, List, OnOk, length, true, false};
ghost use Rattle.ikeless_tree.specs.declared.command.Peer.{Peer};
ghost use Rattle.live_controller.specs.Desks.{Keeps, Serves};
ghost use Rattle.live_controller.specs.Doings.{AreCalm, AreLater};
ghost use Rattle.live_controller.specs.Found.{Devices};
ghost use Rattle.live_controller.specs.Links.{up_at};
ghost use Rattle.live_controller.specs.Past.{Dialled, Heard, Item, Told};
ghost use Rattle.live_controller.specs.Stands.{AreDialled, AreLines, AreRead, AreResponses, IsRead, IsReadIf, PeersStand, none_left};

use crate::desk::Desk;
use ctl_core::CtlEvent;
use ikl_base::{Failed, NoMemory};
use live_devices::Dialer;

impl Desk {
    // Dials a peer. Where that fails nothing happens; it is dialled again in the next turn.
    fn dial<L: Dialer>(&mut self, g: usize, dialer: &mut L) -> Result<(), NoMemory>
        requires serves { Serves self.old (L.peers dialer.old) (L.is_up dialer.old) }
        requires known { g < length self.old.peers }
        requires down { up_at self.old.links.items g ≡ false }
        ensures serves { OnOk result (Serves self.new (L.peers dialer.new) (L.is_up dialer.new)) }
        ensures peers { OnOk result (self.new.peers ≡ self.old.peers) }
        ensures later { OnOk result (AreLater (L.faults dialer.old) (L.faults dialer.new)) }
        ensures goes { OnOk result (AreCalm (L.faults dialer.old) (L.faults dialer.new)
            → (ps : List Peer) (start : Devices) (past : List Item)
            → PeersStand ps start past none_left none_left (L.held dialer.old) self.old
            → PeersStand ps start (Dialled g ∷ past) none_left none_left (L.held dialer.new) self.new) }
    {
        match dialer.dial(g) {
            Ok(()) => {
                self.open(g);
                self.tell(CtlEvent::Opened(g), dialer)?;
                Ok(())
            }
            Err(Failed) => Ok(()),
        }
    }

    /// Dials each closed peer once, in the order of their numbers.
    pub(crate) fn dial_closed<L: Dialer>(&mut self, dialer: &mut L) -> Result<(), NoMemory>
        requires { Serves self.old (L.peers dialer.old) (L.is_up dialer.old) }
        ensures serves { OnOk result (Serves self.new (L.peers dialer.new) (L.is_up dialer.new)) }
        ensures peers { OnOk result (self.new.peers ≡ self.old.peers) }
        ensures later { OnOk result (AreLater (L.faults dialer.old) (L.faults dialer.new)) }
        ensures goes { OnOk result (AreCalm (L.faults dialer.old) (L.faults dialer.new)
            → (ps : List Peer) (start : Devices) (past : List Item)
            → PeersStand ps start past none_left none_left (L.held dialer.old) self.old
            → (now : List Item) × AreDialled ps (length ps) past now × PeersStand ps start now none_left none_left (L.held dialer.new)
            self.new) }
    {
        for g in 0..self.peers.len() {
            if !self.is_open(g) {
                self.dial(g, dialer)?;
            }
        }
        Ok(())
    }

    // Reads a peer's control stream once.
    fn read_responses<L: Dialer>(
        &mut self,
        g: usize,
        dialer: &mut L,
        buf: &mut [u8],
    ) -> Result<(), NoMemory>
        requires serves { Serves self.old (L.peers dialer.old) (L.is_up dialer.old) }
        requires known { g < length self.old.peers }
        requires up { up_at self.old.links.items g ≡ true }
        requires room { length buf.old ≡ 65536 }
        ensures serves { OnOk result (Serves self.new (L.peers dialer.new) (L.is_up dialer.new)) }
        ensures keeps { OnOk result (Keeps self.old self.new) }
        ensures later { OnOk result (AreLater (L.faults dialer.old) (L.faults dialer.new)) }
        ensures goes { OnOk result (AreCalm (L.faults dialer.old) (L.faults dialer.new)
            → (ps : List Peer) (start : Devices) (past : List Item)
            → PeersStand ps start past none_left none_left (L.held dialer.old) self.old
            → (now : List Item) × IsReadIf true (Heard g) (AreResponses g) past now
            × PeersStand ps start now none_left none_left (L.held dialer.new) self.new) }
    {
        match dialer.read(g, buf) {
            Ok(None) => Ok(()),
            Ok(Some(n)) => {
                if n == 0 {
                    return self.cut(g, dialer);
                }
                let (octets, _) = buf.split_at(n);
                self.take_responses(g, octets, dialer)
            }
            Err(Failed) => self.cut(g, dialer),
        }
    }

    // Reads a peer's notice stream once.
    fn read_notices<L: Dialer>(
        &mut self,
        g: usize,
        dialer: &mut L,
        buf: &mut [u8],
    ) -> Result<(), NoMemory>
        requires serves { Serves self.old (L.peers dialer.old) (L.is_up dialer.old) }
        requires known { g < length self.old.peers }
        requires up { up_at self.old.links.items g ≡ true }
        requires room { length buf.old ≡ 65536 }
        ensures serves { OnOk result (Serves self.new (L.peers dialer.new) (L.is_up dialer.new)) }
        ensures keeps { OnOk result (Keeps self.old self.new) }
        ensures later { OnOk result (AreLater (L.faults dialer.old) (L.faults dialer.new)) }
        ensures goes { OnOk result (AreCalm (L.faults dialer.old) (L.faults dialer.new)
            → (ps : List Peer) (start : Devices) (past : List Item)
            → PeersStand ps start past none_left none_left (L.held dialer.old) self.old
            → (now : List Item) × IsReadIf true (Told g) (AreLines g) past now
            × PeersStand ps start now none_left none_left (L.held dialer.new) self.new) }
    {
        match dialer.read_notice(g, buf) {
            Ok(None) => Ok(()),
            Ok(Some(n)) => {
                if n == 0 {
                    return self.cut(g, dialer);
                }
                let (octets, _) = buf.split_at(n);
                self.take_notices(g, octets, dialer)
            }
            Err(Failed) => self.cut(g, dialer),
        }
    }

    // Reads a peer whose session is open: its control stream, and then its notice stream unless the session was cut.
    fn read_peer<L: Dialer>(
        &mut self,
        g: usize,
        dialer: &mut L,
        buf: &mut [u8],
    ) -> Result<(), NoMemory>
        requires serves { Serves self.old (L.peers dialer.old) (L.is_up dialer.old) }
        requires known { g < length self.old.peers }
        requires up { up_at self.old.links.items g ≡ true }
        requires room { length buf.old ≡ 65536 }
        ensures serves { OnOk result (Serves self.new (L.peers dialer.new) (L.is_up dialer.new)) }
        ensures keeps { OnOk result (Keeps self.old self.new) }
        ensures later { OnOk result (AreLater (L.faults dialer.old) (L.faults dialer.new)) }
        ensures goes { OnOk result (AreCalm (L.faults dialer.old) (L.faults dialer.new)
            → (ps : List Peer) (start : Devices) (past : List Item)
            → PeersStand ps start past none_left none_left (L.held dialer.old) self.old
            → (now : List Item) × IsRead ps g past now × PeersStand ps start now none_left none_left (L.held dialer.new) self.new) }
    {
        self.read_responses(g, dialer, buf)?;
        if !self.is_open(g) {
            return Ok(());
        }
        self.read_notices(g, dialer, buf)
    }

    /// Reads both streams of each open peer once, in the order of their numbers.
    pub(crate) fn read_open<L: Dialer>(
        &mut self,
        dialer: &mut L,
        buf: &mut [u8],
    ) -> Result<(), NoMemory>
        requires serves { Serves self.old (L.peers dialer.old) (L.is_up dialer.old) }
        requires room { length buf.old ≡ 65536 }
        ensures serves { OnOk result (Serves self.new (L.peers dialer.new) (L.is_up dialer.new)) }
        ensures peers { OnOk result (self.new.peers ≡ self.old.peers) }
        ensures later { OnOk result (AreLater (L.faults dialer.old) (L.faults dialer.new)) }
        ensures goes { OnOk result (AreCalm (L.faults dialer.old) (L.faults dialer.new)
            → (ps : List Peer) (start : Devices) (past : List Item)
            → PeersStand ps start past none_left none_left (L.held dialer.old) self.old
            → (now : List Item) × AreRead ps (length ps) past now × PeersStand ps start now none_left none_left (L.held dialer.new)
            self.new) }
    {
        for g in 0..self.peers.len() {
            if self.is_open(g) {
                self.read_peer(g, dialer, buf)?;
            }
        }
        Ok(())
    }
}
