ghost use Rattle.std.specs.Prelude.{◌≡◌, ◌≤◌, ◌<◌, ◌+◌, ℕ, length, true, IfOk, slice_get};
ghost use Rattle.scr_pcap.specs.Header.{number_at};
ghost use Rattle.scr_pcapng.specs.Blocks.{head_of, is_total};
ghost use Rattle.scr_pcapng.specs.Contents.{IsAccepted, IsPlaced, content_by, cut_to, enhanced_behind, enhanced_on, interface_with, number_of, packet_on, section_in, simple_on};

use crate::content::{Content, InterfaceInfo};
use crate::error::NgError;
use crate::head::Head;
use crate::kind::Kind;
use crate::padding::padded;
use crate::reader::{BlockReader, PACKETS};
use crate::units::{MICROSECONDS, is_beyond, microseconds, units_of};
use scr_pcap::LONGEST;

// The link type of Ethernet, whose frames are read.
const ETHERNET: u16 = 1;

// How much of a packet is captured where its block doesn't say it.
fn cut_to(snap: u32, original: u32) -> u32
    ensures { result ≡ cut_to snap original }
{
    if snap == 0 {
        original
    } else {
        original.min(snap)
    }
}

impl BlockReader {
    // What a block tells, by its head and, of an interface, by the value that tells its unit; or the first test of its
    // content that fails.
    #[tactic(auto, unfolding(crate::specs::Contents::content_by))]
    pub(crate) fn content(&self, head: &Head, unit: Option<u8>) -> Result<Content, NgError>
        requires { is_total head.now.kind head.now.total ≡ true }
        ensures told { result ≡ content_by self.now.position head.now.kind head.now.order head.now.total head.now.bytes unit }
        ensures placed { IfOk result (IsPlaced (head_of head.now.kind) head.now.total) }
        ensures accepted { IfOk result (IsAccepted self.now.position) }
    {
        match head.kind {
            Kind::SectionHeader => self.section(head),
            Kind::InterfaceDescription => self.interface(head, unit),
            Kind::SimplePacket => self.simple(head),
            Kind::EnhancedPacket => self.enhanced(head),
            Kind::Other => Ok(Content::Passed),
        }
    }

    fn section(&self, head: &Head) -> Result<Content, NgError>
        ensures told { result ≡ section_in self.now.position head.now.order head.now.bytes }
        ensures placed { IfOk result (IsPlaced (head_of head.now.kind) head.now.total) }
        ensures accepted { IfOk result (IsAccepted self.now.position) }
    {
        if head.order.u16_at(&head.bytes, 12) != 1 {
            return Err(NgError::Version {
                block: self.number(),
            });
        }
        Ok(Content::NewSection(head.order))
    }

    fn interface(&self, head: &Head, unit: Option<u8>) -> Result<Content, NgError>
        ensures told { result ≡ interface_with self.now.position head.now.order head.now.bytes unit }
        ensures placed { IfOk result (IsPlaced (head_of head.now.kind) head.now.total) }
        ensures accepted { IfOk result (IsAccepted self.now.position) }
    {
        let units = match unit {
            None => MICROSECONDS,
            Some(value) if is_beyond(value) => {
                return Err(NgError::Resolution {
                    block: self.number(),
                });
            }
            Some(value) => units_of(value),
        };
        Ok(Content::NewInterface(InterfaceInfo {
            link_type: head.order.u16_at(&head.bytes, 8),
            snap: head.order.u32_at(&head.bytes, 12),
            units,
        }))
    }

    // A packet whose block doesn't say its interface, its time and how much of it was captured.
    fn simple(&self, head: &Head) -> Result<Content, NgError>
        requires size { 16 ≤ head.now.total }
        ensures told { result ≡ simple_on self.now.position head.now.order head.now.total head.now.bytes (slice_get self.now.position.interfaces 0) }
        ensures placed { IfOk result (IsPlaced 12 head.now.total) }
        ensures accepted { IfOk result (IsAccepted self.now.position) }
    {
        let interface = self.interface_at(0)?;
        let original = head.order.u32_at(&head.bytes, 8);
        let captured = cut_to(interface.snap, original);
        self.packet_on(interface, 0, captured, 12, head.total - 16)
    }

    // An enhanced packet, by the bytes of its block behind the total length.
    #[inline(always)]
    pub(crate) fn enhanced_behind(&self, rest: &[u8], total: u32) -> Result<Content, NgError>
        requires size { 32 ≤ total }
        requires enough { 24 ≤ length rest.now }
        ensures told { result ≡ enhanced_behind self.now.position total rest.now
            (slice_get self.now.position.interfaces (number_at self.now.position.order 0 4 rest.now)) }
        ensures placed { IfOk result (IsPlaced 28 total) }
        ensures accepted { IfOk result (IsAccepted self.now.position) }
    {
        let interface = self.interface_at(self.order.u32_at(rest, 0))?;
        let high = self.order.u32_at(rest, 4);
        let low = self.order.u32_at(rest, 8);
        let time = (u64::from(high) << 32) + u64::from(low);
        let captured = self.order.u32_at(rest, 12);
        self.packet_on(
            interface,
            microseconds(interface.units, time),
            captured,
            28,
            total - 32,
        )
    }

    fn enhanced(&self, head: &Head) -> Result<Content, NgError>
        requires size { 32 ≤ head.now.total }
        ensures told { result ≡ enhanced_on self.now.position head.now.order head.now.total head.now.bytes
            (slice_get self.now.position.interfaces (number_at head.now.order 8 4 head.now.bytes)) }
        ensures placed { IfOk result (IsPlaced 28 head.now.total) }
        ensures accepted { IfOk result (IsAccepted self.now.position) }
    {
        let interface = self.interface_at(head.order.u32_at(&head.bytes, 8))?;
        let high = head.order.u32_at(&head.bytes, 12);
        let low = head.order.u32_at(&head.bytes, 16);
        let time = (u64::from(high) << 32) + u64::from(low);
        let captured = head.order.u32_at(&head.bytes, 20);
        self.packet_on(
            interface,
            microseconds(interface.units, time),
            captured,
            28,
            head.total - 32,
        )
    }

    // A packet of this interface, with room for so many bytes from a place on.
    #[inline(always)]
    #[tactic(auto, unfolding(crate::specs::Contents::packet_on))]
    fn packet_on(
        &self,
        interface: InterfaceInfo,
        time: u64,
        captured: u32,
        place: u32,
        room: u32,
    ) -> Result<Content, NgError>
        ensures told { result ≡ packet_on self.now.position interface time captured place room }
        ensures placed { IfOk result (IsPlaced place (place + room + 4)) }
        ensures accepted { IfOk result (IsAccepted self.now.position) }
    {
        if captured as usize > LONGEST || padded(captured) > room {
            return Err(NgError::Captured {
                block: self.number(),
                length: captured,
            });
        }
        if interface.link_type != ETHERNET {
            return Err(NgError::LinkType {
                block: self.number(),
            });
        }
        if self.packets == PACKETS {
            return Err(NgError::TooMany { limit: PACKETS });
        }
        Ok(Content::Packet {
            time,
            place,
            captured,
        })
    }
}
