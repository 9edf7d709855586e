ghost use Rattle.std.specs.Prelude.{◌≡◌, ◌≤◌, ◌<◌, Option, Some, None, length, IfOk, MatchResult, slice_get};
ghost use Rattle.scr_pcapng.specs.Blocks.{front_of, order_in};
ghost use Rattle.scr_pcapng.specs.Contents.{number_of};
ghost use Rattle.scr_pcapng.specs.Parts.{captured_of};
ghost use Rattle.scr_pcapng.specs.Reading.{START};

use crate::content::{Content, InterfaceInfo};
use crate::error::NgError;
use crate::head::marked_order;
use crate::kind::Kind;
use crate::progress::Progress;
use scr_pcap::{LIMIT, Order};
use std::alloc::Global;
use std::marker::Model;

/// The most blocks that are taken of a capture.
pub(crate) const BLOCKS: u32 = 4_000_000;

/// The most packets that are taken of a capture.
pub(crate) const PACKETS: u32 = LIMIT;

// The type of a section, as it stands in either order of bytes. A capture in blocks begins with it.
pub(crate) const FIRST: [u8; 4] = [0x0A, 0x0D, 0x0D, 0x0A];

/// Reads the blocks of a capture, one at a time, whose first four bytes were taken ahead.
#[derive(Drop)]
pub struct BlockReader {
    pub(crate) blocks: u32,
    pub(crate) packets: u32,
    pub(crate) order: Order,
    pub(crate) interfaces: Vec<InterfaceInfo>,
    pub(crate) progress: Progress,
}

impl Model for BlockReader {
    ghost use Rattle.std.specs.Prelude.{◌≤◌, ◌<◌, All};
    ghost use Rattle.scr_pcap.specs.Records.{RECORDS};
    ghost use Rattle.scr_pcapng.specs.Blocks.{BLOCKS};
    ghost use Rattle.scr_pcapng.specs.State.{BlockReaderState, HasUnits};

    ghost Value = { BlockReaderState };

    ghost view = { λ reader. record {
      position = record { blocks = reader.blocks; packets = reader.packets; order = reader.order; interfaces = reader.interfaces.items };
      progress = reader.progress;
    } };

    ghost invariant = { λ reader. (reader.blocks ≤ BLOCKS) × (reader.packets ≤ RECORDS) × All HasUnits reader.interfaces.items };
}

impl BlockReader {
    // The number of the next block, from 1.
    pub(crate) fn number(&self) -> u32
        ensures { result ≡ number_of self.now.position }
    {
        self.blocks + 1
    }

    #[cold]
    #[inline(never)]
    pub(crate) fn cut(&self) -> NgError
        ensures { result ≡ NgError.Cut (number_of self.now.position) }
    {
        NgError::Cut {
            block: self.number(),
        }
    }

    #[cold]
    #[inline(never)]
    pub(crate) fn length(&self) -> NgError
        ensures { result ≡ NgError.Length (number_of self.now.position) }
    {
        NgError::Length {
            block: self.number(),
        }
    }

    // The interface with this number, from 0.
    pub(crate) fn interface_at(&self, index: u32) -> Result<InterfaceInfo, NgError>
        ensures there { MatchResult result (λ interface. slice_get self.now.position.interfaces index ≡ Some interface)
            (λ error. (slice_get self.now.position.interfaces index ≡ None) × (error ≡ NgError.Interface (number_of self.now.position))) }
        ensures units { IfOk result (λ interface. 0 < interface.units) }
    {
        match self.interfaces.get(index as usize) {
            Some(interface) => Ok(*interface),
            None => Err(NgError::Interface {
                block: self.number(),
            }),
        }
    }

    // The order of a block of this kind, by its first bytes.
    pub(crate) fn order_in(&self, kind: Kind, bytes: &[u8]) -> Result<Order, NgError>
        requires { front_of kind ≤ length bytes.now }
        ensures { MatchResult result (λ order. order_in self.now.position kind bytes.now ≡ Some order)
            (λ error. (order_in self.now.position kind bytes.now ≡ None) × (error ≡ NgError.Mark (number_of self.now.position))) }
    {
        if kind != Kind::SectionHeader {
            return Ok(self.order);
        }
        marked_order(bytes).ok_or(NgError::Mark {
            block: self.number(),
        })
    }

    // A reader of the first block.
    pub(crate) fn new(alloc: Global) -> Self
        ensures position { result.position ≡ START }
        ensures reading { result.progress ≡ Progress.Reading }
    {
        BlockReader {
            blocks: 0,
            packets: 0,
            order: Order::Little,
            interfaces: Vec::new(alloc),
            progress: Progress::Reading,
        }
    }
}

// How many bytes of a packet follow, where its tests are met.
pub(crate) fn captured_of(content: &Result<Content, NgError>) -> u32
    ensures { result ≡ captured_of content.now }
{
    match content {
        Ok(Content::Packet { captured, .. }) => *captured,
        _ => 0,
    }
}
