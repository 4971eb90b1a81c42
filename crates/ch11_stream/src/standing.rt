//! Where a reading of a recording stands.
ghost use Rattle.ch11_header.specs.HeaderReading.{body_start};
ghost use Rattle.ch11_header.specs.declared.header.Header.{Header as HeaderValue};
ghost use Rattle.ch11_reader.specs.Contents.{total_in};
ghost use Rattle.ch11_reader.specs.Listing.{listed_behind};
ghost use Rattle.ch11_reader.specs.Recording.{packet_messages};
ghost use Rattle.ch11_stream.specs.Holding.{given_of, held_of};
ghost use Rattle.ch11_stream.specs.Listed.{found_at};
ghost use Rattle.ch11_stream.specs.declared.fault.StreamFault.TheVariants.{Memory};
ghost use Rattle.std.specs.Prelude.{◌≡◌, ◌+◌, ◌<◌, ◌≤◌, ◌^◌, [], ◌∷◌, length, take, drop};
ghost use Rattle.std.specs.Prelude.{None, Some, IfOk, IfErr, OnOk};

use crate::buffer::Buffer;
use crate::fault::StreamFault;
use crate::listed::Listed;
use ch11_f1::Messages;
use ch11_header::Header;
use ch11_reader::{Checked, Packet, messages_of_packet};
use std::alloc::{AllocError, Global};

/// Where a reading stands: its offset is that of the bytes behind the last packet, which are to come.
#[derive(Drop)]
pub(crate) struct Standing {
    /// The bytes that are ready, those of the last packet first.
    pub buffer: Buffer,

    /// What is known of the packets so far.
    pub listed: Listed,

    /// The header of the packet that was read last, where its bytes are ready.
    pub last: Option<Header>,

    /// In bytes from the start of the file.
    pub offset: usize,

    /// What is answered from then on.
    pub fault: Option<StreamFault>,
}

impl Standing {
    /// At the start of a file.
    pub(crate) fn at_start(alloc: Global) -> Result<Standing, AllocError>
        ensures ready { IfOk result (λ s. s.buffer.ready ≡ []) }
        ensures listed { IfOk result (λ s. s.listed ≡ []) }
        ensures last { IfOk result (λ s. s.last ≡ None) }
        ensures offset { IfOk result (λ s. s.offset ≡ 0) }
        ensures fault { IfOk result (λ s. s.fault ≡ None) }
    {
        let listed = Listed::none(alloc)?;
        Ok(Standing {
            buffer: Buffer::none(alloc),
            listed,
            last: None,
            offset: 0,
            fault: None,
        })
    }

    /// Enters the packet that was taken, which becomes the last one under this header, if its bytes are ready. Answers
    /// what there is to tell of it; want of memory is what is answered from then on.
    pub(crate) fn enter(
        &mut self,
        checked: Checked,
        last: Option<Header>,
    ) -> Result<Packet, StreamFault>
        requires count { checked.count ≡ length (packet_messages checked.header self.old.buffer.ready) }
        requires few { total_in self.old.listed + checked.count < 2 ^ 64 }
        requires offset { self.old.offset + checked.header.packet_length < 2 ^ 64 }
        ensures listed { IfOk result (λ packet. packet
            ≡ listed_behind self.old.listed (found_at self.old.offset checked.header self.old.buffer.ready)) }
        ensures entered { OnOk result (self.new ≡ record self.old {
          listed = found_at self.old.offset checked.header self.old.buffer.ready ∷ self.old.listed;
          last = last;
          offset = self.old.offset + checked.header.packet_length;
        }) }
        ensures failed { IfErr result (λ e. (e ≡ Memory) × (self.new ≡ record self.old { fault = Some Memory })) }
    {
        match self.listed.enter(self.offset, checked, &self.buffer) {
            Ok(packet) => {
                self.offset += checked.header.packet_length as usize;
                self.last = last;
                Ok(packet)
            }
            Err(_) => Err(self.fail(StreamFault::Memory)),
        }
    }

    /// Keeps a fault, which is what is answered from then on.
    pub(crate) fn fail(&mut self, fault: StreamFault) -> StreamFault
        ensures kept { self.new ≡ record self.old { fault = Some fault } }
        ensures same { result ≡ fault }
    {
        self.fault = Some(fault);
        fault
    }

    /// Lets the bytes of the last packet go: no packet is the last one then. Condition: they are ready.
    pub(crate) fn let_go(&mut self)
        requires { held_of self.old.last ≤ length self.old.buffer.ready }
        ensures ready { self.new.buffer.ready ≡ drop (held_of self.old.last) self.old.buffer.ready }
        ensures listed { self.new.listed ≡ self.old.listed }
        ensures last { self.new.last ≡ None }
        ensures offset { self.new.offset ≡ self.old.offset }
        ensures fault { self.new.fault ≡ self.old.fault }
    {
        let held = self.held();
        self.buffer.pass(held);
        self.last = None;
    }

    /// How many of the bytes that are ready are the last packet's.
    fn held(&self) -> usize
        ensures { result ≡ held_of self.now.last }
    {
        match &self.last {
            Some(header) => header.packet_length as usize,
            None => 0,
        }
    }

    /// The bytes of the last packet. Condition: they are ready.
    pub(crate) fn bytes(&self) -> &[u8]
        requires { held_of self.now.last ≤ length self.now.buffer.ready }
        ensures { result.now ≡ take (held_of self.now.last) self.now.buffer.ready }
    {
        &self.buffer.ready()[..self.held()]
    }

    /// The messages of the last packet, in the file's order. Condition: its body lies in the bytes that are ready.
    pub(crate) fn messages(&self) -> Messages<'_>
        requires whole { held_of self.now.last ≤ length self.now.buffer.ready }
        requires room { (h : HeaderValue) → self.now.last ≡ Some h → body_start h + h.data_length ≤ h.packet_length }
        ensures { result ≡ given_of self.now.last self.now.buffer.ready }
    {
        match &self.last {
            Some(header) => messages_of_packet(self.buffer.ready(), header),
            None => Messages::none(),
        }
    }
}
