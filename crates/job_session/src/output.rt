//! An output in the making: a sink with a buffer before it.
//!
//! The lines of an operation, or of a page's order, are put into the buffer; the buffer goes to the
//! sink whenever it has 64 KiB or more. What is left at the end is sent by whoever made the output.

ghost use Rattle.std.specs.Prelude.{◌≡◌, false, [], ◌∷◌};
ghost use Rattle.plain_disk.specs.Output.{StateLine, ClassLine, ended, is_refusal, op_lines, order_line, memory, calls, device_calls, refused, state, class_of};
ghost use Rattle.job_print.specs.Texts.{why_of, IsStateOf, IsSummary};
ghost use Rattle.job_session.specs.Telling.{OutputState, Tells};

use crate::io::{PIECE, send};
use crate::stop::Stop;
use backing_dev::BdStat;
use job_print::{
    Refusal, put_calls, put_class, put_device, put_memory, put_op, put_order, put_refused,
    put_state,
};
use mem_account::{IoStat, MmStat};
use size_class::ClassStat;
use std::alloc::Global;
use std::marker::Model;
use zr_base::{OpEnd, Sink, Tag};

/// A sink with a buffer before it, and whether some line told of a refusal.
#[derive(Drop)]
pub(crate) struct Output<'a, K: Sink> {
    pub(crate) sink: &'a mut K,
    pub(crate) buffer: Vec<u8>,
    pub(crate) refused: bool,
    alloc: Global,
}

impl<'a, K: Sink> Model for Output<'a, K> {
    ghost use Rattle.job_session.specs.Telling.{OutputState};

    ghost Value = { OutputState };

    ghost view = { λ o. record {
      sent = K.written o.sink.now;
      waits = o.buffer.items;
      refused = o.refused;
      faults = K.fault_count o.sink.now;
      stopped = K.has_stopped o.sink.now;
      loan = o.sink.ghost_name;
    } };
}

fn is_refused(end: OpEnd) -> bool
    ensures { (tag : Tag) → result ≡ is_refusal (ended tag end) }
{
    match end {
        OpEnd::Ok | OpEnd::Marked(_) | OpEnd::Written { .. } | OpEnd::Compacted { .. } => false,
        OpEnd::Range
        | OpEnd::AtLimit { .. }
        | OpEnd::NoMemory { .. }
        | OpEnd::Eio { .. }
        | OpEnd::Budget { .. }
        | OpEnd::NoBlock { .. }
        | OpEnd::NoBacking
        | OpEnd::WriteEio { .. } => true,
    }
}

impl<'a, K: Sink> Output<'a, K> {
    /// An output to the sink, with nothing told.
    pub(crate) fn new(alloc: Global, sink: &'a mut K) -> Output<'a, K>
        ensures { result ≡ record {
          sent = K.written sink.old;
          waits = [];
          refused = false;
          faults = K.fault_count sink.old;
          stopped = K.has_stopped sink.old;
          loan = sink.entry.ghost_name;
        } }
    {
        Output {
            sink,
            buffer: Vec::new(alloc),
            refused: false,
            alloc,
        }
    }

    // Sends what waits, where it is 64 KiB or more.
    fn spill(&mut self) -> Result<(), Stop>
        ensures { Tells self.old self.new result [] }
    {
        if self.buffer.len() < PIECE {
            return Ok(());
        }
        send(self.sink, &self.buffer)?;
        self.buffer.clear();
        Ok(())
    }

    /// Tells how an operation ended, and the sectors that it read.
    pub(crate) fn tell_op(
        &mut self,
        tag: Tag,
        end: OpEnd,
        sectors: &[[u8; 512]],
    ) -> Result<(), Stop>
        ensures { Tells self.old self.new result (op_lines tag end sectors.now) }
    {
        put_op(&mut self.buffer, tag, end, sectors)?;
        self.refused = self.refused | is_refused(end);
        self.spill()
    }

    /// Tells a page's order, where some call stands in it.
    pub(crate) fn tell_order(&mut self, page: u32, order: &[Tag]) -> Result<(), Stop>
        ensures { Tells self.old self.new result (order_line page order.now) }
    {
        put_order(&mut self.buffer, page, order)?;
        self.spill()
    }

    /// Tells the statistics of the memory.
    pub(crate) fn tell_memory(&mut self, stat: &MmStat) -> Result<(), Stop>
        ensures { Tells self.old self.new result (memory stat.now ∷ []) }
    {
        put_memory(&mut self.buffer, stat)?;
        self.spill()
    }

    /// Tells the statistics of what failed, was refused or was discarded.
    pub(crate) fn tell_calls(&mut self, stat: &IoStat) -> Result<(), Stop>
        ensures { Tells self.old self.new result (calls stat.now ∷ []) }
    {
        put_calls(&mut self.buffer, stat)?;
        self.spill()
    }

    /// Tells the statistics of the backing device.
    pub(crate) fn tell_device(&mut self, stat: &BdStat) -> Result<(), Stop>
        ensures { Tells self.old self.new result (device_calls stat.now ∷ []) }
    {
        put_device(&mut self.buffer, stat)?;
        self.spill()
    }

    /// Tells why an attribute is refused.
    pub(crate) fn tell_refused(&mut self, refusal: Refusal) -> Result<(), Stop>
        ensures { Tells self.old self.new result (refused (why_of refusal) ∷ []) }
    {
        put_refused(&mut self.buffer, refusal)?;
        self.refused = true;
        self.spill()
    }

    /// Tells the letters of a page that isn't empty, and when it was touched.
    pub(crate) fn tell_state(
        &mut self,
        page: u32,
        letters: &[u8; 4],
        touched: u64,
    ) -> Result<(), Stop>
        ensures { (s : StateLine) → IsStateOf s page letters.now touched
            → Tells self.old self.new result (state s ∷ []) }
    {
        put_state(&mut self.buffer, page, letters, touched)?;
        self.spill()
    }

    /// Tells the statistics of a class that has zspages.
    pub(crate) fn tell_class(&mut self, stat: &ClassStat) -> Result<(), Stop>
        ensures { (c : ClassLine) → IsSummary c stat.now
            → Tells self.old self.new result (class_of c ∷ []) }
    {
        put_class(&mut self.buffer, stat)?;
        self.spill()
    }
}
