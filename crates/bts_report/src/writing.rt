// Reports that are written as they are made.
ghost use Rattle.std.specs.Prelude.{◌≡◌, ◌≤◌, [], ◌++◌, OnOk, IsErrOf};
ghost use Rattle.std.specs.List.{flat_map};
ghost use Rattle.std.specs.Io.KnownBytes.{Appends};
ghost use Rattle.bts_io.specs.Faults.{Rose};
ghost use Rattle.bts_io.specs.Streams.{AppendsFront};
ghost use Rattle.bts_report.specs.Reports.{call_line, report, row_line, unit_line, unit_text};
ghost use Rattle.bts_report.specs.Writing.{IsHeldBack};

use crate::lines::{add_call, add_row_line, add_unit_line};
use bts_command::{Call, Ended};
use bts_io::{Sink, write_all};
use bts_names::{Blob, Row};
use std::alloc::Global;
use std::marker::Model;
use thiserror::Error;

/// Why a report isn't told whole.
#[derive(Clone, Copy, Debug, PartialEq, Eq, Error)]
pub enum TellError {
    #[error("the sink failed")]
    Sink,
    #[error("no memory")]
    NoMemory,
}

/// The bytes that are written at once, but for those of the last line.
const ENOUGH: usize = 65_536;

/// Lines that are held back until there are enough of them.
#[derive(Debug, Drop)]
struct Writer {
    alloc: Global,
    held_back: Blob,
}

impl Model for Writer {
    ghost use Rattle.std.specs.Prelude.{ℕ, List};

    ghost Value = { List ℕ };

    ghost view = { λ w. w.held_back };
}

impl Writer {
    fn new(alloc: Global) -> Self
        ensures { result ≡ [] }
    {
        Writer {
            alloc,
            held_back: Blob::new(alloc),
        }
    }

    /// Writes all that is held back.
    fn write_out<K: Sink>(&mut self, sink: &mut K) -> Result<(), TellError>
        ensures ok { OnOk result (Appends (K.held sink.old) (K.held sink.new) self.old) }
        ensures empty { OnOk result (self.new ≡ []) }
        ensures front { AppendsFront (K.held sink.old) (K.held sink.new) self.old }
        ensures cause { IsErrOf result TellError.Sink → Rose (K.faults sink.old) (K.faults sink.new) }
        ensures later { K.faults sink.old ≤ K.faults sink.new }
    {
        match write_all(sink, self.held_back.as_slice()) {
            Ok(()) => {
                self.held_back = Blob::new(self.alloc);
                Ok(())
            }
            Err(_) => Err(TellError::Sink),
        }
    }

    /// Writes what is held back, where it is enough.
    fn write_enough<K: Sink>(&mut self, sink: &mut K) -> Result<(), TellError>
        ensures ok { OnOk result (IsHeldBack (K.held sink.old) (K.held sink.new) self.new self.old) }
        ensures front { AppendsFront (K.held sink.old) (K.held sink.new) self.old }
        ensures cause { IsErrOf result TellError.Sink → Rose (K.faults sink.old) (K.faults sink.new) }
        ensures later { K.faults sink.old ≤ K.faults sink.new }
    {
        if self.held_back.len() < ENOUGH {
            return Ok(());
        }
        self.write_out(sink)
    }

    fn write_unit_line<K: Sink>(
        &mut self,
        sink: &mut K,
        n: u64,
        ended: &Ended,
    ) -> Result<(), TellError>
        ensures ok { OnOk result (IsHeldBack (K.held sink.old) (K.held sink.new) self.new
            (self.old ++ unit_line n ended.now)) }
        ensures front { AppendsFront (K.held sink.old) (K.held sink.new) (self.old ++ unit_line n ended.now) }
        ensures cause { IsErrOf result TellError.Sink → Rose (K.faults sink.old) (K.faults sink.new) }
        ensures later { K.faults sink.old ≤ K.faults sink.new }
    {
        if add_unit_line(self.alloc, &mut self.held_back, n, ended).is_err() {
            return Err(TellError::NoMemory);
        }
        self.write_enough(sink)
    }

    fn write_call<K: Sink>(&mut self, sink: &mut K, call: &Call) -> Result<(), TellError>
        ensures ok { OnOk result (IsHeldBack (K.held sink.old) (K.held sink.new) self.new
            (self.old ++ call_line call.now)) }
        ensures front { AppendsFront (K.held sink.old) (K.held sink.new) (self.old ++ call_line call.now) }
        ensures cause { IsErrOf result TellError.Sink → Rose (K.faults sink.old) (K.faults sink.new) }
        ensures later { K.faults sink.old ≤ K.faults sink.new }
    {
        if add_call(&mut self.held_back, call).is_err() {
            return Err(TellError::NoMemory);
        }
        self.write_enough(sink)
    }

    fn write_row<K: Sink>(&mut self, sink: &mut K, row: &Row) -> Result<(), TellError>
        ensures ok { OnOk result (IsHeldBack (K.held sink.old) (K.held sink.new) self.new
            (self.old ++ row_line row.now)) }
        ensures front { AppendsFront (K.held sink.old) (K.held sink.new) (self.old ++ row_line row.now) }
        ensures cause { IsErrOf result TellError.Sink → Rose (K.faults sink.old) (K.faults sink.new) }
        ensures later { K.faults sink.old ≤ K.faults sink.new }
    {
        if add_row_line(&mut self.held_back, row).is_err() {
            return Err(TellError::NoMemory);
        }
        self.write_enough(sink)
    }

    fn write_calls<K: Sink>(&mut self, sink: &mut K, calls: &[Call]) -> Result<(), TellError>
        ensures ok { OnOk result (IsHeldBack (K.held sink.old) (K.held sink.new) self.new
            (self.old ++ flat_map call_line calls.now)) }
        ensures front { AppendsFront (K.held sink.old) (K.held sink.new) (self.old ++ flat_map call_line calls.now) }
        ensures cause { IsErrOf result TellError.Sink → Rose (K.faults sink.old) (K.faults sink.new) }
        ensures later { K.faults sink.old ≤ K.faults sink.new }
    {
        for call in calls {
            self.write_call(sink, call)?;
        }
        Ok(())
    }

    fn write_rows<K: Sink>(&mut self, sink: &mut K, rows: &[Row]) -> Result<(), TellError>
        ensures ok { OnOk result (IsHeldBack (K.held sink.old) (K.held sink.new) self.new
            (self.old ++ flat_map row_line rows.now)) }
        ensures front { AppendsFront (K.held sink.old) (K.held sink.new) (self.old ++ flat_map row_line rows.now) }
        ensures cause { IsErrOf result TellError.Sink → Rose (K.faults sink.old) (K.faults sink.new) }
        ensures later { K.faults sink.old ≤ K.faults sink.new }
    {
        for row in rows {
            self.write_row(sink, row)?;
        }
        Ok(())
    }

    #[tactic(auto, unfolding(crate::specs::Reports::unit_text))]
    fn write_unit<K: Sink>(&mut self, sink: &mut K, n: u64, ended: &Ended) -> Result<(), TellError>
        ensures ok { OnOk result (IsHeldBack (K.held sink.old) (K.held sink.new) self.new
            (self.old ++ unit_text (n, ended.now))) }
        ensures front { AppendsFront (K.held sink.old) (K.held sink.new) (self.old ++ unit_text (n, ended.now)) }
        ensures cause { IsErrOf result TellError.Sink → Rose (K.faults sink.old) (K.faults sink.new) }
        ensures later { K.faults sink.old ≤ K.faults sink.new }
    {
        self.write_unit_line(sink, n, ended)?;
        self.write_calls(sink, ended.calls.as_slice())?;
        self.write_rows(sink, ended.rows.as_slice())
    }
}

/// Writes the report of units of work that have ended, as it is made: what is held back of it never grows
/// with the history. Where the sink fails or there is no memory, the sink holds a front of the report, which
/// may be empty.
pub fn write_report<K: Sink>(
    alloc: Global,
    sink: &mut K,
    history: &[Ended],
) -> Result<(), TellError>
    ensures ok { OnOk result (Appends (K.held sink.old) (K.held sink.new) (report history.now)) }
    ensures front { AppendsFront (K.held sink.old) (K.held sink.new) (report history.now) }
    ensures cause { IsErrOf result TellError.Sink → Rose (K.faults sink.old) (K.faults sink.new) }
    ensures later { K.faults sink.old ≤ K.faults sink.new }
{
    let mut writer = Writer::new(alloc);
    let mut n = 1;
    for ended in history {
        writer.write_unit(sink, n, ended)?;
        n += 1;
    }
    writer.write_out(sink)
}
