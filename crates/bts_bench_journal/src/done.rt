// What was done.
ghost use Rattle.std.specs.Prelude.{◌≡◌};

use std::fmt;

/// How many units were gone over, how many calls they had, and how many bytes their payloads or their file.
#[derive(Clone, Copy, Debug, PartialEq, Eq)]
pub struct Done {
    pub units: u64,
    pub calls: u64,
    pub bytes: u64,
}

impl Done {
    pub fn nothing() -> Done
        ensures { result ≡ record { units = 0; calls = 0; bytes = 0 } }
    {
        Done {
            units: 0,
            calls: 0,
            bytes: 0,
        }
    }

    /// Counts one more unit of so many calls.
    pub fn count_unit(&mut self, calls: usize) {
        self.units = self.units.saturating_add(1);
        self.calls = self.calls.saturating_add(calls as u64);
    }

    pub fn count_bytes(&mut self, bytes: u64) {
        self.bytes = self.bytes.saturating_add(bytes);
    }
}

impl fmt::Display for Done {
    fn fmt<W: fmt::Write>(&self, f: &mut fmt::Formatter<W>) -> fmt::Result {
        let Done {
            units,
            calls,
            bytes,
        } = self;
        write!(f, "{units} units, {calls} calls, {bytes} bytes")
    }
}
