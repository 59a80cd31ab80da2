//! Worked examples: what commands answer and leave, which processes are sound, and what is printed, computed from the
//! definitions alone. Nothing stands on this crate; it is here so that a change of a definition is seen in seconds, as
//! an example that doesn't compute any more.
//!
//! The examples are in `proofs/`. One of commands is a table: the frame, the moment and the process before, a line for
//! each command with its reply, and the process behind them (`Plays` in `Tables`). `Composites`, `Timers`,
//! `Containers` and `Families` have those by subject; `Processes` and `Repositories` compute what becomes of trees and
//! what is enabled; `Sound` has a process that is sound, and others that aren't, each for one reason. `Lines`, `Blocks`,
//! `Sessions` and `BadLines` compute what lines, blocks of scripts and sessions say, and why lines are refused.
//! `Reports` has reports and lists, byte for byte. `Units` has whole units of work: how their frames end, what stands
//! behind them, and the account of their entries.
//!
//! `Steps` computes the next command of a script. `Runs` computes the serial history of a session from its text, and what
//! is printed of it: `EndingRuns`, `EventRuns` and `FamilyRuns` are sessions with their reports, byte for byte, and
//! `Limits` is about what may be used. `Legal` has a history that is the serial one, one that is legal in another order,
//! and one that isn't legal.
#![tactic(auto)]
