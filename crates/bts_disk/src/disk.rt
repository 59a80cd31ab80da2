// A disk: what it reads, what a crash may leave, and how often it failed.
ghost use Rattle.std.specs.Prelude.{◌≡◌, ◌≤◌, ◌+◌, ◌^◌, ℕ, Some, List, Option, IfOk, OnOk, OnErr, IfSome, length, slice_range};
ghost use Rattle.std.specs.Option.{option_map};
ghost use Rattle.bts_io.specs.Faults.{HasCause, last_count, next_count};
ghost use Rattle.bts_disk.specs.Disks.{written, Torn, Follows, Only, SameImages, Elapses, EndsAtLast, TellsAsBefore};

use thiserror::Error;

/// The disk failed.
#[derive(Clone, Copy, Debug, PartialEq, Eq, Error)]
#[error("the disk failed")]
pub struct DiskFail;

/// Bytes by their offsets, which outlast a crash from a sync on.
///
/// A crash may come at any moment, inside a call too. What it may leave is an image. Between two syncs that
/// succeeded each written range, and what lies past the old end, may hold any bytes in an image, its length
/// is between the old and the new one, and bytes outside stay. A disk that tells nothing of its bytes has
/// None for its content and no image.
///
/// `len`, `read`, `write_at` and `sync` are the device calls, and each counts as one, also where it fails.
pub trait Disk {
    /// What a read gives, where the disk tells it.
    ghost content: { Self → Option (List ℕ) };

    /// What a crash now may leave.
    ghost may_leave: { Self → List ℕ → Type 0 };

    /// What a crash at some moment from that one on may have left.
    ghost left_since: { Self → ℕ → List ℕ → Type 0 };

    /// The moment: a number that doesn't fall. At 2^64 - 1, its last value, every call fails.
    ghost moment: { Self → ℕ };

    /// How often the disk has failed, up to 2^64 - 1.
    ghost faults: { Self → ℕ };

    /// How many of the four device calls there were, up to 2^64 - 1.
    ghost calls: { Self → ℕ };

    /// The length of the content.
    fn len(&mut self) -> Result<u64, DiskFail>
        ensures length { IfOk result (λ n. IfSome (content self.old) (λ c. n ≡ length c)) }
        ensures content { content self.new ≡ content self.old }
        ensures images { SameImages (may_leave self.old) (may_leave self.new) }
        ensures time { Elapses (moment self.old) (moment self.new) (left_since self.old) (left_since self.new) (may_leave self.old) (may_leave self.new) }
        ensures cause { HasCause (faults self.old) (faults self.new) result }
        ensures last { EndsAtLast (moment self.old) (moment self.new) (faults self.new) result }
        ensures calls { calls self.new ≡ next_count (calls self.old) };

    /// Fills `into` with the content from the offset `at` on. The caller owes that it reaches so far.
    fn read(&mut self, at: u64, into: &mut [u8]) -> Result<(), DiskFail>
        requires { IfSome (content self.old) (λ c. at + length into.old ≤ length c) }
        ensures filled { OnOk result (IfSome (content self.old) (λ c. into.new ≡ slice_range c at (at + length into.old))) }
        ensures content { content self.new ≡ content self.old }
        ensures images { SameImages (may_leave self.old) (may_leave self.new) }
        ensures time { Elapses (moment self.old) (moment self.new) (left_since self.old) (left_since self.new) (may_leave self.old) (may_leave self.new) }
        ensures cause { HasCause (faults self.old) (faults self.new) result }
        ensures last { EndsAtLast (moment self.old) (moment self.new) (faults self.new) result }
        ensures calls { calls self.new ≡ next_count (calls self.old) };

    /// Puts the bytes at the offset `at`, and grows the content where they reach past its end. The caller
    /// owes that `at` isn't past it. A write that failed may have left anything in its range, and the length
    /// anywhere between the old and the new one; the bytes outside of the range are as they were.
    fn write_at(&mut self, at: u64, bytes: &[u8]) -> Result<(), DiskFail>
        requires place { IfSome (content self.old) (λ c. at ≤ length c) }
        requires room { at + length bytes.now ≤ 2 ^ 63 }
        ensures written { OnOk result (content self.new ≡ option_map (written at bytes.now) (content self.old)) }
        ensures torn { IfSome (content self.old) (λ c. IfSome (content self.new) (λ d. Torn at (length bytes.now) c d)) }
        ensures told { TellsAsBefore (content self.old) (content self.new) }
        ensures images { Follows (Torn at (length bytes.now)) (may_leave self.old) (may_leave self.new) }
        ensures time { Elapses (moment self.old) (moment self.new) (left_since self.old) (left_since self.new) (may_leave self.old) (may_leave self.new) }
        ensures cause { HasCause (faults self.old) (faults self.new) result }
        ensures last { EndsAtLast (moment self.old) (moment self.new) (faults self.new) result }
        ensures calls { calls self.new ≡ next_count (calls self.old) }
        ensures last_content { moment self.old ≡ last_count → content self.new ≡ content self.old }
        ensures last_images { moment self.old ≡ last_count → SameImages (may_leave self.old) (may_leave self.new) };

    /// Where it succeeds the content is the one image, and else the images are as before.
    fn sync(&mut self) -> Result<(), DiskFail>
        ensures durable { OnOk result (IfSome (content self.old) (λ c. Only c (may_leave self.new))) }
        ensures failed { OnErr result (SameImages (may_leave self.old) (may_leave self.new)) }
        ensures content { content self.new ≡ content self.old }
        ensures images { (c : List ℕ) → may_leave self.new c → may_leave self.old c }
        ensures time { Elapses (moment self.old) (moment self.new) (left_since self.old) (left_since self.new) (may_leave self.old) (may_leave self.new) }
        ensures cause { HasCause (faults self.old) (faults self.new) result }
        ensures last { EndsAtLast (moment self.old) (moment self.new) (faults self.new) result }
        ensures calls { calls self.new ≡ next_count (calls self.old) };

    /// The disk's moment. It isn't a device call, is counted by nothing, never fails and takes no memory.
    fn device_moment(&self) -> u64
        ensures { result ≡ moment self.now };

    /// The disk as it reads is one of its images.
    ghost shows: { (disk : Self) → IfSome (content disk) (λ c. may_leave disk c) };

    /// An image now is one since each moment that has come.
    ghost counts_now: { (disk : Self) (t : ℕ) (c : List ℕ) → t ≤ moment disk → may_leave disk c → left_since disk t c };

    /// The images since the present moment are the images now.
    ghost only_now: { (disk : Self) (c : List ℕ) → left_since disk (moment disk) c → may_leave disk c };
}
