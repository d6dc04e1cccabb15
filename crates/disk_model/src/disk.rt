// A file of bytes that is written in place, and that a crash may leave in one of several states.
ghost use Rattle.std.specs.Prelude.{◌≡◌, ◌⊎◌, ◌+◌, ◌<◌, ◌≤◌, ◌^◌, List, ℕ, length, take, slice_range, IfOk, OnOk, OnErr};
ghost use Rattle.disk_model.specs.Disk.{History, IsImage, latest, overwritten, after_write, after_cut, Rests, Changes, Syncs};
ghost use Rattle.disk_model.specs.Faults.{HasCause};

use crate::Failed;

/// An open file. Places and lengths are below 2^63.
pub trait Disk {
    /// Where this holds, the disk tells its content.
    ghost tells_content: { Type 0 };

    /// Where this holds, it tells what a crash may leave too.
    ghost tells_images: { Type 0 };

    /// What reads give.
    ghost content: { Self → List ℕ };

    /// Its state at each moment so far.
    ghost history: { Self → History };

    /// How often it has failed.
    ghost faults: { Self → ℕ };

    fn len(&mut self) -> Result<u64, Failed>
        ensures length { tells_content → IfOk result (λ len. len ≡ length (content self.old)) }
        ensures content { tells_content → content self.new ≡ content self.old }
        ensures images { tells_images → Rests (history self.old) (history self.new) }
        ensures cause { HasCause (faults self.old) (faults self.new) result };

    fn read_at(&mut self, at: u64, buf: &mut [u8]) -> Result<(), Failed>
        requires places { at + length buf.old < 2 ^ 63 }
        requires within { tells_content → at + length buf.old ≤ length (content self.old) }
        ensures bytes { tells_content → OnOk result (buf.new ≡ slice_range (content self.old) at (at + length buf.old)) }
        ensures content { tells_content → content self.new ≡ content self.old }
        ensures images { tells_images → Rests (history self.old) (history self.new) }
        ensures cause { HasCause (faults self.old) (faults self.new) result };

    /// Writes over what is there, and past the end.
    fn write_at(&mut self, at: u64, piece: &[u8]) -> Result<(), Failed>
        requires places { at + length piece.now < 2 ^ 63 }
        requires within { tells_content → at ≤ length (content self.old) }
        ensures written { tells_content → OnOk result (content self.new ≡ overwritten (content self.old) at piece.now) }
        ensures not_written { tells_content → OnErr result ((content self.new ≡ content self.old) ⊎ (content self.new ≡ overwritten (content self.old) at piece.now)) }
        ensures images { tells_images → Changes (history self.old) (history self.new) (after_write (latest (history self.old)) at piece.now) result }
        ensures cause { HasCause (faults self.old) (faults self.new) result };

    /// Cuts the file to a length.
    fn cut(&mut self, len: u64) -> Result<(), Failed>
        requires places { len < 2 ^ 63 }
        requires within { tells_content → len ≤ length (content self.old) }
        ensures cut { tells_content → OnOk result (content self.new ≡ take len (content self.old)) }
        ensures not_cut { tells_content → OnErr result ((content self.new ≡ content self.old) ⊎ (content self.new ≡ take len (content self.old))) }
        ensures images { tells_images → Changes (history self.old) (history self.new) (after_cut (latest (history self.old)) len) result }
        ensures cause { HasCause (faults self.old) (faults self.new) result };

    /// After it, a crash leaves what reads give.
    fn sync(&mut self) -> Result<(), Failed>
        ensures content { tells_content → content self.new ≡ content self.old }
        ensures images { tells_images → Syncs (history self.old) (history self.new) result }
        ensures cause { HasCause (faults self.old) (faults self.new) result };

    ghost tells_both: { tells_images → tells_content };

    /// The content is what the latest state says.
    ghost content_is_now: { (disk : Self) → tells_images → content disk ≡ (latest (history disk)).now };

    /// The content is one of the images.
    ghost content_is_image: { (disk : Self) → tells_images → IsImage (latest (history disk)) (content disk) };
}
