//! The number that a process has read in a world.
ghost use Rattle.std.specs.Prelude.{◌≡◌};
ghost use Rattle.laws.specs.{doing};
ghost use Rattle.process.specs.{number_read};
ghost use Rattle.world.specs.Events.{InEachPast};

use super::World;

impl World {
    /// Returns the number that a process has read so far of the register that it reads; 0 if it reads no register or an
    /// image. It is never inlined: the compiler then sees that its caller writes the caller's result on every path, and does
    /// not fill the space of that result before.
    #[inline(never)]
    pub fn number_read(&self, process: u8) -> u32
        ensures { InEachPast self.now (λ s past. result ≡ number_read (doing s process past)) }
    {
        self.core.number_read(process)
    }
}
