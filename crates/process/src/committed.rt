//! The committed store with the greatest stamp, read from the memory.
ghost use Rattle.std.specs.Prelude.{◌≡◌, ◌<◌, Ok};
ghost use Rattle.plain_store.specs.{checked};
ghost use Rattle.registers.specs.{AreOf};
ghost use Rattle.process.specs.Newest.{newest_store, version_in};

use crate::access_request::stamp_field;
use crate::image::image_read;
use crate::newest_version::NewestVersion;
use model::Field;
use plain_store::Setup;
use registers::{BitMemory, RegisterName};
use store_image::Image;

/// Returns the store of the committed image with the greatest stamp, of the lowest process on a tie. It reads the copies
/// of reader 0 and makes no access. If the bytes are not an image, it returns the empty store.
pub fn newest(memory: &BitMemory, setup: &Setup) -> Image
    requires good { checked setup.now ≡ Ok tt }
    requires memory { AreOf setup.now memory.now }
    ensures { result ≡ newest_store setup.now memory.now }
{
    let mut newest = NewestVersion::none();
    for process in 0..setup.processes {
        newest = newest.with(process, version_held(memory, setup, process));
    }
    let bytes = memory.bytes_held(setup, newest.image());
    image_read(setup, &bytes)
}

/// Returns the version that a process has committed: its commit bit, and the stamp that this bit chooses.
fn version_held(memory: &BitMemory, setup: &Setup, process: u8) -> (bool, u32)
    requires good { checked setup.now ≡ Ok tt }
    requires memory { AreOf setup.now memory.now }
    requires process { process < setup.now.processes }
    ensures { result ≡ version_in setup.now memory.now process }
{
    let commit_bit = RegisterName {
        owner: process,
        field: Field::Commit,
    };
    let commit = memory.number_held(setup, commit_bit) == 1;
    let stamp = RegisterName {
        owner: process,
        field: stamp_field(commit),
    };
    (commit, memory.number_held(setup, stamp))
}
