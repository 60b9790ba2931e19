//! The newest of the versions that the processes have committed.
ghost use Rattle.std.specs.Prelude.{◌≡◌, ◌⊎◌, []};
ghost use Rattle.model.specs.{image_field};
ghost use Rattle.process.specs.Newest.{IsNewestWith, newest_version};

use crate::access_request::image_field;
use registers::RegisterName;

/// The newest of the versions of processes 0, 1 and so on.
#[derive(Clone, Copy)]
pub struct NewestVersion {
    /// The greatest stamp.
    pub stamp: u32,
    /// The lowest process with this stamp.
    pub process: u8,
    /// The commit bit of this process.
    pub commit: bool,
}

impl NewestVersion {
    /// Returns the newest of no versions, which has stamp 0.
    pub fn none() -> NewestVersion
        ensures { result ≡ newest_version [] }
    {
        NewestVersion {
            stamp: 0,
            process: 0,
            commit: false,
        }
    }

    /// Returns the newest after the version of the next process, its commit bit and its stamp, is added to them.
    pub fn with(self, process: u8, version: (bool, u32)) -> NewestVersion
        ensures either { (result ≡ self)
            ⊎ (result ≡ record { stamp = version.1; process = process; commit = version.0 }) }
        ensures newest { IsNewestWith self process version result }
    {
        let (commit, stamp) = version;
        if process == 0 || self.stamp < stamp {
            NewestVersion {
                stamp,
                process,
                commit,
            }
        } else {
            self
        }
    }

    /// Returns the register of the image that its process has committed.
    pub fn image(self) -> RegisterName
        ensures { result ≡ record { owner = self.process; field = image_field self.commit } }
    {
        RegisterName {
            owner: self.process,
            field: image_field(self.commit),
        }
    }
}
