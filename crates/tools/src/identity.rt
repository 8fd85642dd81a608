//! Which file of the system a file is, whatever its names.
ghost use Rattle.std.specs.Prelude.{◌≡◌, ◌↔◌, IsTrue};
ghost use Rattle.tools.specs.Identity.{IsAmongFilesRead, is_regular};

/// A file that keeps what is written to it: it is the same under each of its names, and no other as long as it is there.
#[derive(Clone, Copy, Debug, PartialEq, Eq)]
pub enum FileIdentity {
    /// A regular file, by the numbers of its device and of its inode.
    Regular { device: u64, inode: u64 },
    /// A block device, by its own number.
    Block { device: u64 },
}

impl FileIdentity {
    /// Whether it can be emptied: a regular file can, and a device has the bytes that it has.
    pub fn is_regular(&self) -> bool
        ensures regular { result ≡ is_regular self.now }
    {
        matches!(self, FileIdentity::Regular { .. })
    }
}

/// The files that a run reads, where they are regular files or block devices.
#[derive(Clone, Copy)]
pub struct IdentitiesOfFilesRead {
    pub input: Option<FileIdentity>,
    pub secret: Option<FileIdentity>,
}

impl IdentitiesOfFilesRead {
    /// Whether this is one of them.
    pub fn includes(&self, file: Option<FileIdentity>) -> bool
        ensures exact { IsTrue result ↔ IsAmongFilesRead self.now file }
    {
        match file {
            None => false,
            Some(file) => self.input == Some(file) || self.secret == Some(file),
        }
    }
}
