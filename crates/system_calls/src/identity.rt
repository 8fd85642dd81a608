//! What the system tells of a file: by that it is known, whatever its names.
ghost use Rattle.std.specs.Prelude.{IsSomeAnd, IsTrue};
ghost use Rattle.std.specs.Fs.{file_type, IsFile};
ghost use Rattle.tools.specs.Identity.{is_regular};

use host::HostFault;
use std::fs;
use std::fs::{File, Metadata};
use std::io::ErrorKind;
use std::os::unix::fs::{FileTypeExt, MetadataExt};
use tools::FileIdentity;

/// What the system tells of a standard stream, under the name of its descriptor, as `/proc/self/fd/0`; where
/// nothing stands there, nothing is known. Any other answer is a fault: the stream may be a file that is read.
pub fn standard_stream_metadata(
    rt: HostRuntime,
    descriptor: &str,
) -> Result<Option<Metadata>, HostFault> {
    match fs::metadata(&rt, descriptor) {
        Ok(metadata) => Ok(Some(metadata)),
        Err(e) if e.kind() == ErrorKind::NotFound => Ok(None),
        Err(_) => Err(HostFault),
    }
}

/// What the system tells of an opened file.
pub fn file_metadata(file: &File) -> Result<Metadata, HostFault> {
    file.metadata().map_err(|_| HostFault)
}

/// Whether the system tells this of one file, of whatever kind, by the numbers of its device and of its inode.
pub fn is_same_file(one: &Metadata, other: &Metadata) -> bool {
    one.dev() == other.dev() && one.ino() == other.ino()
}

/// The file of which the system tells this, where it is a regular one or a block device.
pub fn identity(metadata: &Metadata) -> Option<FileIdentity>
    ensures regular { IsFile (file_type metadata.now) → IsSomeAnd result (λ file. IsTrue (is_regular file)) }
{
    if metadata.is_file() {
        Some(FileIdentity::Regular {
            device: metadata.dev(),
            inode: metadata.ino(),
        })
    } else if metadata.file_type().is_block_device() {
        Some(FileIdentity::Block {
            device: metadata.rdev(),
        })
    } else {
        None
    }
}
