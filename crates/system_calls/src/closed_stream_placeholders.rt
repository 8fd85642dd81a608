//! Standard streams that are closed when the program starts.
ghost use Rattle.std.specs.Prelude.{◌<ℤ◌, All, pos, IfOk, IfSome};
ghost use Rattle.std.specs.Option.{ForSome};
ghost use Rattle.std.specs.Fd.{file_raw_fd};

use host::HostFault;
use std::fs::File;
use std::io;
use std::os::fd::AsRawFd;

// The descriptors 0, 1 and 2 are those of the standard streams.
const STANDARD_DESCRIPTORS: i32 = 3;

/// Stands in the place of the standard streams that are closed, for as long as it is kept. The system
/// gives a file that is opened the lowest free descriptor, so without it a named file could become
/// standard input, output or error.
#[derive(Drop)]
pub struct ClosedStreamPlaceholders {
    folders: [Option<File>; 3],
}

impl ClosedStreamPlaceholders {
    /// Takes the descriptors of the standard streams that are closed.
    pub fn new(rt: HostRuntime) -> ClosedStreamPlaceholders
        ensures standard { All (λ held. ForSome held (λ folder. file_raw_fd folder <ℤ pos 3)) result.folders }
    {
        ClosedStreamPlaceholders {
            folders: [hold(rt), hold(rt), hold(rt)],
        }
    }
}

// The lowest free descriptor, where it is that of a standard stream. The root folder stands there, since
// it is always there and can be neither read nor written as a file: reads and writes fail as they do
// on a closed stream. Who may not open it gets none.
fn hold(rt: HostRuntime) -> Option<File>
    ensures standard { IfSome result (λ folder. file_raw_fd folder <ℤ pos 3) }
{
    let Ok(folder) = File::open(&rt, "/") else {
        return None;
    };
    if folder.as_raw_fd() < STANDARD_DESCRIPTORS {
        Some(folder)
    } else {
        None
    }
}

/// A file that was opened, unless it got the descriptor of a standard stream: then that stream is
/// closed and has no placeholder, and the file would be taken for it.
pub fn refuse_standard_descriptor(opened: io::Result<File>) -> Result<File, HostFault>
    ensures beside { IfOk result (λ file. pos 2 <ℤ file_raw_fd file) }
{
    let Ok(file) = opened else {
        return Err(HostFault);
    };
    if file.as_raw_fd() < STANDARD_DESCRIPTORS {
        Err(HostFault)
    } else {
        Ok(file)
    }
}
