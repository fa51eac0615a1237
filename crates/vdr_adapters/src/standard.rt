// The standard streams that were closed as the program began: /dev/null is opened for each, before any medium is.
use std::fs::{File, Files, OpenOptions};
use std::io;
use std::os::fd::AsRawFd;

/// The number of the last standard stream: input, output and error have the descriptors 0, 1 and 2.
const LAST_STREAM: i32 = 2;

/// What stands in for the standard streams with which the program was started closed. Each file that is opened gets the
/// least free descriptor, so that without this a medium would become the standard output, and be printed over.
#[derive(Drop)]
pub struct StandardStreams {
    _held: [Option<File>; 3],
}

impl StandardStreams {
    /// Opens `/dev/null` for each standard stream that is closed. This has to be called before any other file is opened, and
    /// the streams are filled until the value is dropped.
    pub fn fill<R: Files<File = File>>(rt: &R) -> io::Result<StandardStreams> {
        let mut held = [None, None, None];
        for place in held.iter_mut() {
            let file = OpenOptions::new()
                .read(true)
                .write(true)
                .open(rt, "/dev/null")?;
            if file.as_raw_fd() > LAST_STREAM {
                break;
            }
            *place = Some(file);
        }
        Ok(StandardStreams { _held: held })
    }
}
