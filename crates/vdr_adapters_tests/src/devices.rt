// Folders in which a medium is a device.
use crate::words::expect;
use anyhow::{Result, bail};
use std::alloc::AllocError;
use std::fs::{File, OpenOptions};
use std::io;
use vdr_adapters::{Access, MediaFolder, MediumFile, SystemFile, SystemFolder, Trouble, Unopened};

/// A folder in which the medium of this name is a device.
#[derive(Drop)]
pub(crate) struct WithDevice<'a, 'w> {
    pub(crate) rt: &'a HostRuntime,
    pub(crate) folder: &'w str,
    pub(crate) name: &'w str,
    pub(crate) device: &'w str,
}

impl<'a, 'w> MediaFolder for WithDevice<'a, 'w> {
    type File = SystemFile<&'a HostRuntime>;

    fn trouble(&self) -> Option<Trouble> {
        None
    }

    fn protection(&self, _: &str, _: &str) -> Option<Trouble> {
        None
    }

    fn length_of(&self, _: &str) -> u64 {
        0
    }

    fn open(
        &self,
        name: &str,
        mark: &str,
        access: Access,
    ) -> Result<SystemFile<&'a HostRuntime>, Unopened> {
        if name == self.name {
            open_device(self.rt, self.folder, mark, self.device)
        } else {
            SystemFolder::new(self.rt, self.folder).open(name, mark, access)
        }
    }
}

// A file that is open, as one of this folder with this mark.
fn over<'a>(
    rt: &'a HostRuntime,
    file: File,
    folder: &str,
    mark: &str,
) -> Result<SystemFile<&'a HostRuntime>, AllocError> {
    let mark = format!(in rt.alloc(); "{folder}/{mark}")?;
    let folder = folder.to_string(rt.alloc())?;
    Ok(SystemFile::over(rt, file, folder, mark))
}

// The device, as a file of this folder with this mark.
fn open_device<'a>(
    rt: &'a HostRuntime,
    folder: &str,
    mark: &str,
    device: &str,
) -> Result<SystemFile<&'a HostRuntime>, Unopened> {
    match OpenOptions::new().read(true).write(true).open(rt, device) {
        Ok(file) => over(rt, file, folder, mark).map_err(|_| Unopened::NoMemory),
        Err(error) => Err(Unopened::Shut(Trouble::System(error))),
    }
}

// The capsule of this folder, on a full device.
fn full<'a>(rt: &'a HostRuntime, folder: &str) -> Result<SystemFile<&'a HostRuntime>> {
    match open_device(rt, folder, "capsule.left", "/dev/full") {
        Ok(file) => Ok(file),
        Err(_) => bail!("no full device"),
    }
}

/// A write to a full device fails.
pub(crate) fn fail_when_full(rt: &HostRuntime, folder: &str) -> Result<()> {
    let written = full(rt, folder)?.write_all_at(b"x", 0);
    expect(written.is_err(), "it is written")
}

/// Leaves the mark of a full device.
pub(crate) fn leave_mark(rt: &HostRuntime, folder: &str) -> Result<()> {
    full(rt, folder)?.leave_mark(&io::Error::other("no room"));
    Ok(())
}
