//! Where output goes.
use std::fs::File;
use std::io;
use std::io::{Stdout, Write};

/// Standard output, or a file.
#[derive(Drop)]
pub enum Output<'a> {
    Standard(Stdout),
    File(OutputFile<'a>),
}

/// A file by its name, which is made when the first byte is written: where nothing is written, no
/// file is made or changed.
#[derive(Drop)]
pub struct OutputFile<'a> {
    rt: &'a HostRuntime,
    name: &'a str,
    file: Option<File>,
}

impl<'a> Output<'a> {
    /// The file of that name, or standard output for `-` and where none is named.
    pub fn of(rt: &'a HostRuntime, name: Option<&'a str>) -> Output<'a> {
        match name {
            None | Some("-") => Output::Standard(rt.stdout()),
            Some(name) => Output::File(OutputFile {
                rt,
                name,
                file: None,
            }),
        }
    }

    /// Makes an empty file where one is named and nothing was written to it.
    pub fn make_if_unwritten(&self) -> io::Result<()> {
        if let Output::File(output) = self
            && output.file.is_none()
        {
            File::create(output.rt, output.name)?;
        }
        Ok(())
    }
}

impl Write for Output<'_> {
    fn write(&mut self, buf: &[u8]) -> io::Result<usize> {
        match self {
            Output::Standard(output) => output.write(buf),
            Output::File(output) => output.write(buf),
        }
    }

    fn flush(&mut self) -> io::Result<()> {
        match self {
            Output::Standard(output) => output.flush(),
            Output::File(output) => output.flush(),
        }
    }
}

impl Write for OutputFile<'_> {
    fn write(&mut self, buf: &[u8]) -> io::Result<usize> {
        match &mut self.file {
            Some(file) => file.write(buf),
            None => {
                let mut file = File::create(self.rt, self.name)?;
                let written = file.write(buf);
                self.file = Some(file);
                written
            }
        }
    }

    fn flush(&mut self) -> io::Result<()> {
        match &mut self.file {
            Some(file) => file.flush(),
            None => Ok(()),
        }
    }
}
