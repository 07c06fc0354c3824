// Files that words may name.
ghost use Rattle.named_files.specs.Named.{named_disk, named_faults, named_left, named_mix, named_puts, named_read, named_sink};

use disk_model::{Disk, Failed, SharedDisk};
use outside_io::{Sink, Source};
use std::alloc::Global;

/// The file that a word names. Without such a word, a disk reads as empty and keeps nothing, a source is at its end, and a sink
/// discards what it takes.
#[derive(Drop)]
pub struct Named<F>(pub Option<F>);

impl<D: Disk> Disk for Named<D> {
    ghost state = { λ named. named_disk D.state named.0 };

    ghost read_is_image = { λ named. named_read D.state D.read_is_image named.0 };

    ghost places_mix = { λ named. named_mix D.state D.places_mix named.0 };

    fn size(&mut self) -> Result<u64, Failed> {
        match &mut self.0 {
            Some(disk) => disk.size(),
            None => Ok(0),
        }
    }

    fn read_at(&mut self, at: u64, buf: &mut [u8]) -> Result<(), Failed> {
        match &mut self.0 {
            Some(disk) => disk.read_at(at, buf),
            None => {
                buf.fill(0);
                Ok(())
            }
        }
    }

    fn write_at(&mut self, at: u64, bytes: &[u8]) -> Result<(), Failed> {
        match &mut self.0 {
            Some(disk) => disk.write_at(at, bytes),
            None => Ok(()),
        }
    }

    fn sync(&mut self) -> Result<(), Failed> {
        match &mut self.0 {
            Some(disk) => disk.sync(),
            None => Ok(()),
        }
    }
}

impl<D: SharedDisk> SharedDisk for Named<D> {
    fn reader(&self, alloc: Global) -> Option<Self> {
        match &self.0 {
            Some(disk) => match disk.reader(alloc) {
                Some(reader) => Some(Named(Some(reader))),
                None => None,
            },
            None => Some(Named(None)),
        }
    }
}

impl<S: Source> Source for Named<S> {
    ghost left = { λ named. named_left S.left named.0 };

    ghost faults = { λ named. named_faults S.faults named.0 };

    fn take(&mut self, buf: &mut [u8]) -> Result<usize, Failed> {
        match &mut self.0 {
            Some(source) => source.take(buf),
            None => Ok(0),
        }
    }
}

impl<K: Sink> Sink for Named<K> {
    ghost state = { λ named. named_sink K.state named.0 };

    ghost puts = { λ named. named_puts K.puts named.0 };

    fn put(&mut self, bytes: &[u8]) -> Result<(), Failed> {
        match &mut self.0 {
            Some(sink) => sink.put(bytes),
            None => Ok(()),
        }
    }
}
