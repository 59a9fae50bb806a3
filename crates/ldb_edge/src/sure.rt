// The forms in memory of which no call fails for its number.
ghost use Rattle.std.specs.Prelude.{◌≡◌, [], Some, None, IfSome, MatchOption};
ghost use Rattle.std.specs.FinMap as map;
ghost use Rattle.ldb_edge.specs.MemFiles.{map_of};

use crate::{Failed, FileErr, Files, MemFiles, MemSink, MemSource, Sink, Source};

/// A source in memory. No read fails.
#[derive(Drop)]
pub struct SureSource {
    source: MemSource,
    ghost none_fails: { source.calls.fails.items ≡ [] },
}

impl SureSource {
    /// A source of these bytes.
    pub fn new(start: Vec<u8>) -> Self
        ensures { ⟦<SureSource as Source>⟧.left result ≡ Some start.items }
    {
        let none = Vec::new(*start.allocator());
        SureSource {
            source: MemSource::new(start, none),
        }
    }
}

impl Source for SureSource {
    ghost left = { λ s. ⟦<MemSource as Source>⟧.left s.source };

    ghost faults = { λ _. 0 };

    ghost calls = { λ s. ⟦<MemSource as Source>⟧.calls s.source };

    fn read(&mut self, buf: &mut [u8]) -> Result<usize, Failed> {
        self.source.read(buf)
    }
}

/// A sink in memory. No write fails but one that finds no memory.
#[derive(Drop)]
pub struct SureSink {
    sink: MemSink,
    ghost none_fails: { sink.calls.fails.items ≡ [] },
}

impl SureSink {
    /// A sink that took these bytes.
    pub fn new(start: Vec<u8>) -> Self
        ensures taken { ⟦<SureSink as Sink>⟧.taken result ≡ Some start.items }
        ensures faults { ⟦<SureSink as Sink>⟧.faults result ≡ 0 }
    {
        let none = Vec::new(*start.allocator());
        SureSink {
            sink: MemSink::new(start, none),
        }
    }

    /// The bytes that it took.
    pub fn bytes(&self) -> &[u8]
        ensures { ⟦<SureSink as Sink>⟧.taken self.now ≡ Some result.now }
    {
        self.sink.bytes()
    }
}

impl Sink for SureSink {
    ghost taken = { λ s. ⟦<MemSink as Sink>⟧.taken s.sink };

    ghost faults = { λ s. ⟦<MemSink as Sink>⟧.faults s.sink };

    ghost calls = { λ s. ⟦<MemSink as Sink>⟧.calls s.sink };

    ghost leads = { λ _ _. Unit {0} };

    fn write(&mut self, piece: &[u8]) -> Result<usize, Failed> {
        self.sink.write(piece)
    }

    ghost stays = { λ _. tt };

    ghost goes_on = { λ _ _ _ _ _. tt };
}

/// Files in memory. No read fails, and no write but one that finds no memory.
#[derive(Drop)]
pub struct SureFiles {
    files: MemFiles,
    ghost none_fails: { files.calls.fails.items ≡ [] },
}

impl SureFiles {
    /// Files that hold `start` at first. Of two files with one name the first counts.
    pub fn new(start: Vec<(String, Vec<u8>)>) -> Self
        ensures held { ⟦<SureFiles as Files>⟧.held result ≡ Some (map_of start.items) }
        ensures write_faults { ⟦<SureFiles as Files>⟧.write_faults result ≡ 0 }
    {
        let none = Vec::new(*start.allocator());
        SureFiles {
            files: MemFiles::new(start, none),
        }
    }

    /// What a name holds.
    pub fn get(&self, name: &str) -> Option<&[u8]>
        ensures { IfSome (⟦<SureFiles as Files>⟧.held self.now) (λ files. MatchOption result
            (map.get files name.now ≡ None)
            (λ bytes. map.get files name.now ≡ Some bytes.now)) }
    {
        self.files.get(name)
    }
}

impl Files for SureFiles {
    ghost held = { λ s. ⟦<MemFiles as Files>⟧.held s.files };

    ghost read_faults = { λ _. 0 };

    ghost write_faults = { λ s. ⟦<MemFiles as Files>⟧.write_faults s.files };

    ghost created = { λ s name. ⟦<MemFiles as Files>⟧.created s.files name };

    ghost missed = { λ _ _. Unit {0} };

    ghost calls = { λ s. ⟦<MemFiles as Files>⟧.calls s.files };

    fn read_at(&mut self, name: &str, at: u64, buf: &mut [u8]) -> Result<usize, FileErr> {
        self.files.read_at(name, at, buf)
    }

    fn create(&mut self, name: &str) -> Result<(), Failed> {
        self.files.create(name)
    }

    fn append(&mut self, name: &str, piece: &[u8]) -> Result<usize, FileErr> {
        self.files.append(name, piece)
    }
}
