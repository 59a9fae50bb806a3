// The sources of programs.

use ldb_words::Text;
use std::alloc::{AllocError, Global};
use std::fs;
use std::rt::Files;

/// The names and texts of source files.
#[derive(Drop)]
pub struct Sources {
    pub names: Vec<Text>,
    pub texts: Vec<Vec<u8>>,
}

impl Sources {
    /// No sources.
    pub fn new(alloc: Global) -> Sources {
        Sources {
            names: Vec::new(alloc),
            texts: Vec::new(alloc),
        }
    }

    /// Adds a source.
    pub fn add(&mut self, alloc: Global, name: &[u8], text: &[u8]) -> Result<(), AllocError> {
        self.names.push(Text::from_slice(alloc, name)?)?;
        self.texts.push(Vec::from_slice(alloc, text)?)?;
        Ok(())
    }
}

/// The sources in the files whose names stand between blanks, if they are there.
pub fn sources_named(
    rt: &(impl Files + AllocGlobal),
    files: &[u8],
) -> Result<Option<Sources>, AllocError> {
    let mut sources = Sources::new(rt.alloc());
    let files = std::str::from_utf8(files).unwrap_or("");
    for file in files.split_ascii_whitespace() {
        let Ok(text) = fs::read(rt, file) else {
            return Ok(None);
        };
        sources.add(rt.alloc(), file.as_bytes(), &text)?;
    }
    Ok(Some(sources))
}

/// The sources whose names and texts stand by turns.
pub fn sources_in(alloc: Global, parts: &[Vec<u8>]) -> Result<Sources, AllocError> {
    let mut sources = Sources::new(alloc);
    for pair in parts.chunks_exact(2) {
        sources.add(alloc, &pair[0], &pair[1])?;
    }
    Ok(sources)
}
