//! How a step is played.
use anyhow::{Error, anyhow};
use std::alloc::{AllocError, Global};

/// How a step's input is read and what it prints is written.
#[derive(Drop)]
pub(crate) enum Way {
    /// Once for each size, reading in pieces of so many bytes.
    Pieces(Vec<usize>),
    /// In pieces of so many bytes, so many of which are read before a read fails.
    FailingRead { size: usize, reads: u32 },
    /// So many writes go out before one fails.
    FailingWrite { writes: u32 },
    /// Byte by byte, with the first read failing, then the second, and so on to the one behind the last byte.
    EachRead,
    /// Byte by byte, with the first write failing, then the second, and so on.
    EachWrite,
}

impl Way {
    /// Once, with the input as a whole.
    pub(crate) fn whole(alloc: Global) -> Result<Way, AllocError> {
        let mut sizes = Vec::new(alloc);
        sizes.push(usize::MAX)?;
        Ok(Way::Pieces(sizes))
    }
}

/// A size in bytes; 0 is that of the whole.
fn read_size(word: &str) -> Result<usize, Error> {
    match word.parse::<usize>() {
        Ok(0) => Ok(usize::MAX),
        Ok(size) => Ok(size),
        Err(_) => Err(anyhow!("{word} is no size")),
    }
}

fn read_count(word: &str) -> Result<u32, Error> {
    word.parse::<u32>()
        .map_err(|_| anyhow!("{word} is no count"))
}

fn read_sizes(alloc: Global, words: &str) -> Result<Way, Error> {
    let mut sizes = Vec::new(alloc);
    for word in words.split(' ') {
        sizes.push(read_size(word)?)?;
    }
    Ok(Way::Pieces(sizes))
}

/// `N fails after K` of a read.
fn read_failing(words: &str) -> Result<Way, Error> {
    let Some((size, reads)) = words.split_once(" fails after ") else {
        return Err(anyhow!("no failing read"));
    };
    Ok(Way::FailingRead {
        size: read_size(size)?,
        reads: read_count(reads)?,
    })
}

/// The way that the words say.
pub(crate) fn read_way(alloc: Global, words: &str) -> Result<Way, Error> {
    if let Some(sizes) = words.strip_prefix("pieces ") {
        return read_sizes(alloc, sizes);
    }
    if let Some(read) = words.strip_prefix("read ") {
        return read_failing(read);
    }
    if let Some(writes) = words.strip_prefix("write fails after ") {
        let writes = read_count(writes)?;
        return Ok(Way::FailingWrite { writes });
    }
    match words {
        "each read fails" => Ok(Way::EachRead),
        "each write fails" => Ok(Way::EachWrite),
        _ => Err(anyhow!("no way to play a step")),
    }
}
