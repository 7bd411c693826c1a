//! Lists in memory.
use ev_base::MemSource;
use std::alloc::Global;
use std::test::Fail;

pub(crate) fn list_of<T: Copy>(alloc: Global, items: &[T]) -> Result<Vec<T>, Fail> {
    let mut list = Vec::new(alloc);
    list.extend_from_slice(items)?;
    Ok(list)
}

/// A source of some pieces, of which the reads of these numbers fail.
pub(crate) fn source_of(alloc: Global, pieces: &[&[u8]], fails: &[u64]) -> Result<MemSource, Fail> {
    let mut owned = Vec::new(alloc);
    for piece in pieces {
        owned.push(list_of(alloc, piece)?)?;
    }
    Ok(MemSource::new(owned, list_of(alloc, fails)?))
}

pub(crate) fn words_of(alloc: Global, line: &str) -> Result<Vec<String>, Fail> {
    let mut words = Vec::new(alloc);
    for word in line.split(' ') {
        words.push(String::from_str(alloc, word)?)?;
    }
    Ok(words)
}
