//! Files in memory, for the hosts in memory.

ghost use Rattle.std.specs.Prelude.{◌≡◌, ◌<◌, [], length, IfSome, OnOk, OnErr, MatchOption, min, take, drop, true, false};
ghost use Rattle.host_port.specs.Act.{file_content, has_file, with_file, with_more};
ghost use Rattle.host_port.specs.Entries.{files_of, place_of, bytes_at, rest_at};

use std::alloc::{AllocError, Global};

/// A file and its bytes.
#[derive(Drop)]
pub struct Entry {
    pub name: String,
    pub bytes: Vec<u8>,
}

/// A place in a file: its number among the files, and how many bytes were read.
#[derive(Drop)]
pub struct Place {
    pub file: usize,
    pub at: usize,
}

/// The number of the named file.
pub fn find(entries: &[Entry], name: &str) -> Option<usize>
    ensures place { result ≡ place_of name.now (files_of entries.now) }
    ensures in_range { IfSome result (λ i. i < length entries.now) }
    ensures found { MatchOption result
        ((has_file name.now (files_of entries.now) ≡ false)
        × (file_content name.now (files_of entries.now) ≡ []))
        (λ i. (has_file name.now (files_of entries.now) ≡ true)
        × (file_content name.now (files_of entries.now) ≡ bytes_at (files_of entries.now) i)) }
{
    for (i, entry) in entries.iter().enumerate() {
        if entry.name.as_str() == name {
            return Some(i);
        }
    }
    None
}

/// Where the named file begins, or a place with nothing left where there is no such file.
pub fn start_of(entries: &[Entry], name: &str) -> Place
    ensures { rest_at (files_of entries.now) result ≡ file_content name.now (files_of entries.now) }
{
    match find(entries, name) {
        Some(file) => Place { file, at: 0 },
        None => Place {
            file: entries.len(),
            at: 0,
        },
    }
}

/// Moves bytes from a place in a file to the front of `buf`, goes on by them, and answers how many.
pub fn read_from(entries: &[Entry], place: &mut Place, buf: &mut [u8]) -> usize
    ensures number { result ≡ min (length buf.old)
        (length (rest_at (files_of entries.now) place.old)) }
    ensures bytes { take result buf.new ≡ take result (rest_at (files_of entries.now) place.old) }
    ensures rest { rest_at (files_of entries.now) place.new
        ≡ drop result (rest_at (files_of entries.now) place.old) }
{
    if place.file >= entries.len() {
        return 0;
    }
    let bytes = entries[place.file].bytes.as_slice();
    if place.at >= bytes.len() {
        return 0;
    }
    let rest = bytes.split_at(place.at).1;
    let n = rest.len().min(buf.len());
    buf[..n].copy_from_slice(rest.split_at(n).0);
    place.at += n;
    n
}

/// The bytes of the named file.
pub fn content<'a>(entries: &'a [Entry], name: &str) -> Option<&'a [u8]>
    ensures { MatchOption result
        (has_file name.now (files_of entries.now) ≡ false)
        (λ bytes. (has_file name.now (files_of entries.now) ≡ true)
        × (bytes.now ≡ file_content name.now (files_of entries.now))) }
{
    let i = find(entries, name)?;
    Some(entries[i].bytes.as_slice())
}

/// Gives the named file these bytes.
pub fn set(
    alloc: Global,
    entries: &mut Vec<Entry>,
    name: &str,
    bytes: Vec<u8>,
) -> Result<(), AllocError>
    ensures done { OnOk result (files_of entries.new.items
        ≡ with_file name.now bytes.items (files_of entries.old.items)) }
    ensures unchanged { OnErr result (files_of entries.new.items ≡ files_of entries.old.items) }
{
    match find(entries, name) {
        Some(i) => entries[i].bytes = bytes,
        None => {
            let name = String::from_str(alloc, name)?;
            entries.push(Entry { name, bytes })?;
        }
    }
    Ok(())
}

/// Gives the named file these bytes more.
pub fn append(entries: &mut Vec<Entry>, name: &str, bytes: &[u8]) -> Result<(), AllocError>
    ensures done { OnOk result (files_of entries.new.items
        ≡ with_more name.now bytes.now (files_of entries.old.items)) }
    ensures unchanged { OnErr result (files_of entries.new.items ≡ files_of entries.old.items) }
{
    match find(entries, name) {
        Some(i) => entries[i].bytes.extend_from_slice(bytes),
        None => Ok(()),
    }
}
