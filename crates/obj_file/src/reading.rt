// Bytes read as an image.

ghost use Rattle.std.specs.Prelude.{◌≡◌, ◌≤◌, ◌^◌, Some, None, MatchResult};
ghost use Rattle.obj_file.specs.Image.{byte_at, half_at, word_at, wrong_in_header, wrong_in_body, Reads, IsHeader, IsBody};

use crate::image::{Image, ImageFault};
use bytes::Buf;
use machine_state::{MIPS, SPARC, TEXT};
use std::alloc::Global;

/// `LDBI`, as a number.
const MAGIC: u32 = 0x4c44_4249;

const MAGIC_AT: u32 = 0;

const VERSION_AT: u32 = 4;

const TARGET_AT: u32 = 5;

const ZEROS_AT: u32 = 6;

const ENTRY_AT: u32 = 8;

const TEXT_LENGTH_AT: u32 = 12;

const DATA_LENGTH_AT: u32 = 16;

const TEXT_AT: u32 = 20;

/// How many bytes a text has at most.
const TEXT_LIMIT: u32 = 0x0100_0000;
/// How many bytes the data begin with at most.
const DATA_LIMIT: u32 = 0x0010_0000;

/// The byte at an offset, if it is there.
#[tactic(auto, unfolding(crate::specs::Image::byte_at))]
fn byte_at(bytes: &[u8], at: u32) -> Option<u8>
    ensures { result ≡ byte_at at bytes.now }
{
    let mut rest = bytes.get(at as usize..)?;
    rest.try_get_u8().ok()
}

/// The number in two bytes at an offset, if they are there.
#[tactic(auto, unfolding(crate::specs::Image::half_at))]
fn half_at(bytes: &[u8], at: u32) -> Option<u16>
    ensures { result ≡ half_at at bytes.now }
{
    let mut rest = bytes.get(at as usize..)?;
    rest.try_get_u16().ok()
}

/// The number in four bytes at an offset, if they are there.
#[tactic(auto, unfolding(crate::specs::Image::word_at))]
fn word_at(bytes: &[u8], at: u32) -> Option<u32>
    ensures { result ≡ word_at at bytes.now }
{
    let mut rest = bytes.get(at as usize..)?;
    rest.try_get_u32().ok()
}

/// The numbers of a header.
#[derive(Drop)]
struct Header {
    target: u8,
    entry: u32,
    text_length: u32,
    data_length: u32,
}

/// The header of an image, or the offset of its first field that is wrong.
#[tactic(auto, unfolding(crate::specs::Image::wrong_in_header))]
fn read_header(bytes: &[u8]) -> Result<Header, u32>
    ensures { MatchResult result (λ h. IsHeader bytes.now h.target h.entry h.text_length h.data_length) (λ at. wrong_in_header bytes.now ≡ Some at) }
{
    let Some(MAGIC) = word_at(bytes, MAGIC_AT) else {
        return Err(MAGIC_AT);
    };
    let Some(1) = byte_at(bytes, VERSION_AT) else {
        return Err(VERSION_AT);
    };
    let Some(target) = byte_at(bytes, TARGET_AT) else {
        return Err(TARGET_AT);
    };
    if target != MIPS && target != SPARC {
        return Err(TARGET_AT);
    }
    let Some(0) = half_at(bytes, ZEROS_AT) else {
        return Err(ZEROS_AT);
    };
    let Some(entry) = word_at(bytes, ENTRY_AT) else {
        return Err(ENTRY_AT);
    };
    let Some(text_length) = word_at(bytes, TEXT_LENGTH_AT) else {
        return Err(TEXT_LENGTH_AT);
    };
    if text_length < 4 || text_length > TEXT_LIMIT || text_length % 4 != 0 {
        return Err(TEXT_LENGTH_AT);
    }
    let Some(data_length) = word_at(bytes, DATA_LENGTH_AT) else {
        return Err(DATA_LENGTH_AT);
    };
    if data_length > DATA_LIMIT {
        return Err(DATA_LENGTH_AT);
    }
    Ok(Header {
        target,
        entry,
        text_length,
        data_length,
    })
}

/// The offset of the first field after the header that is wrong.
#[tactic(auto, unfolding(crate::specs::Image::wrong_in_body))]
fn wrong_in_body(header: &Header, bytes: &[u8]) -> Option<u32>
    requires text_fits { header.now.text_length ≤ 2 ^ 24 }
    requires data_fit { header.now.data_length ≤ 2 ^ 20 }
    ensures first { result ≡ wrong_in_body header.now.entry header.now.text_length header.now.data_length bytes.now }
    ensures right { result ≡ None → IsBody bytes.now header.now.entry header.now.text_length header.now.data_length }
{
    let end_of_text = TEXT_AT + header.text_length;
    let end = end_of_text + header.data_length;
    if bytes.len() < end_of_text as usize {
        Some(TEXT_AT)
    } else if bytes.len() < end as usize {
        Some(end_of_text)
    } else if header.entry % 4 != 0
        || header.entry < TEXT
        || header.entry >= TEXT + header.text_length
    {
        Some(ENTRY_AT)
    } else if bytes.len() != end as usize {
        Some(end)
    } else {
        None
    }
}

/// Reads an image: exactly the bytes that an image is written as are read, and else the offset of the
/// first field that is not all there or wrong is told.
#[tactic(auto, unfolding(crate::specs::Image::first_wrong))]
pub fn read_image(alloc: Global, bytes: &[u8]) -> Result<Image, ImageFault>
    ensures { Reads bytes.now result }
{
    let header = match read_header(bytes) {
        Ok(header) => header,
        Err(at) => return Err(ImageFault::BadImage { at }),
    };
    if let Some(at) = wrong_in_body(&header, bytes) {
        return Err(ImageFault::BadImage { at });
    }
    let end_of_text = (TEXT_AT + header.text_length) as usize;
    let Ok(text) = Vec::from_slice(alloc, &bytes[TEXT_AT as usize..end_of_text]) else {
        return Err(ImageFault::NoMemory);
    };
    let Ok(statics) = Vec::from_slice(alloc, &bytes[end_of_text..]) else {
        return Err(ImageFault::NoMemory);
    };
    Ok(Image::new(header.target, header.entry, text, statics))
}
