// Images as bytes.

ghost use Rattle.std.specs.Prelude.{◌≡◌, IfOk};
ghost use Rattle.obj_file.specs.Image.{image_bytes};

use crate::image::Image;
use std::alloc::{AllocError, Global};

/// The bytes of an image.
#[tactic(auto, unfolding(crate::specs::Image::image_bytes))]
pub fn write_image(alloc: Global, image: &Image) -> Result<Vec<u8>, AllocError>
    ensures { IfOk result (λ bytes. bytes.items ≡ image_bytes image.now) }
{
    let text = image.text();
    let statics = image.statics();
    let mut bytes = Vec::with_capacity(alloc, 20 + text.len() + statics.len())?;
    bytes.extend_from_slice(&[0x4c, 0x44, 0x42, 0x49, 1, image.target(), 0, 0])?;
    bytes.extend_from_slice(&image.entry().to_be_bytes())?;
    bytes.extend_from_slice(&(text.len() as u32).to_be_bytes())?;
    bytes.extend_from_slice(&(statics.len() as u32).to_be_bytes())?;
    bytes.extend_from_slice(text)?;
    bytes.extend_from_slice(statics)?;
    Ok(bytes)
}
