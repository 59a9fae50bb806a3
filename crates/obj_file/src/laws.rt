// What holds of images and their bytes.

ghost use Rattle.std.specs.Prelude.{◌≡◌, ◌⊎◌, Result, Ok, Err, None};
ghost use Rattle.obj_file.specs.Image.{ImageFields, IsImage, image_bytes, first_wrong, Reads};
ghost use Rattle.obj_file.specs.declared.image.ImageFault.{ImageFault};
ghost use Rattle.obj_file.specs.declared.image.ImageFault.TheVariants.{NoMemory};

/// The bytes of an image have nothing wrong and are those of no other image; so a reader that answers an
/// image to what was written answers the one that was written, and never BadImage.
pub fn written_images_read_back()
    ensures right { (i : ImageFields) → IsImage i → first_wrong (image_bytes i) ≡ None }
    ensures one { (i j : ImageFields) → IsImage i → IsImage j → image_bytes i ≡ image_bytes j → i ≡ j }
    ensures back { (i : ImageFields) (r : Result ImageFields ImageFault) → IsImage i → Reads (image_bytes i) r → ((j : ImageFields) → r ≡ Ok j → IsImage j) → (r ≡ Ok i) ⊎ (r ≡ Err NoMemory) }
{}
