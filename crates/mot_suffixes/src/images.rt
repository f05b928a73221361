//! Which image type a file is of: by its suffix, and by its first bytes.
ghost use Rattle.std.specs.Prelude.{◌≡◌};
ghost use Rattle.mot_suffixes.specs.Images.{has_signature, image_of_bytes, image_of_content};
ghost use Rattle.mot_suffixes.specs.Images.{other_image};

use mot_objects::Content;

/// The content type of images (TS 101 756).
const IMAGE: u8 = 2;

/// The image types of the known suffixes.
#[derive(Clone, Copy, PartialEq, Eq)]
pub enum ImageType {
    /// GIF, of 1987 or 1989.
    Gif,
    /// JPEG.
    Jpeg,
    /// A bitmap of Windows.
    Bmp,
    /// PNG.
    Png,
}

/// The bytes of an object are not of the image type that its suffix says.
#[derive(Clone, Copy, PartialEq, Eq)]
pub struct OtherImage {
    /// The type that its suffix says.
    pub by_suffix: ImageType,
    /// The one that its first bytes say; `None` if they say none.
    pub by_bytes: Option<ImageType>,
}

impl ImageType {
    /// The image type that an object's content says; `None` if it says none of these.
    fn of_content(content: Content) -> Option<ImageType>
        ensures { result ≡ image_of_content content }
    {
        if content.content_type() != IMAGE {
            return None;
        }
        match content.subtype() {
            0 => Some(ImageType::Gif),
            1 => Some(ImageType::Jpeg),
            2 => Some(ImageType::Bmp),
            3 => Some(ImageType::Png),
            _ => None,
        }
    }

    /// The image type that bytes begin as; `None` if it is none of these.
    fn of_bytes(bytes: &[u8]) -> Option<ImageType>
        ensures { result ≡ image_of_bytes bytes.now }
    {
        if ImageType::Gif.is_begun_by(bytes) {
            Some(ImageType::Gif)
        } else if ImageType::Jpeg.is_begun_by(bytes) {
            Some(ImageType::Jpeg)
        } else if ImageType::Bmp.is_begun_by(bytes) {
            Some(ImageType::Bmp)
        } else if ImageType::Png.is_begun_by(bytes) {
            Some(ImageType::Png)
        } else {
            None
        }
    }

    /// Whether these bytes begin as such an image.
    fn is_begun_by(self, bytes: &[u8]) -> bool
        ensures { result ≡ has_signature self bytes.now }
    {
        match self {
            ImageType::Gif => bytes.starts_with(b"GIF87a") || bytes.starts_with(b"GIF89a"),
            ImageType::Jpeg => bytes.starts_with(b"\xFF\xD8\xFF"),
            ImageType::Bmp => bytes.starts_with(b"BM"),
            ImageType::Png => bytes.starts_with(b"\x89PNG\r\n\x1A\n"),
        }
    }
}

/// What the bytes of an object of this content begin as, if the content says one image type and
/// they are not of that one; else `None`.
pub fn other_image(content: Content, bytes: &[u8]) -> Option<OtherImage>
    ensures { result ≡ other_image content bytes.now }
{
    let by_suffix = ImageType::of_content(content)?;
    if by_suffix.is_begun_by(bytes) {
        return None;
    }
    Some(OtherImage {
        by_suffix,
        by_bytes: ImageType::of_bytes(bytes),
    })
}
