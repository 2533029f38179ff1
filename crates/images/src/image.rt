// One image: its base address and its bytes.
ghost use Rattle.std.specs.Prelude.{◌≡◌, cond, Some as Given, None as Nothing, option_copied};
ghost use Rattle.model.specs.Images.{ends_by, lies_in, part_in};
ghost use Rattle.images.specs.Parts.{image_of};

#[derive(Clone, Copy)]
pub struct Image<'a> {
    pub base: u32,
    pub bytes: &'a [u8],
}

impl<'a> Image<'a> {
    // Whether it ends at an address or before it. Its length is compared with what lies between: base plus length might not fit.
    pub(crate) fn ends_by(self, address: u64) -> bool
        ensures { result ≡ ends_by (image_of self.entry) address }
    {
        let Some(room) = address.checked_sub(self.base as u64) else {
            return false;
        };
        self.bytes.len() as u64 <= room
    }

    // The part of it in which an area lies, as it stands there, if it has the whole area. A place and a size of 32 bits each have a sum that fits.
    pub(crate) fn part(self, base: u32, size: u32) -> Option<&'a [u8]>
        ensures { option_copied result ≡ cond (lies_in (image_of self.entry) base size) (Given (part_in (image_of self.entry) base size)) Nothing }
    {
        let start = base.checked_sub(self.base)? as usize;
        let end = start + size as usize;
        self.bytes.get(start..end)
    }
}
