// Flash and RAM, lent together: whether they can be, and what of them an area is.
ghost use Rattle.std.specs.Prelude.{◌≡◌, option_copied};
ghost use Rattle.model.specs.Images.{image, apart, images_ok, holder, is_held};
ghost use Rattle.images.specs.Parts.{image_of, part_of_found};

use crate::image::Image;
use itron::limit::ADDRESS_END;

// The base address of each image.
#[derive(Clone, Copy)]
pub struct Bases {
    pub flash: u32,
    pub ram: u32,
}

#[derive(Clone, Copy)]
pub struct Images<'a> {
    pub flash: Image<'a>,
    pub ram: Image<'a>,
}

impl<'a> Images<'a> {
    // Both images, by their bases and their bytes.
    pub fn new(bases: Bases, flash: &'a [u8], ram: &'a [u8]) -> Images<'a>
        ensures flash { image_of result.flash ≡ image bases.flash flash.now }
        ensures ram { image_of result.ram ≡ image bases.ram ram.now }
    {
        Images {
            flash: Image {
                base: bases.flash,
                bytes: flash,
            },
            ram: Image {
                base: bases.ram,
                bytes: ram,
            },
        }
    }

    // Whether no address is in both.
    pub(crate) fn are_apart(self) -> bool
        ensures { result ≡ apart (image_of self.entry.flash) (image_of self.entry.ram) }
    {
        self.flash.bytes.is_empty()
            | self.ram.bytes.is_empty()
            | self.flash.ends_by(self.ram.base as u64)
            | self.ram.ends_by(self.flash.base as u64)
    }

    // Whether the two can be lent together.
    pub fn are_lendable(self) -> bool
        ensures { result ≡ images_ok (image_of self.entry.flash) (image_of self.entry.ram) }
    {
        self.flash.ends_by(ADDRESS_END) & self.ram.ends_by(ADDRESS_END) & self.are_apart()
    }

    // That part of the one that has all of an area, just the area and no copy; none where neither has it.
    pub fn part(self, base: u32, size: u32) -> Option<&'a [u8]>
        ensures { option_copied result ≡ part_of_found (holder (image_of self.entry.flash) (image_of self.entry.ram) base size) base size }
    {
        self.flash.part(base, size).or(self.ram.part(base, size))
    }

    // Whether an area lies wholly in one of them.
    pub fn is_held(self, base: u32, size: u32) -> bool
        ensures { result ≡ is_held (holder (image_of self.entry.flash) (image_of self.entry.ram) base size) }
    {
        self.part(base, size).is_some()
    }
}
