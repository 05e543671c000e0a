ghost use Rattle.std.specs.Prelude.{◌≡◌, ◌+◌, ◌*◌, ◌<◌, ◌≤◌, length};
ghost use Rattle.rules.specs.Kinds.{numbers};
ghost use Rattle.rules.specs.Drive.{is_empty, extent_at, map_number, file_at, is_of, is_entry, read_only};

use crate::name::{file_from, is_named};
use rules::file::File;
use rules::kind::Kind;

// The 32 bytes of an image at an entry's place.
#[derive(Clone, Copy)]
pub struct Entry<'a> {
    pub image: &'a [u8],
    pub place: usize,
    ghost within: { 32 * place + 32 ≤ length image.now },
}

impl<'a> Entry<'a> {
    // The one at a place.
    pub fn at(image: &'a [u8], place: usize) -> Self
        requires { 32 * place + 32 ≤ length image.now }
        ensures { (result.image.now ≡ image.now) × (result.place ≡ place) }
    {
        Entry { image, place }
    }

    // It is empty.
    #[tactic(auto, using(words::proofs::Sets::choices), unfolding(rules::specs::Drive::is_empty))]
    pub fn is_empty(&self) -> bool
        ensures { result ≡ is_empty self.now.image.now self.now.place }
    {
        self.image[32 * self.place] == 0xE5
    }

    // Its extent number.
    pub fn extent(&self) -> usize
        ensures { result ≡ extent_at self.now.image.now self.now.place }
    {
        usize::from(self.image[32 * self.place + 12])
            + 32 * usize::from(self.image[32 * self.place + 14])
    }

    // The number in place `k` of its map.
    #[tactic(auto, unfolding(rules::specs::Kinds::numbers, rules::specs::Kinds::width, rules::specs::Drive::map_number, words::specs::Bytes::number_at))]
    pub fn map_number(&self, kind: Kind, k: usize) -> usize
        requires { k < numbers kind }
        ensures { (result ≡ map_number kind self.now.image.now self.now.place k) × (result < 65536) }
    {
        match kind {
            Kind::Small(_) => usize::from(self.image[32 * self.place + 16 + k]),
            Kind::Large(_) => {
                let at = 32 * self.place + 16 + 2 * k;
                usize::from(u16::from_le_bytes([self.image[at], self.image[at + 1]]))
            }
        }
    }

    // Its file.
    #[tactic(auto, unfolding(rules::specs::Drive::file_at))]
    pub fn file(&self) -> File
        ensures { result ≡ file_at self.now.image.now self.now.place }
    {
        file_from(self.image[32 * self.place], self.image, 32 * self.place + 1)
    }

    // It is in use and of the file.
    #[tactic(auto, using(words::proofs::Sets::choices), unfolding(rules::specs::Drive::is_of))]
    pub fn is_of(&self, f: File) -> bool
        ensures { result ≡ is_of self.now.image.now f self.now.place }
    {
        !self.is_empty()
            && self.image[32 * self.place] == f.user
            && is_named(self.image, 32 * self.place + 1, f.name)
    }

    // It is that extent of the file.
    #[tactic(auto, using(words::proofs::Sets::choices), unfolding(rules::specs::Drive::is_entry))]
    pub fn is_extent(&self, f: File, extent: usize) -> bool
        ensures { result ≡ is_entry self.now.image.now f extent self.now.place }
    {
        !self.is_empty()
            && self.image[32 * self.place] == f.user
            && self.extent() == extent
            && is_named(self.image, 32 * self.place + 1, f.name)
    }

    // The file, whose extent 0 it is, has the read-only attribute.
    #[tactic(auto, using(words::proofs::Sets::choices), unfolding(rules::specs::Drive::read_only))]
    pub fn is_read_only(&self) -> bool
        ensures { result ≡ read_only self.now.image.now self.now.place }
    {
        128 <= self.image[32 * self.place + 9]
    }
}
