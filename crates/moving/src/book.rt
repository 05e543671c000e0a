ghost use Rattle.std.specs.Prelude.{◌≡◌, true, false, MatchOption};
ghost use Rattle.words.specs.Hints.{Hints};
ghost use Rattle.rules.specs.Kinds.{entries};
ghost use Rattle.rules.specs.Drive.{sound_image};
ghost use Rattle.index.specs.Slots.{slot_at, in_use};

use directory::find::Directory;
use drive::check::sound_index;
use index::find::Index;
use rules::kind::Kind;

// The directory of a sound image, and the hints that know its entries.
#[derive(Drop)]
pub struct Book<'a> {
    pub directory: Directory<'a>,
    pub hints: [u8; 256],
    ghost sound: { sound_image directory.kind directory.image.now ≡ true },
    ghost known: { Hints (slot_at directory.image.now) (in_use directory.image.now) (entries directory.kind) hints },
}

impl<'a> Book<'a> {
    // None where the image is unsound.
    #[tactic(auto, using(crate::proofs::Fits::opening))]
    pub fn of(kind: Kind, image: &'a [u8]) -> Option<Self>
        ensures { MatchOption result (sound_image kind image.now ≡ false) (λ b. (b.directory.kind ≡ kind) × (b.directory.image.now ≡ image.now) × (sound_image kind image.now ≡ true)) }
    {
        let mut hints = [255u8; 256];
        if !sound_index(kind, image, &mut hints) {
            return None;
        }
        let directory = Directory { kind, image };
        Some(Book { directory, hints })
    }

    // The same with the hints lent.
    pub fn index(&self) -> Index<'_>
        ensures { (result.directory.kind ≡ self.now.directory.kind) × (result.directory.image.now ≡ self.now.directory.image.now) }
    {
        Index {
            directory: self.directory,
            hints: &self.hints,
        }
    }
}
