ghost use Rattle.std.specs.Prelude.{◌≡◌, ◌<◌};
ghost use Rattle.words.specs.Lists.{tab};
ghost use Rattle.words.specs.Bytes.{byte_from};
ghost use Rattle.rules.specs.Locks.{file_of, item_at, unpack};
ghost use Rattle.locklist.specs.Places.{Unused};

use locklist::place::{item_at, used_places};
use locklist::unpack::sixteen_from;
use rules::file::File;
use rules::item::Item;
use rules::size::LIST_SIZE;
use rules::tests::user_in;

// A list as it stands in its bytes, with each process's user, and below how many places all that are used stand.
#[derive(Drop)]
pub struct Places<'a> {
    pub list: &'a [u8; LIST_SIZE],
    pub users: [u8; 16],
    pub end: usize,
    ghost users_read: { users ≡ tab (byte_from list.now 3) 16 },
    ghost unused: { Unused list.now end },
}

impl<'a> Places<'a> {
    // The places of a list.
    pub fn of(list: &'a [u8; LIST_SIZE]) -> Self
        ensures { result.list.now ≡ list.now }
    {
        let users = sixteen_from(list, 3);
        Places {
            list,
            users,
            end: used_places(list),
        }
    }

    // The item at a place.
    pub fn item(&self, i: usize) -> Item
        requires { i < 64 }
        ensures { result ≡ item_at (unpack self.now.list.now) i }
    {
        item_at(self.list, i)
    }

    // The file that an item names.
    #[tactic(auto, unfolding(rules::specs::Locks::unpack))]
    pub fn file(&self, it: Item) -> File
        ensures { result ≡ file_of (unpack self.now.list.now) it }
    {
        let name = it.name;
        File {
            user: user_in(self.users, it.process),
            name,
        }
    }
}
