ghost use Rattle.std.specs.Prelude.{◌≡◌, ◌+◌, ◌<◌, ◌≤◌};
ghost use Rattle.words.specs.Tests.{any, lowest, count};
ghost use Rattle.rules.specs.Locks.{item_at, user_of, position_of, moved_to, open_of, any_open, locked_by_other, held, opens_by, locks_by, free_place, free_places, is_kind_by_at};
ghost use Rattle.rules.specs.Codes.{stands_against_at, is_others, is_new};
ghost use Rattle.rules.specs.Effects.{placed, opened, closed, unlocked_run, without_by, locked_run};

use crate::file::File;
use crate::item::{A_LOCK, AN_EMPTY, AN_OPEN, Item};
use crate::tests::user_in;

// The lock list, unpacked: its limits, each process's user, 64 places, each process's next entry, and the number of its
// rule.
#[derive(Clone, Copy)]
pub struct LockList {
    pub capacity: u8,
    pub openlimit: u8,
    pub locklimit: u8,
    pub users: [u8; 16],
    pub items: [Item; 64],
    pub positions: [u8; 16],
    pub rule: u8,
}

impl LockList {
    // The list with the process's open of the file and its locks on it gone. In place: the array's `map` takes twice as
    // long.
    pub fn close(mut self, p: u8, f: File) -> LockList
        ensures { result ≡ closed p f self }
    {
        for it in &mut self.items {
            *it = it.unless_of_file(p, f);
        }
        self
    }

    // The list with the process's locks on n records of the file from r on gone.
    pub fn unlock(mut self, p: u8, f: File, r: u32, n: u32) -> LockList
        ensures { result ≡ unlocked_run p f r n self }
    {
        for it in &mut self.items {
            *it = it.unless_in_run(p, f, r, n);
        }
        self
    }

    // The list with all items of the process gone.
    pub fn terminate(mut self, p: u8) -> LockList
        ensures { result ≡ without_by p self }
    {
        for it in &mut self.items {
            *it = it.unless_by(p);
        }
        self
    }

    // The list with the process's next entry at e.
    #[tactic(auto, unfolding(crate::specs::Locks::moved_to))]
    pub fn move_to(mut self, p: u8, e: u8) -> LockList
        ensures { result ≡ moved_to p e self }
    {
        if p < 16 {
            self.positions[usize::from(p)] = e;
        }
        self
    }

    // The process's next entry, 0 for one over 15.
    pub fn position_of(&self, p: u8) -> u8
        ensures { result ≡ position_of self.now p }
    {
        user_in(self.positions, p)
    }

    // The lowest empty place below the capacity, the capacity where there is none.
    #[tactic(auto, using(crate::proofs::Lists::frees), unfolding(crate::specs::Locks::free_place, crate::specs::Locks::is_empty_at))]
    pub fn free_place(&self) -> usize
        ensures { (result ≡ free_place self.now) × (result ≤ 64) }
    {
        let end = usize::from(self.capacity);
        for (i, it) in self.items.iter().enumerate() {
            if i == end || it.kind == AN_EMPTY {
                return i;
            }
        }
        64
    }

    // The list with the item in the lowest empty place.
    #[tactic(auto, unfolding(crate::specs::Effects::placed))]
    pub fn place(mut self, it: Item) -> LockList
        ensures { result ≡ placed it self }
    {
        let at = self.free_place();
        if at < 64 {
            self.items[at] = it;
        }
        self
    }

    // The list with a fresh open of the file.
    #[tactic(auto, unfolding(crate::specs::Effects::opened))]
    pub fn open(self, p: u8, f: File, mode: u8) -> LockList
        ensures { result ≡ opened p f mode self }
    {
        self.place(Item::open(p, f.name, mode))
    }

    // The user of a process.
    pub fn user_of(&self, p: u8) -> u8
        ensures { result ≡ user_of self.now p }
    {
        user_in(self.users, p)
    }

    // The mode of the item at a place, 0 past the last.
    pub fn mode_at(&self, o: usize) -> u8
        ensures { result ≡ (item_at self.now o).mode }
    {
        self.items.get(o).map_or(0, |it| it.mode)
    }

    // The place of the process's open of the file, 64 where it has none.
    pub fn open_of(&self, p: u8, f: File) -> usize
        ensures { (result ≡ open_of self.now p f) × (result ≤ 64) }
    {
        self.items
            .iter()
            .position(|it| it.opens_name(p, f.name))
            .unwrap_or(64)
    }

    // Anybody has the file open.
    pub fn any_open(&self, f: File) -> bool
        ensures { result ≡ any_open self.now f }
    {
        self.items.iter().any(|it| it.opens_file(f, self.users))
    }

    // Another process's open of the file cannot stand beside one in that mode.
    pub fn any_against(&self, p: u8, f: File, mode: u8) -> bool
        ensures { result ≡ any (stands_against_at self.now p f mode) 64 }
    {
        self.items
            .iter()
            .any(|it| it.opens_against(p, f, mode, self.users))
    }

    // Another process has locked the record.
    pub fn locked_by_other(&self, p: u8, f: File, r: u32) -> bool
        ensures { result ≡ locked_by_other self.now p f r }
    {
        self.items
            .iter()
            .any(|it| it.is_others_lock(p, f, r, self.users))
    }

    // The process holds the record.
    fn holds(&self, p: u8, f: File, r: u32) -> bool
        ensures { result ≡ held self.now p f r }
    {
        self.items
            .iter()
            .any(|it| it.is_own_lock(p, f, r, self.users))
    }

    // How many items of that kind the process has, counted without a branch: `filter` and `count` take twice the time.
    #[tactic(auto, using(crate::proofs::Lists::counts), unfolding(crate::specs::Locks::is_kind_by_at))]
    fn kinds_by(&self, kind: u8, p: u8) -> usize
        ensures { (result ≡ count (is_kind_by_at self.now kind p) 64) × (result ≤ 64) }
    {
        let mut n = 0;
        for it in &self.items {
            n += usize::from(it.is_kind_by(kind, p));
        }
        n
    }

    // How many opens the process has.
    #[tactic(auto, unfolding(crate::specs::Locks::opens_by))]
    pub fn opens_by(&self, p: u8) -> usize
        ensures { (result ≡ opens_by self.now p) × (result ≤ 64) }
    {
        self.kinds_by(AN_OPEN, p)
    }

    // How many locks the process has.
    #[tactic(auto, unfolding(crate::specs::Locks::locks_by))]
    pub fn locks_by(&self, p: u8) -> usize
        ensures { (result ≡ locks_by self.now p) × (result ≤ 64) }
    {
        self.kinds_by(A_LOCK, p)
    }

    // How many places below the capacity are empty.
    #[tactic(auto, using(crate::proofs::Lists::counts), unfolding(crate::specs::Locks::free_places, crate::specs::Locks::is_empty_at))]
    pub fn free_places(&self) -> usize
        requires { self.now.capacity ≤ 64 }
        ensures { result ≡ free_places self.now }
    {
        let mut n = 0;
        for it in &self.items[..usize::from(self.capacity)] {
            n += usize::from(it.kind == AN_EMPTY);
        }
        n
    }

    // How far into the n records from r on the first is that another process has locked; n where there is none.
    #[tactic(auto, using(crate::proofs::Runs::others), unfolding(crate::specs::Locks::is_others_lock, crate::specs::Locks::locks_record_at))]
    pub fn first_others(&self, p: u8, f: File, r: u32, n: u32) -> u32
        ensures { result ≡ lowest (is_others self.now p f r) n }
    {
        let mut first = n;
        for it in &self.items {
            let number = it.number;
            if r <= number && number - r < first && it.is_others_lock(p, f, number, self.users) {
                first = number - r;
            }
        }
        first
    }

    // How many of the n records from r on the process does not hold: those it holds are marked first.
    #[tactic(auto, using(crate::proofs::Runs::marks), unfolding(crate::specs::Locks::is_own_lock, crate::specs::Locks::locks_record_at))]
    pub fn count_new(&self, p: u8, f: File, r: u32, n: u32) -> usize
        requires { n ≤ 16 }
        ensures { (result ≡ count (is_new self.now p f r) n) × (result ≤ n) }
    {
        let mut mine = [false; 16];
        for it in &self.items {
            let number = it.number;
            if r <= number && number - r < n && it.is_own_lock(p, f, number, self.users) {
                mine[(number - r) as usize] = true;
            }
        }
        mine[..n as usize].iter().filter(|held| !**held).count()
    }

    // The list with the n records from r on locked, in rising order; one that the process holds gets no new place.
    #[tactic(auto, using(crate::proofs::Lists::taking), unfolding(crate::specs::Effects::locked_run))]
    pub fn lock_run(self, p: u8, f: File, r: u32, n: u32) -> LockList
        requires { r + n < 4294967296 }
        ensures { result ≡ locked_run p f r n self }
    {
        let mut l = self;
        for k in 0..n {
            let number = r + k;
            if !l.holds(p, f, number) {
                l = l.place(Item::lock(p, f.name, number));
            }
        }
        l
    }
}
