ghost use Rattle.std.specs.Prelude.{◌≡◌, not, get_or, eqb};
ghost use Rattle.words.specs.Tests.{◌and◌};
ghost use Rattle.rules.specs.Locks.{empty_place, fresh_open, fresh_lock, opens_name, opens_file, locks_record, is_kind_by};
ghost use Rattle.rules.specs.Codes.{stands_against};
ghost use Rattle.rules.specs.Effects.{is_of_file, unless_of_file, is_in_run, unless_in_run, unless_by};

use crate::file::File;
use crate::tests::{same_name, user_in};

// The kinds of places: empty, an open, a record lock, and one with a mark that is none of these. They are numbers since
// the rules compare a kind as one (`is_kind_by`, `good_place`); a mode may be any byte until the list check passed it.
pub const AN_EMPTY: u8 = 0;

pub const AN_OPEN: u8 = 1;

pub const A_LOCK: u8 = 2;

pub const NO_MARK: u8 = 3;

// The modes of an open.
pub const MODE_LOCKED: u8 = 0;

pub const MODE_UNLOCKED: u8 = 1;

pub const MODE_READ_ONLY: u8 = 2;

// A place of the lock list.
#[derive(Clone, Copy)]
pub struct Item {
    pub kind: u8,
    pub process: u8,
    pub name: [u8; 11],
    pub mode: u8,
    pub number: u32,
}

impl Item {
    pub const EMPTY: Item = Item {
        kind: AN_EMPTY,
        process: 0,
        // Written out: with `[0; 11]` the 64 places are made one by one, and unpacking a list takes a quarter more.
        name: [0, 0, 0, 0, 0, 0, 0, 0, 0, 0, 0],
        mode: 0,
        number: 0,
    };

    // The empty place.
    pub fn empty() -> Item
        ensures { result ≡ empty_place }
    {
        Item::EMPTY
    }

    // A fresh open.
    pub fn open(process: u8, name: [u8; 11], mode: u8) -> Item
        ensures { result ≡ fresh_open process name mode }
    {
        Item {
            kind: AN_OPEN,
            process,
            name,
            mode,
            number: 0,
        }
    }

    // A fresh lock.
    pub fn lock(process: u8, name: [u8; 11], number: u32) -> Item
        ensures { result ≡ fresh_lock process name number }
    {
        Item {
            kind: A_LOCK,
            process,
            name,
            mode: MODE_UNLOCKED,
            number,
        }
    }

    // An open of the file with that name by the process.
    #[tactic(auto, using(words::proofs::Sets::choices), unfolding(crate::specs::Locks::opens_name))]
    pub fn opens_name(self, p: u8, name: [u8; 11]) -> bool
        ensures { result ≡ opens_name p name self }
    {
        self.kind == AN_OPEN && self.process == p && same_name(self.name, name)
    }

    // An open of the file by anybody; users has each process's user.
    #[tactic(auto, using(words::proofs::Sets::choices), unfolding(crate::specs::Locks::opens_file))]
    pub fn opens_file(self, f: File, users: [u8; 16]) -> bool
        ensures { result ≡ opens_file f (get_or users self.process 0) self }
    {
        self.kind == AN_OPEN
            && user_in(users, self.process) == f.user
            && same_name(self.name, f.name)
    }

    // A lock of the file's record by anybody.
    #[tactic(auto, using(words::proofs::Sets::choices), unfolding(crate::specs::Locks::locks_record))]
    pub fn locks_record(self, f: File, r: u32, users: [u8; 16]) -> bool
        ensures { result ≡ locks_record f r (get_or users self.process 0) self }
    {
        self.kind == A_LOCK
            && self.number == r
            && user_in(users, self.process) == f.user
            && same_name(self.name, f.name)
    }

    // A lock of the file's record by another process.
    #[tactic(auto, using(words::proofs::Sets::choices))]
    pub fn is_others_lock(self, p: u8, f: File, r: u32, users: [u8; 16]) -> bool
        ensures { result ≡ (not (eqb self.process p) and locks_record f r (get_or users self.process 0) self) }
    {
        self.process != p && self.locks_record(f, r, users)
    }

    // A lock of the file's record by the process itself.
    #[tactic(auto, using(words::proofs::Sets::choices))]
    pub fn is_own_lock(self, p: u8, f: File, r: u32, users: [u8; 16]) -> bool
        ensures { result ≡ (eqb self.process p and locks_record f r (get_or users self.process 0) self) }
    {
        self.process == p && self.locks_record(f, r, users)
    }

    // An item of that kind by the process.
    #[tactic(auto, using(words::proofs::Sets::choices), unfolding(crate::specs::Locks::is_kind_by))]
    pub fn is_kind_by(self, kind: u8, p: u8) -> bool
        ensures { result ≡ is_kind_by kind p self }
    {
        self.kind == kind && self.process == p
    }

    // Another process's item whose mode cannot stand beside that one.
    #[tactic(auto, using(words::proofs::Sets::choices), unfolding(crate::specs::Codes::stands_against))]
    pub fn stands_against(self, p: u8, mode: u8) -> bool
        ensures { result ≡ stands_against p mode self }
    {
        self.process != p && (mode == MODE_LOCKED || self.mode != mode)
    }

    // Another process's open of the file that cannot stand beside one in that mode.
    #[tactic(auto, using(words::proofs::Sets::choices))]
    pub fn opens_against(self, p: u8, f: File, mode: u8, users: [u8; 16]) -> bool
        ensures { result ≡ (opens_file f (get_or users self.process 0) self and stands_against p mode self) }
    {
        self.opens_file(f, users) && self.stands_against(p, mode)
    }

    // An item of the process on the file.
    #[tactic(auto, using(words::proofs::Sets::choices), unfolding(crate::specs::Effects::is_of_file))]
    pub fn is_of_file(self, p: u8, f: File) -> bool
        ensures { result ≡ is_of_file p f self }
    {
        self.kind != AN_EMPTY && self.process == p && same_name(self.name, f.name)
    }

    // A lock of the process on the file, of one of the n records from r on.
    #[tactic(auto, using(words::proofs::Sets::choices), unfolding(crate::specs::Effects::is_in_run))]
    pub fn is_in_run(self, p: u8, f: File, r: u32, n: u32) -> bool
        ensures { result ≡ is_in_run p f r n self }
    {
        // By itself: in one expression with the rest, all of it is computed for each item, and 43 takes a fifth more.
        if self.kind != A_LOCK {
            return false;
        }
        r <= self.number && self.number - r < n && self.is_of_file(p, f)
    }

    // The item, or the empty place where it is one of the process on the file.
    #[tactic(auto, using(words::proofs::Sets::choices), unfolding(crate::specs::Effects::unless_of_file))]
    pub fn unless_of_file(self, p: u8, f: File) -> Item
        ensures { result ≡ unless_of_file p f self }
    {
        if self.is_of_file(p, f) {
            Item::EMPTY
        } else {
            self
        }
    }

    // The item, or the empty place where it is a lock in the run.
    #[tactic(auto, using(words::proofs::Sets::choices), unfolding(crate::specs::Effects::unless_in_run))]
    pub fn unless_in_run(self, p: u8, f: File, r: u32, n: u32) -> Item
        ensures { result ≡ unless_in_run p f r n self }
    {
        if self.is_in_run(p, f, r, n) {
            Item::EMPTY
        } else {
            self
        }
    }

    // The item, or the empty place where it is one of the process.
    #[tactic(auto, using(words::proofs::Sets::choices), unfolding(crate::specs::Effects::unless_by))]
    pub fn unless_by(self, p: u8) -> Item
        ensures { result ≡ unless_by p self }
    {
        if self.process == p { Item::EMPTY } else { self }
    }
}
