// Permission sets of at most 64 permissions, by value. Every call takes any permission number.
#![tactic(auto)]

ghost use Rattle.std.specs.Prelude.{◌≡◌};
ghost use Rattle.sets.specs.Sets.{empty, all, join, common, without, add, within, has, same};

#[derive(Clone, Copy, PartialEq, Eq)]
pub struct Set {
    // Permission p is a member where binary digit p is 1.
    pub bits: u64,
}

impl Set {
    pub const EMPTY: Set = Set { bits: 0 };

    // How many permissions a set has room for: they are numbered from 0.
    pub const LIMIT: usize = 64;

    // The permissions below k, or all 64 where k is above 64.
    pub fn all(k: usize) -> Set
        ensures { result.bits ≡ all k }
    {
        if k < Set::LIMIT {
            Set { bits: (1 << k) - 1 }
        } else {
            Set { bits: u64::MAX }
        }
    }

    pub fn join(self, other: Set) -> Set
        ensures { result.bits ≡ join self.bits other.bits }
    {
        Set {
            bits: self.bits | other.bits,
        }
    }

    pub fn common(self, other: Set) -> Set
        ensures { result.bits ≡ common self.bits other.bits }
    {
        Set {
            bits: self.bits & other.bits,
        }
    }

    pub fn without(self, other: Set) -> Set
        ensures { result.bits ≡ without self.bits other.bits }
    {
        Set {
            bits: self.bits ^ (self.bits & other.bits),
        }
    }

    // Whether every member of this set is one of the other's.
    pub fn within(self, other: Set) -> bool
        ensures { result ≡ within self.bits other.bits }
    {
        self.bits & other.bits == self.bits
    }

    pub fn same(self, other: Set) -> bool
        ensures { result ≡ same self.bits other.bits }
    {
        self == other
    }

    pub fn is_empty(self) -> bool
        ensures { result ≡ same self.bits empty }
    {
        self == Set::EMPTY
    }

    pub fn has(self, p: usize) -> bool
        ensures { result ≡ has self.bits p }
    {
        if p < Set::LIMIT {
            (self.bits >> p) % 2 == 1
        } else {
            false
        }
    }

    // This set and p, or this set alone where there is no room for p.
    pub fn add(self, p: usize) -> Set
        ensures { result.bits ≡ add self.bits p }
    {
        if p < Set::LIMIT {
            Set {
                bits: self.bits | (1 << p),
            }
        } else {
            self
        }
    }
}
