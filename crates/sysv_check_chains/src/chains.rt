// T3, by one walk along every chain.
ghost use Rattle.std.specs.Prelude.{◌≡◌, ℕ, Bool, ◌^◌, ◌<◌, is_some};
ghost use Rattle.sysv_check_chains.specs.Pass.{in_range, all_spent, follow as followed};
ghost use Rattle.sysv_check_chains.specs.Lent.{chain_of, bucket_of, may_stand_of};

use super::names::symbol_hash;
use endian::kinds::{Class, Order};
use symbol::table::SymbolIndex;
use word::u32_at;

// The chains of a table of so many buckets, with the symbols that are to stand on them: those from
// `first` on and below the count.
#[derive(Clone, Copy)]
pub struct Chains<'a> {
    pub class: Class,
    pub order: Order,
    pub table: &'a [u8],
    pub symbols: &'a [u8],
    pub strings: &'a [u8],
    pub buckets: u32,
    pub count: u32,
    pub first: SymbolIndex,
}

impl<'a> Chains<'a> {
    // The number that the chain of a bucket starts with.
    fn start(self, b: u32) -> u32
        ensures { result ≡ bucket_of self.entry b }
    {
        u32_at(self.order, self.table, 8 + b as usize * 4)
    }

    // The number that comes after a number on its chain.
    fn next(self, number: u32) -> u32
        ensures { result ≡ chain_of self.entry number }
    {
        let chains_at = 8 + self.buckets as usize * 4;
        u32_at(self.order, self.table, chains_at + number as usize * 4)
    }
}

// Whether number i may stand on the chain of bucket b.
fn may_stand(chains: Chains, b: u32, i: u32) -> bool
    requires { 0 < chains.buckets }
    ensures { result ≡ may_stand_of chains.entry b i }
{
    chains.first.0 <= i
        && i < chains.count
        && symbol_hash(chains, SymbolIndex(i)) % chains.buckets == b
}

// Along the chain from a number on, with so many steps left: what is left of them where the chain comes
// to 0 by numbers that may stand on it, or none where something is wrong with it.
fn follow<F: Fn(u32) -> bool>(chains: Chains, start: u32, left: u32, may: F) -> Option<u32>
    requires may { F.IsAlwaysCallable may }
    ensures { (test : ℕ → Bool) → ((i : ℕ) (b : Bool) → i < 2 ^ 32 → F.post may i b → test i ≡ b)
        → result ≡ followed (chain_of chains.entry) test left start }
{
    let mut number = start;
    let mut k = left;
    while number != 0 {
        if k == 0 || !may(number) {
            return None;
        }
        k -= 1;
        number = chains.next(number);
    }
    Some(k)
}

// Whether the chain from a number on comes to 0 in so many steps, by numbers from `first` on and below
// the count. No name is looked at: a chain in a circle is found before a name on it is hashed twice.
fn chain_ends(chains: Chains, start: u32, left: u32) -> bool
    ensures { result
        ≡ is_some (followed (chain_of chains.entry) (in_range chains.entry.first.0 chains.entry.count)
        left start) }
{
    follow(
        chains,
        start,
        left,
        |i| chains.first.0 <= i && i < chains.count,
    )
    .is_some()
}

// Whether all chains together take exactly so many steps, and only numbers from `first` on and below
// the count stand on them, each on the chain of its hash.
pub fn chains_hold(chains: Chains, steps: u32) -> bool
    ensures { result
        ≡ all_spent (chain_of chains.entry) (bucket_of chains.entry) (may_stand_of chains.entry)
        chains.entry.buckets steps }
{
    let mut left = steps;
    for b in 0..chains.buckets {
        let start = chains.start(b);
        if !chain_ends(chains, start, left) {
            return false;
        }
        let Some(k) = follow(chains, start, left, |i| may_stand(chains, b, i)) else {
            return false;
        };
        left = k;
    }
    left == 0
}
