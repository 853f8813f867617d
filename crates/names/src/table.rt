// The names seen so far, in order, with a quick look-up: each name hangs on the newest older one of its bucket.
// Not the library's map: to make one costs its whole room, and a name of few bytes takes twice the time in it.
ghost use Rattle.std.specs.Prelude.{◌≡◌, ℕ, ◌<◌, ◌≤◌, [], map, vec_len, vec_capacity, slice_index, slice_index_or, IfOk};
ghost use Rattle.names.specs.Places.{bytes_of};
ghost use Rattle.names.specs.Buckets.{bucket, last_in};

use crate::name::Name;
use model::full::Full;
use std::alloc::{AllocError, Global};

const BUCKETS: usize = 4096;

// Where one is 0 there is no name; else it is one more than a name's place.
#[derive(Debug, Drop)]
pub struct Names<'a> {
    names: Vec<Name<'a>>,
    // by bucket, the newest name
    newest: Vec<u16>,
    // by name, the next older one in its bucket
    older: Vec<u16>,
    most: u16,
    ghost room: { most ≤ vec_capacity names },
    ghost links: { most ≤ vec_capacity older },
    ghost within: { vec_len names ≤ most },
    ghost paired: { vec_len older ≡ vec_len names },
    ghost buckets: { vec_len newest ≡ 4096 },
    ghost heads: { (b : ℕ) → b < 4096 → slice_index newest.items b ≡ last_in (map bytes_of names.items) b (vec_len names) },
    ghost chains: { (i : ℕ) → i < vec_len names → slice_index older.items i ≡ last_in (map bytes_of names.items) (bucket (slice_index_or (map bytes_of names.items) i [])) i },
}

fn bucket_of(bytes: &[u8]) -> usize
    ensures value { result ≡ bucket bytes.now }
    ensures within { result < 4096 }
{
    let mut h = 0;
    for b in bytes {
        h = (h * 257 + usize::from(*b)) % (1 << 32);
    }
    h * 2_654_435_769 % (1 << 32) / (1 << 20)
}

impl<'a> Names<'a> {
    ghost use Rattle.std.specs.Prelude.{length, Decides};
    ghost use Rattle.names.specs.Tables.{held, LastPlace, Adds};

    // A table without names, with memory for so many.
    pub fn new(heap: Global, most: u16) -> Result<Names<'a>, AllocError>
        ensures { IfOk result (λ t. (held t ≡ []) × (t.most ≡ most)) }
    {
        let names = Vec::with_capacity(heap, usize::from(most))?;
        let older = Vec::with_capacity(heap, usize::from(most))?;
        let newest = vec![in heap; 0; BUCKETS]?;
        Ok(Names {
            names,
            newest,
            older,
            most,
        })
    }

    pub fn len(&self) -> usize
        ensures { result ≡ length (held self.now) }
    {
        self.names.len()
    }

    // One name more, behind the others.
    pub fn add(&mut self, name: Name<'a>) -> Result<(), Full>
        ensures { Adds self.old name.entry.bytes.now result self.new }
    {
        let number = self.len();
        if number >= usize::from(self.most) {
            return Err(Full);
        }
        let b = bucket_of(name.bytes);
        let next = self.newest[b];
        self.older.push_reserved(next);
        self.newest[b] = (number + 1) as u16;
        self.names.push_reserved(name);
        Ok(())
    }

    // One more than the number of the newest name in a bucket, or 0.
    fn newest_in(&self, b: usize) -> u16
        requires { b < 4096 }
        ensures { result ≡ last_in (held self.now) b (length (held self.now)) }
    {
        self.newest[b]
    }

    // One more than the number of the next older name in the bucket of name i, or 0.
    fn older_than(&self, i: usize) -> u16
        requires { i < length (held self.now) }
        ensures { result ≡ last_in (held self.now) (bucket (slice_index_or (held self.now) i [])) i }
    {
        self.older[i]
    }

    fn is_at(&self, i: usize, bytes: &[u8]) -> bool
        requires { i < length (held self.now) }
        ensures { Decides result (slice_index_or (held self.now) i [] ≡ bytes.now) }
    {
        self.names[i].bytes == bytes
    }

    // The last place of a name.
    pub fn find(&self, bytes: &[u8]) -> Option<usize>
        ensures { LastPlace (held self.now) bytes.now result }
    {
        let mut at = self.newest_in(bucket_of(bytes));
        while at > 0 {
            let i = usize::from(at) - 1;
            if self.is_at(i, bytes) {
                return Some(i);
            }
            at = self.older_than(i);
        }
        None
    }
}
