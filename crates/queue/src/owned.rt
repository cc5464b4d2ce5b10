// A queue of at most N elements, in a ring of slots that it owns. `items` is the list of its elements, first
// to last. No function requires anything, and what is refused changes nothing. N may be any number, 0 too.
// A queue is copied with its slots, as they are.
ghost use Rattle.std.specs.Prelude.{⊤, ◌≡◌, ◌+◌, ◌-◌, ◌<◌, ◌≤◌, ◌↔◌, [], ◌∷◌, ◌++◌, length, take, drop, IsOk, OnOk, OnErr, slice_get, slice_set};
ghost use Rattle.queue.specs.Items.{items};

use crate::Ring;
use std::alloc::AllocError;
use std::error::Error;
use std::fmt;

// Every slot is taken.
#[derive(Clone, Copy, PartialEq, Eq, Debug)]
pub struct Full;

impl fmt::Display for Full {
    fn fmt<W: fmt::Write>(&self, f: &mut fmt::Formatter<W>) -> fmt::Result {
        write!(f, "every slot is taken")
    }
}

impl Error for Full {}

#[derive(Debug)]
pub struct Queue<T, const N: usize> {
    slots: [T; N],
    ring: Ring,
}

impl<T: Copy, const N: usize> Clone for Queue<T, N> {
    ghost is_clone = { λ x y. y ≡ x };

    ghost is_infallible = { λ _. ⊤ };

    fn clone(&self) -> Result<Self, AllocError> {
        Ok(*self)
    }
}

impl<T: Copy, const N: usize> Copy for Queue<T, N> {}

#[tactic(auto, unfolding(crate::specs::Items::items))]
impl<T: Copy, const N: usize> Queue<T, N> {
    // A queue that holds nothing; `blank` fills its slots.
    pub fn new(blank: T) -> Self
        ensures { items result ≡ [] }
    {
        Queue {
            slots: [blank; N],
            ring: Ring::empty(),
        }
    }

    // How many elements it holds.
    pub fn len(&self) -> usize
        ensures value { result ≡ length (items self.now) }
        ensures within { result ≤ N }
    {
        crate::count(&self.slots, &self.ring)
    }

    // Adds `x` as the last element, or nothing where every slot is taken.
    pub fn push_back(&mut self, x: T) -> Result<(), Full>
        ensures room { IsOk result ↔ (length (items self.old) < N) }
        ensures ok { OnOk result (items self.new ≡ items self.old ++ x ∷ []) }
        ensures err { OnErr result (self.new ≡ self.old) }
    {
        let pushed = crate::push_back(&mut self.slots, &mut self.ring, x);
        pushed.then_some(()).ok_or(Full)
    }

    // Adds all of `xs` behind the last element, in their order, or nothing where they do not all fit.
    pub fn push_all(&mut self, xs: &[T]) -> Result<(), Full>
        ensures room { IsOk result ↔ (length (items self.old) + length xs.now ≤ N) }
        ensures ok { OnOk result (items self.new ≡ items self.old ++ xs.now) }
        ensures err { OnErr result (self.new ≡ self.old) }
    {
        // the ring in a variable of its own need not be read again behind each element
        let mut ring = self.ring;
        let pushed = crate::push_all(&mut self.slots, &mut ring, xs);
        self.ring = ring;
        pushed.then_some(()).ok_or(Full)
    }

    // Takes the first element off.
    pub fn pop_front(&mut self) -> Option<T>
        ensures first { result ≡ slice_get (items self.old) 0 }
        ensures rest { items self.new ≡ drop 1 (items self.old) }
    {
        crate::pop_front(&self.slots, &mut self.ring)
    }

    // Takes the first `n` elements off, or all where there are fewer.
    pub fn drop_front(&mut self, n: usize)
        ensures { items self.new ≡ drop n (items self.old) }
    {
        crate::drop_front(&self.slots, &mut self.ring, n)
    }

    // Takes the last element off.
    pub fn pop_back(&mut self) -> Option<T>
        ensures last { result ≡ slice_get (items self.old) (length (items self.old) - 1) }
        ensures rest { items self.new ≡ take (length (items self.old) - 1) (items self.old) }
    {
        crate::pop_back(&self.slots, &mut self.ring)
    }

    // The first element.
    pub fn front(&self) -> Option<T>
        ensures { result ≡ slice_get (items self.now) 0 }
    {
        crate::front(&self.slots, &self.ring)
    }

    // The last element.
    pub fn back(&self) -> Option<T>
        ensures { result ≡ slice_get (items self.now) (length (items self.now) - 1) }
    {
        crate::back(&self.slots, &self.ring)
    }

    // The element that has `i` others before it.
    pub fn get(&self, i: usize) -> Option<T>
        ensures value { result ≡ slice_get (items self.now) i }
        ensures within { length (items self.now) ≤ N }
    {
        crate::get(&self.slots, &self.ring, i)
    }

    // The first `n` elements, or all where there are fewer, in the at most two runs in which they lie.
    pub fn front_runs(&self, n: usize) -> (&[T], &[T])
        ensures { result.0.now ++ result.1.now ≡ take n (items self.now) }
    {
        crate::front_runs(&self.slots, &self.ring, n)
    }

    // Puts `x` in place of the element that has `i` others before it, and gives that element back; where
    // there is none, nothing changes.
    pub fn replace(&mut self, i: usize, x: T) -> Option<T>
        ensures before { result ≡ slice_get (items self.old) i }
        ensures after { items self.new ≡ slice_set (items self.old) i x }
    {
        let before = self.get(i);
        crate::put(&mut self.slots, &self.ring, i, x);
        before
    }
}

#[cfg(test)]
mod tests {
    use super::*;

    // Thirty elements pass through three slots.
    #[test]
    fn goes_round_in_its_own_slots(rt: HostRuntime) {
        let mut queue: Queue<u8, 3> = Queue::new(0);
        assert!(rt; queue.push_all(&[1, 2]).is_ok());
        for x in 3..30 {
            assert!(rt; queue.push_back(x).is_ok());
            assert!(rt; queue.push_back(99).is_err());
            assert_eq!(rt; queue.len(), 3);
            assert_eq!(rt; queue.back(), Some(x));
            assert_eq!(rt; queue.get(1), Some(x - 1));
            assert_eq!(rt; queue.front(), Some(x - 2));
            assert_eq!(rt; queue.pop_front(), Some(x - 2));
        }
        assert_eq!(rt; queue.replace(1, 7), Some(29));
        assert_eq!(rt; queue.replace(2, 8), None);
        for left in [Some(7), Some(28), None] {
            assert_eq!(rt; queue.back(), left);
            assert_eq!(rt; queue.pop_back(), left);
        }
    }

    // From each beginning: all of them, or none and nothing changed.
    #[test]
    fn pushes_all_or_none_into_its_own_slots(rt: HostRuntime) {
        for head in 0..5 {
            let mut queue = Queue {
                slots: [9u8; 4],
                ring: Ring { head, len: 1 },
            };
            assert!(rt; queue.push_all(&[1, 2]).is_ok());
            let before = queue.slots;
            assert!(rt; queue.push_all(&[3, 4]).is_err());
            assert_eq!(rt; queue.slots, before);
            assert!(rt; queue.ring.head == head && queue.ring.len == 3);
            assert!(rt; queue.push_all(&[5]).is_ok());
            for left in [Some(9), Some(1), Some(2), Some(5), None] {
                assert_eq!(rt; queue.pop_front(), left);
            }
        }
    }

    // Takes from a full queue of these slots that begins past the last of them.
    macro_rules! empty_full {
        ($rt:ident, $slots:expr, $room:literal) => {
            let mut queue: Queue<u8, $room> = Queue {
                slots: $slots,
                ring: Ring {
                    head: $room,
                    len: $room,
                },
            };
            assert_eq!($rt; queue.len(), $room);
            assert!($rt; queue.push_back(3).is_err());
            assert!($rt; queue.push_all(&[]).is_ok());
            assert_eq!($rt; queue.get($room), None);
            assert_eq!($rt; queue.pop_back().is_some(), $room > 0);
            assert_eq!($rt; queue.pop_front().is_some(), $room > 1);
            assert_eq!($rt; queue.front(), None);
        };
    }

    // All sizes down to no slots at all.
    #[test]
    fn is_total_of_any_size(rt: HostRuntime) {
        empty_full!(rt, [], 0);
        empty_full!(rt, [1], 1);
        empty_full!(rt, [1, 2], 2);
    }
}
