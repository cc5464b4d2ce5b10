// A queue in a ring of lent slots. The caller owns the slots, a slice of any `Copy` type, and a `Ring`,
// which says where the queue begins and how many elements it holds; `held slots ring` is their list.
// Each contract says what becomes of that list, and that a refusal changes neither the slots nor the ring.
// No function requires anything: a ring that reaches past its slots is read as if cut to their number.
// Each call does a constant amount of work, but for `push_all`, which copies its elements one by one.
#![tactic(auto)]

ghost use Rattle.std.specs.Prelude.{◌≡◌, ◌+◌, ◌-◌, ◌<◌, ◌≤◌, false, [], ◌∷◌, ◌++◌, length, take, drop, if◌then◌else◌, MatchOption, nat_le, nat_lt, slice_index_or, slice_set};
ghost use Rattle.queue.specs.Held.{held, slot};

pub mod owned;

pub use owned::{Full, Queue};

// Where a queue begins among its slots, and how many elements it holds.
#[derive(Clone, Copy, Debug)]
pub struct Ring {
    head: usize,
    len: usize,
}

impl Ring {
    // The ring of a queue that holds nothing.
    pub const fn empty() -> Ring
        ensures head { result.head ≡ 0 }
        ensures len { result.len ≡ 0 }
    {
        Ring { head: 0, len: 0 }
    }
}

// Where the `i`-th element stands, of a queue that begins at `head` of `room` slots.
fn place(room: usize, head: usize, i: usize) -> usize
    requires { i < room }
    ensures below { result < room }
    ensures value { result ≡ slot room head i }
{
    let behind = room.saturating_sub(head);
    if i < behind { head + i } else { i - behind }
}

// How many elements the queue holds.
pub fn count<T: Copy>(slots: &[T], ring: &Ring) -> usize
    ensures value { result ≡ length (held slots.now ring.now) }
    ensures within { result ≤ length slots.now }
{
    ring.len.min(slots.len())
}

// Adds `x` as the last element; `false`, with nothing changed, where every slot is taken.
pub fn push_back<T: Copy>(slots: &mut [T], ring: &mut Ring, x: T) -> bool
    ensures answer { result ≡ nat_lt (length (held slots.old ring.old)) (length slots.old) }
    ensures holds { held slots.new ring.new ≡ (if result then held slots.old ring.old ++ x ∷ [] else held slots.old ring.old) }
    ensures same { result ≡ false → (slots.new ≡ slots.old) × (ring.new ≡ ring.old) }
{
    let len = count(slots, ring);
    if len >= slots.len() {
        return false;
    }
    let at = place(slots.len(), ring.head, len);
    slots[at] = x;
    ring.len = len + 1;
    true
}

// Adds all of `xs` behind the last element, in their order; `false`, with nothing changed, where they do not all fit.
pub fn push_all<T: Copy>(slots: &mut [T], ring: &mut Ring, xs: &[T]) -> bool
    ensures answer { result ≡ nat_le (length (held slots.old ring.old) + length xs.now) (length slots.old) }
    ensures holds { held slots.new ring.new ≡ (if result then held slots.old ring.old ++ xs.now else held slots.old ring.old) }
    ensures same { result ≡ false → (slots.new ≡ slots.old) × (ring.new ≡ ring.old) }
{
    let free = slots.len() - count(slots, ring);
    if xs.len() > free {
        return false;
    }
    for x in xs {
        // It is never refused, since all of them fit.
        push_back(slots, ring, *x);
    }
    true
}

// Takes the first element off; `None` where there is none.
pub fn pop_front<T: Copy>(slots: &[T], ring: &mut Ring) -> Option<T>
    ensures holds { MatchOption result ((held slots.now ring.old ≡ []) × (ring.new ≡ ring.old)) (λ x. held slots.now ring.old ≡ x ∷ held slots.now ring.new) }
    ensures count { MatchOption result (length (held slots.now ring.old) ≡ 0) (λ _. length (held slots.now ring.new) + 1 ≡ length (held slots.now ring.old)) }
{
    let len = count(slots, ring);
    if len == 0 {
        return None;
    }
    // One past the last slot serves as a beginning too: the slots are then read from the first on.
    let at = place(slots.len(), ring.head, 0);
    ring.head = at + 1;
    ring.len = len - 1;
    Some(slots[at])
}

// Takes the first `n` elements off, or all where there are fewer.
pub fn drop_front<T: Copy>(slots: &[T], ring: &mut Ring, n: usize)
    ensures holds { held slots.now ring.new ≡ drop n (held slots.now ring.old) }
    ensures count { length (held slots.now ring.new) ≡ length (held slots.now ring.old) - n }
{
    let len = count(slots, ring);
    if n < len {
        ring.head = place(slots.len(), ring.head, n);
    }
    ring.len = len.saturating_sub(n);
}

// Takes the last element off; `None` where there is none.
pub fn pop_back<T: Copy>(slots: &[T], ring: &mut Ring) -> Option<T>
    ensures holds { MatchOption result ((held slots.now ring.old ≡ []) × (ring.new ≡ ring.old)) (λ x. held slots.now ring.old ≡ held slots.now ring.new ++ x ∷ []) }
    ensures count { MatchOption result (length (held slots.now ring.old) ≡ 0) (λ _. length (held slots.now ring.new) + 1 ≡ length (held slots.now ring.old)) }
{
    let len = count(slots, ring);
    if len == 0 {
        return None;
    }
    let at = place(slots.len(), ring.head, len - 1);
    ring.len = len - 1;
    Some(slots[at])
}

// The first element.
pub fn front<T: Copy>(slots: &[T], ring: &Ring) -> Option<T>
    ensures holds { MatchOption result (held slots.now ring.now ≡ []) (λ x. held slots.now ring.now ≡ x ∷ drop 1 (held slots.now ring.now)) }
{
    get(slots, ring, 0)
}

// The first `n` elements, or all where there are fewer, in the at most two runs in which they lie.
pub fn front_runs<'a, T: Copy>(slots: &'a [T], ring: &Ring, n: usize) -> (&'a [T], &'a [T])
    ensures { result.0.now ++ result.1.now ≡ take n (held slots.now ring.now) }
{
    let n = n.min(count(slots, ring));
    let (before, behind) = slots.split_at(ring.head.min(slots.len()));
    let first = n.min(behind.len());
    (&behind[..first], &before[..n - first])
}

// The last element.
pub fn back<T: Copy>(slots: &[T], ring: &Ring) -> Option<T>
    ensures holds { MatchOption result (held slots.now ring.now ≡ []) (λ x. held slots.now ring.now ≡ take (length (held slots.now ring.now) - 1) (held slots.now ring.now) ++ x ∷ []) }
{
    let len = count(slots, ring);
    if len == 0 {
        return None;
    }
    get(slots, ring, len - 1)
}

// The element that has `i` others before it.
pub fn get<T: Copy>(slots: &[T], ring: &Ring, i: usize) -> Option<T>
    ensures holds { MatchOption result (length (held slots.now ring.now) ≤ i) (λ x. (i < length (held slots.now ring.now)) × (x ≡ slice_index_or (held slots.now ring.now) i x)) }
{
    if i >= count(slots, ring) {
        return None;
    }
    Some(slots[place(slots.len(), ring.head, i)])
}

// Puts `x` in place of the element that has `i` others before it; `false`, with nothing changed, where there is none.
pub fn put<T: Copy>(slots: &mut [T], ring: &Ring, i: usize, x: T) -> bool
    ensures answer { result ≡ nat_lt i (length (held slots.old ring.now)) }
    ensures holds { held slots.new ring.now ≡ slice_set (held slots.old ring.now) i x }
    ensures same { result ≡ false → slots.new ≡ slots.old }
{
    if i >= count(slots, ring) {
        return false;
    }
    let at = place(slots.len(), ring.head, i);
    slots[at] = x;
    true
}

#[cfg(test)]
mod tests {
    use super::*;

    // Thirty elements pass through three slots.
    #[test]
    fn goes_round(rt: HostRuntime) {
        let slots: &mut [u8] = &mut [0; 3];
        let mut ring = Ring::empty();
        assert!(rt; push_all(slots, &mut ring, &[1, 2]));
        for x in 3..30 {
            assert!(rt; push_back(slots, &mut ring, x));
            assert!(rt; !push_back(slots, &mut ring, 99));
            assert_eq!(rt; count(slots, &ring), 3);
            assert_eq!(rt; back(slots, &ring), Some(x));
            assert_eq!(rt; get(slots, &ring, 1), Some(x - 1));
            assert_eq!(rt; front(slots, &ring), Some(x - 2));
            assert_eq!(rt; pop_front(slots, &mut ring), Some(x - 2));
        }
        assert!(rt; put(slots, &ring, 1, 7));
        assert!(rt; !put(slots, &ring, 2, 8));
        for left in [Some(7), Some(28), None] {
            assert_eq!(rt; back(slots, &ring), left);
            assert_eq!(rt; pop_back(slots, &mut ring), left);
        }
    }

    // From each beginning: all of them, or none and nothing changed.
    #[test]
    fn pushes_all_or_none(rt: HostRuntime) {
        for head in 0..5 {
            let mut slots = [9u8; 4];
            let mut ring = Ring { head, len: 1 };
            assert!(rt; push_all(&mut slots, &mut ring, &[1, 2]));
            let before = slots;
            assert!(rt; !push_all(&mut slots, &mut ring, &[3, 4]));
            assert_eq!(rt; slots, before);
            assert!(rt; ring.head == head && ring.len == 3);
            assert!(rt; push_all(&mut slots, &mut ring, &[5]));
            for left in [Some(9), Some(1), Some(2), Some(5), None] {
                assert_eq!(rt; pop_front(&slots, &mut ring), left);
            }
        }
    }

    // Rings that reach past their slots, down to no slots at all.
    #[test]
    fn is_total(rt: HostRuntime) {
        let all: &mut [u8] = &mut [1, 2];
        for n in 0..3 {
            let slots = &mut all[0..n];
            let mut ring = Ring { head: 7, len: 9 };
            assert_eq!(rt; count(slots, &ring), n);
            assert!(rt; !push_back(slots, &mut ring, 3));
            assert!(rt; push_all(slots, &mut ring, &[]));
            assert_eq!(rt; get(slots, &ring, n), None);
            assert_eq!(rt; pop_back(slots, &mut ring).is_some(), n > 0);
            assert_eq!(rt; pop_front(slots, &mut ring).is_some(), n > 1);
            assert_eq!(rt; front(slots, &ring), None);
        }
    }
}
